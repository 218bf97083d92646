// Runs the bench card's worked run (paper 01) and the small cases below it over the proved jobs, and prints what comes out.
#![tactic(auto)]

use job::Refusal;
use std::io;

// A row of 4,096 columns, the longest that there is.
const ROW: usize = 4096;

fn main(rt: HostRuntime) -> io::Result<()> {
    let mut read = [0; 47];
    let outcome = build::build_read(0, 0x44, 1, 0, &mut read);
    requested(&rt, "read of ID 0, address 44, one byte", outcome)?;
    answered(&rt, "and one zero more", &read)?;
    answered(&rt, "thirteen zeros before S", &read[1..])?;

    let mut last = [0; 46];
    let outcome = build::build_read(0, 0x7f, 1, 0, &mut last);
    requested(&rt, "read of ID 0, address 7f, one byte", outcome)?;
    answered(&rt, "P is 1", &last)?;

    reads_of_64_bytes(&rt)?;

    let mut write = [0; 46];
    let outcome = build::build_write(0, 0x44, &[0x5b], 0, &mut write);
    requested(&rt, "write of 5b to ID 0, address 44", outcome)?;
    answered(&rt, "echoed", &write)
}

fn reads_of_64_bytes(rt: &impl Print) -> io::Result<()> {
    for (what, address, wait) in [
        ("read of ID 0, address 40, 64 bytes", 0x40, 0),
        ("read of ID 0, address 41, 64 bytes", 0x41, 0),
        (
            "read of ID 0, address 40, 64 bytes, each waiting 49 columns",
            0x40,
            49,
        ),
        ("the same, waiting 50", 0x40, 50),
    ] {
        let outcome = build::build_read(0, address, 64, wait, &mut [0; ROW]);
        requested(rt, what, outcome)?;
    }
    Ok(())
}

// What build returned to a request.
fn requested(rt: &impl Print, what: &str, outcome: Result<usize, Refusal>) -> io::Result<()> {
    print!(rt; "{what}: ")?;
    ended(rt, outcome)
}

// A master row, run over one slave of one bank with all rights, its register 44 holding 5A and the rest 0.
fn answered(rt: &impl Print, what: &str, cdm: &[u8]) -> io::Result<()> {
    println!(rt; "{what}")?;
    let mut registers = [0; 128];
    registers[0x44] = 0x5a;
    let mut room = [0; ROW];
    let cds = &mut room[..cdm.len().min(ROW)];
    let mut counts = [0; 4];
    let outcome = run::run(
        1,
        &[1],
        &[3; 128],
        &[0],
        &mut registers,
        &mut counts,
        cdm,
        cds,
    );
    ended(rt, outcome)?;
    line(rt, "cdm", cdm)?;
    line(rt, "cds", cds)?;
    println!(rt; "register 44 holds {:02x}", registers[0x44])
}

// What a job returned.
fn ended(rt: &impl Print, outcome: Result<usize, Refusal>) -> io::Result<()> {
    match outcome {
        Ok(columns) => println!(rt; "made {columns}"),
        Err(why) => println!(rt; "refused {}", why.reason.number()),
    }
}

// A row's bits, a digit a column.
fn line(rt: &impl Print, name: &str, row: &[u8]) -> io::Result<()> {
    print!(rt; "{name} ")?;
    for bit in row {
        print!(rt; "{bit}")?;
    }
    println!(rt)
}
