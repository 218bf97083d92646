// Reads small recordings, each kind of entry in at least two of them, and prints their lists: kind, column, start, id, address, bank,
// value. A recording is a built request of 64 columns and one slave's answers to it, with a bit or two of its rows flipped, or a slave
// that waits.
//
//   column  0 .. 13  14  15 .. 23      24 .. 29   30  31  32  33 .. 40  41 .. 44  45
//           zeros    S   header, IDL   header     R   W   S   data      check     P
//   column  30       31 .. 37          38
//           S, IDA0  IDA1 .. IDA7      EX         a command; in a broadcast EX is column 31
#![tactic(auto)]

use job::{ENTRY_BYTES, Refusal};
use std::io;

// The columns of a recording.
const ROW: usize = 64;

// What the master asks, one byte of it.
#[derive(Clone, Copy)]
enum Request {
    // ID, address, and how often S is repeated until the slave answers it.
    Read(u8, u8, u8),
    // ID, address, value.
    Write(u8, u8, u8),
    // IDS, CMD, and whether it is executed.
    Command(u8, u8, bool),
}

// What is asked of a slave with the same right everywhere and a waiting number, and the columns in which a bit of a row is flipped.
#[derive(Clone, Copy)]
struct Recording {
    what: &'static str,
    request: Request,
    right: u8,
    wait: u8,
    flipped_cdm: &'static [usize],
    flipped_cds: &'static [usize],
}

const READ: Recording = Recording {
    what: "a read",
    request: Request::Read(0, 0x44, 0),
    right: 3,
    wait: 0,
    flipped_cdm: &[],
    flipped_cds: &[],
};

const WRITE: Recording = Recording {
    request: Request::Write(0, 0x44, 0x5b),
    ..READ
};

// ID 0 answers in column 30, ID 1 in column 31.
const COMMAND: Recording = Recording {
    request: Request::Command(0x80, 1, true),
    ..READ
};

const RECORDINGS: [Recording; 37] = [
    // Locks and headers.
    READ,
    Recording {
        what: "IDL2 is 1 after IDL1 was 0",
        flipped_cds: &[17],
        ..READ
    },
    Recording {
        what: "IDL5 alone",
        flipped_cds: &[20],
        ..READ
    },
    Recording {
        what: "the header's last check bit",
        flipped_cdm: &[29],
        ..READ
    },
    Recording {
        what: "a bit of its address",
        flipped_cdm: &[20],
        ..READ
    },
    // Commands.
    Recording {
        what: "a broadcast of CMD 2, executed",
        request: Request::Command(0x00, 2, true),
        ..COMMAND
    },
    Recording {
        what: "CMD 1 for ID 0, whose bit is sent first, executed",
        ..COMMAND
    },
    Recording {
        what: "a broadcast of CMD 2, withheld",
        request: Request::Command(0x00, 2, false),
        ..COMMAND
    },
    Recording {
        what: "CMD 1 for ID 0, withheld",
        request: Request::Command(0x80, 1, false),
        ..COMMAND
    },
    Recording {
        what: "ID 0 does not acknowledge, and EX is sent",
        flipped_cds: &[30],
        ..COMMAND
    },
    Recording {
        what: "ID 0 acknowledges in the column of ID 1",
        flipped_cds: &[30, 31],
        ..COMMAND
    },
    Recording {
        what: "an ID that is not locked acknowledges",
        request: Request::Command(0xc0, 3, true),
        flipped_cds: &[31],
        ..COMMAND
    },
    Recording {
        what: "ID 0 does not acknowledge, and EX is withheld",
        request: Request::Command(0x80, 1, false),
        flipped_cds: &[30],
        ..COMMAND
    },
    // Requests.
    Recording {
        what: "R = W = 1 in a read",
        flipped_cdm: &[31],
        ..READ
    },
    Recording {
        what: "R = W = 1 in a write",
        flipped_cdm: &[30],
        ..WRITE
    },
    Recording {
        what: "a read of an ID that nobody holds",
        request: Request::Read(1, 0x44, 0),
        ..READ
    },
    Recording {
        what: "a write to one: answered 0 0 as a refusal is",
        request: Request::Write(3, 0x44, 0x5b),
        ..WRITE
    },
    Recording {
        what: "no right to read",
        right: 2,
        ..READ
    },
    Recording {
        what: "no right to write",
        right: 1,
        ..WRITE
    },
    Recording {
        what: "R not repeated",
        flipped_cds: &[30],
        ..READ
    },
    Recording {
        what: "an ID that is not locked accepts",
        flipped_cds: &[15],
        ..READ
    },
    // Bytes.
    Recording {
        what: "S of a read not confirmed",
        flipped_cds: &[32],
        ..READ
    },
    Recording {
        what: "S of a write not confirmed",
        flipped_cds: &[32],
        ..WRITE
    },
    Recording {
        what: "a data bit of the answer",
        flipped_cds: &[33],
        ..READ
    },
    Recording {
        what: "a check bit of the answer",
        flipped_cds: &[44],
        ..READ
    },
    Recording {
        what: "a write with the right to write alone",
        right: 2,
        ..WRITE
    },
    Recording {
        what: "a write to the last address: P is 1",
        request: Request::Write(0, 0x7f, 0x00),
        ..WRITE
    },
    Recording {
        what: "a data bit of the master",
        flipped_cdm: &[33],
        ..WRITE
    },
    Recording {
        what: "a check bit of the master",
        flipped_cdm: &[44],
        ..WRITE
    },
    Recording {
        what: "a data bit of the echo",
        flipped_cds: &[34],
        ..WRITE
    },
    Recording {
        what: "a check bit of the echo",
        flipped_cds: &[44],
        ..WRITE
    },
    Recording {
        what: "P answered 1",
        flipped_cds: &[45],
        ..READ
    },
    Recording {
        what: "P answered 0 at the last address",
        request: Request::Read(0, 0x7f, 0),
        flipped_cds: &[45],
        ..READ
    },
    // Waits.
    Recording {
        what: "a memory that waits three columns",
        request: Request::Read(0, 0x44, 3),
        wait: 3,
        ..READ
    },
    Recording {
        what: "S repeated once, and given up",
        request: Request::Read(0, 0x44, 1),
        wait: 3,
        ..READ
    },
    Recording {
        what: "S repeated twice too often",
        request: Request::Read(0, 0x44, 5),
        wait: 3,
        ..READ
    },
    Recording {
        what: "the first byte of a write does not wait",
        wait: 3,
        ..WRITE
    },
];

fn main(rt: HostRuntime) -> io::Result<()> {
    for recording in RECORDINGS {
        listed(&rt, recording)?;
    }
    Ok(())
}

fn listed(rt: &impl Print, recording: Recording) -> io::Result<()> {
    println!(rt; "{}", recording.what)?;
    let mut list = [0; ENTRY_BYTES * ROW];
    match recorded(recording, &mut list) {
        Ok(entries) => print_list(rt, &list, entries),
        Err(why) => println!(rt; "refused {}", why.reason.number()),
    }
}

fn recorded(recording: Recording, list: &mut [u8]) -> Result<usize, Refusal> {
    let mut cdm = [0; ROW];
    ask(recording.request, &mut cdm)?;
    flip(&mut cdm, recording.flipped_cdm);
    let mut cds = [0; ROW];
    answer(recording.right, recording.wait, &cdm, &mut cds)?;
    flip(&mut cds, recording.flipped_cds);
    read::read(&cdm, &cds, 0, list)
}

fn ask(request: Request, cdm: &mut [u8]) -> Result<usize, Refusal> {
    match request {
        Request::Read(id, address, wait) => build::build_read(id, address, 1, wait, cdm),
        Request::Write(id, address, value) => build::build_write(id, address, &[value], 0, cdm),
        Request::Command(ids, cmd, execute) => build::build_command(ids, cmd, execute, cdm),
    }
}

// One slave of one bank answers, its register 44 holding 5A and the rest 0.
fn answer(right: u8, wait: u8, cdm: &[u8], cds: &mut [u8]) -> Result<usize, Refusal> {
    let mut registers = [0; 128];
    registers[0x44] = 0x5a;
    let mut counts = [0; 4];
    run::run(
        1,
        &[1],
        &[right; 128],
        &[wait],
        &mut registers,
        &mut counts,
        cdm,
        cds,
    )
}

fn flip(row: &mut [u8], columns: &[usize]) {
    for column in columns {
        if let Some(bit) = row.get_mut(*column) {
            *bit ^= 1;
        }
    }
}

fn print_list(rt: &impl Print, list: &[u8], entries: usize) -> io::Result<()> {
    for bytes in list.chunks_exact(ENTRY_BYTES).take(entries) {
        let e = lists::entry_at(bytes, 0);
        println!(rt;
            "{} {} {} {} {} {} {}",
            e.kind, e.column, e.start, e.id, e.address, e.bank, e.value
        )?;
    }
    Ok(())
}
