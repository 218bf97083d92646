// Prints the reports on texts with one bad byte of each number, 13 to 17, on nothing at all, and on a text with several bad bytes, of
// which the first decides.
#![tactic(auto)]

use std::io;

fn main(rt: HostRuntime) -> io::Result<()> {
    for (what, text) in [
        ("a blank in the header", "cdm cds\n0\t1\n"),
        ("a digit 2", "cdm\tcds\n0\t1\n1\t2\n"),
        ("a blank for the TAB", "cdm\tcds\n0\t1\n1 0\n"),
        ("a carriage return", "cdm\tcds\n0\t1\r\n1\t0\r\n"),
        ("cut in a line", "cdm\tcds\n0\t1\n1\t"),
        ("cut in the header", "cdm"),
        ("nothing at all", ""),
        ("every byte of a line", "cdm\tcds\n0\t1\nnull"),
    ] {
        print!(rt; "{what}: ")?;
        told(&rt, text.as_bytes())?;
    }
    Ok(())
}

fn told(rt: &impl Print, text: &[u8]) -> io::Result<()> {
    let mut out = [0; 64];
    match report::report(text, 0, &mut out) {
        Ok(n) => rt.write_all(&out[..n]),
        Err(_) => println!(rt; "no room"),
    }
}
