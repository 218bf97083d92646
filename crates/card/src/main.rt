// Prints the check bits of the bench card (paper 01), as the library works them out: its five bytes and seven headers. Then the last
// byte's division, step by step, as docs/CHECK.md has it.
#![tactic(auto)]

use std::io;

fn main(rt: HostRuntime) -> io::Result<()> {
    for value in [0x00, 0x01, 0x80, 0xff, 0x5a] {
        let check = checkbits::byte_check(value);
        println!(rt; "byte {value:02x}: {check:x}")?;
    }
    for (id, address) in [(0, 0x00), (0, 0x44), (1, 0x41), (0, 0x7c), (7, 0x7f)] {
        let check = access_check(id, address);
        println!(rt; "ID {id:x} address {address:02x}: {check:x}")?;
    }
    for command in [2, 0] {
        let check = checkbits::header_check(command);
        println!(rt; "broadcast CMD {command:x}: {check:x}")?;
    }
    division(&rt, 0x5a)
}

// The check bits of an access's header.
fn access_check(id: u8, address: u8) -> u8 {
    checkbits::header_check(1024 + 128 * u16::from(id) + u16::from(address))
}

// A byte divided: its bits one after the other, highest first, and what then remains, inverted.
fn division(rt: &impl Print, value: u8) -> io::Result<()> {
    println!(rt; "start value    {:04b}", remainder(0))?;
    for place in (0u8..8).rev() {
        step(rt, value >> place)?;
    }
    println!(rt; "remainder      {:04b}", remainder(value))?;
    println!(rt; "inverted       {:04b}", checkbits::byte_check(value))
}

// The newest of the bits so far goes into what remained before it; the polynomial goes in where the leading bit is then 1.
fn step(rt: &impl Print, bits: u8) -> io::Result<()> {
    let newest = bits % 2;
    let raised = (remainder(bits / 2) % 16 * 2) ^ (newest * 16);
    let what = if raised < 16 {
        "stays     "
    } else {
        "less 10011"
    };
    let after = remainder(bits);
    println!(rt; "bit           {newest}")?;
    println!(rt; "raised        {raised:05b}")?;
    println!(rt; "{what}     {after:04b}")
}

// What remains of a byte's bits, which is their check turned back: also of its first bits alone, since zeros in front leave 0.
fn remainder(bits: u8) -> u8 {
    checkbits::byte_check(bits) ^ 15
}
