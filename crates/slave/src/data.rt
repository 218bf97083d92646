// A byte of a register access: its S, its twelve bits, its P.
ghost use Rattle.std.specs.Prelude.{◌≡◌, ◌≤◌};
ghost use Rattle.protocol.specs.Division.{data_bits, word};
ghost use Rattle.protocol.specs.Memory.{delay_by};
ghost use Rattle.slave.specs.Code.{confirmed_as, passed_as, Meets, goes_on};

use crate::access::allowed;
use crate::phase::{Asked, Byte, Passed, Phase, said};
use crate::{Reply, Seen};
use machine::{ADDRESSES, BYTES, CHECKS, TOP_BIT};

// A byte's bits are counted down to 0; a count is read below the next power of two.
const COUNTS: u64 = 16;

// Byte: "A 0 at S is answered 0 and ends the access; the slave goes deaf." Request 03: "with S = 1 it answers 0 that many times and then 1".
pub fn byte_s(write: bool, asked: Asked, seen: Seen) -> (Phase, Reply)
    ensures { Meets (Phase.ByteS write asked) seen result }
{
    if !seen.master {
        said(Phase::Deaf, false)
    } else if asked.unconfirmed < delay(write, asked.nth, seen.wait) {
        let again = Asked {
            unconfirmed: asked.unconfirmed + 1,
            ..asked
        };
        said(Phase::ByteS(write, again), false)
    } else if write {
        said(Phase::Takes(confirmed(asked, 0)), true)
    } else {
        said(Phase::Sends(confirmed(asked, checked(seen.byte))), true)
    }
}

// A byte whose S is confirmed, all twelve bits to come.
fn confirmed(asked: Asked, word: u64) -> Byte
    ensures { result ≡ confirmed_as asked word }
{
    Byte {
        address: asked.address,
        nth: asked.nth,
        left: TOP_BIT,
        word,
    }
}

// Request 03: "Every byte of a read waits; in a write the first byte does not, later ones do."
fn delay(write: bool, nth: u64, wait: u8) -> u64
    ensures { (result ≡ delay_by wait write nth) × (result ≤ 255) }
{
    if write && nth == 1 { 0 } else { wait as u64 }
}

// Byte: "Reading: the slave sends data and check; the master's twelve bits are not judged".
pub fn sends(byte: Byte, seen: Seen) -> (Phase, Reply)
    ensures { Meets (Phase.Sends byte) seen result }
{
    let left = byte.left % COUNTS;
    let sent = (byte.word >> left) % 2 == 1;
    if left == 0 {
        said(Phase::AskP(false, true, passed(byte)), sent)
    } else {
        said(
            Phase::Sends(Byte {
                left: left - 1,
                ..byte
            }),
            sent,
        )
    }
}

// Byte: "Writing: the slave echoes all twelve bits, and at the last check bit stores the byte if the check is right."
pub fn takes(byte: Byte, seen: Seen) -> (Phase, Reply)
    ensures { Meets (Phase.Takes byte) seen result }
{
    let left = byte.left % COUNTS;
    let word = checkbits::pushed(byte.word, seen.master);
    if 0 < left {
        let next = Byte {
            left: left - 1,
            word,
            ..byte
        };
        return said(Phase::Takes(next), seen.master);
    }
    let good = checkbits::byte_fits(word);
    let reply = Reply {
        sent: seen.master,
        stored: good.then_some((word / CHECKS % 256) as u8),
        ran: None,
    };
    (Phase::AskP(true, good, passed(byte)), reply)
}

// A byte that has passed, with its next address.
fn passed(byte: Byte) -> Passed
    ensures { result ≡ passed_as byte }
{
    Passed {
        next: (byte.address % ADDRESSES + 1) % ADDRESSES,
        nth: byte.nth,
    }
}

// P: "The slave answers 0 if the next address exists, allows the access, and fewer than 64 bytes have passed; otherwise 1".
pub fn ask_p(write: bool, good: bool, passed: Passed, seen: Seen) -> (Phase, Reply)
    ensures { Meets (Phase.AskP write good passed) seen result }
{
    if goes_on(write, good, passed, seen.right) {
        let next = Asked {
            address: passed.next,
            nth: passed.nth + 1,
            unconfirmed: 0,
        };
        said(Phase::ByteS(write, next), false)
    } else {
        said(Phase::Deaf, true)
    }
}

// House rule: "after a written byte with a wrong check it also answers 1."
fn goes_on(write: bool, good: bool, passed: Passed, right: u8) -> bool
    ensures { result ≡ goes_on write good passed right }
{
    good && passed.next % ADDRESSES != 0 && allowed(right, write) && passed.nth < BYTES
}

// A byte with its check bits behind it.
fn checked(byte: u8) -> u64
    ensures { result ≡ word data_bits byte }
{
    CHECKS * byte as u64 + checkbits::byte_check(byte) as u64
}
