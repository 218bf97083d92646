// Where a slave is in a frame, what a column makes of it there, and what it says.
ghost use Rattle.std.specs.Prelude.{◌≡◌, ◌<◌, IfSome};
ghost use Rattle.protocol.specs.Limits.{address_count};
ghost use Rattle.slave.specs.Code.{address_by, said, Meets};

use crate::access::{ask_r, ask_w};
use crate::command::{acknowledge, ask_ex};
use crate::data::{ask_p, byte_s, sends, takes};
use crate::header::{head, locks};
use crate::number::Number;
use crate::{Reply, Seen, passed_on};
use machine::ADDRESSES;

// Where a slave is in a frame, with the numbers of that place. After S the names are those of the column that it waits for.
// In AskW the flag is R; in ByteS and AskP the first one tells a write, and in AskP the second one a byte with the right check; in AskEX it
// tells whether the command concerns the slave. The flags come first, and every number has eight bytes: so a field of one size lies at one
// place in all phases, and a slave that is handed on by value stays in the processor's registers.
#[derive(Clone, Copy)]
pub enum Phase {
    Deaf,
    Locks(Header),
    Head(Header),
    AskR(u64),
    AskW(bool, u64),
    ByteS(bool, Asked),
    Sends(Byte),
    Takes(Byte),
    AskP(bool, bool, Passed),
    Acknowledge(Command),
    AskEX(bool, u64),
}

// A header so far: the number that the slave holds, the column after S, and the bits taken.
#[derive(Clone, Copy)]
pub struct Header {
    pub number: Option<Number>,
    pub column: u64,
    pub word: u64,
}

// A byte whose S is awaited: its address, its place in the access, from 1, and how often its S came and was not confirmed.
#[derive(Clone, Copy)]
pub struct Asked {
    pub address: u64,
    pub nth: u64,
    pub unconfirmed: u64,
}

// A byte that is sent or taken: the bits left behind this one, and the bits to send or those taken.
#[derive(Clone, Copy)]
pub struct Byte {
    pub left: u64,
    pub address: u64,
    pub nth: u64,
    pub word: u64,
}

// A byte that has passed: the next address, and its place in the access.
#[derive(Clone, Copy)]
pub struct Passed {
    pub next: u64,
    pub nth: u64,
}

// A command: the number that the slave holds, its code, whom it goes to, and the column after its S.
#[derive(Clone, Copy)]
pub struct Command {
    pub number: Option<Number>,
    pub ids: u64,
    pub column: u64,
    pub cmd: u64,
}

impl Phase {
    // The address of the register that it looks at, if it looks at one.
    pub fn address(self) -> Option<usize>
        ensures { (result ≡ address_by self) × IfSome result (λ address. address < address_count) }
    {
        let address = match self {
            Phase::AskW(_, address) => address,
            Phase::ByteS(_, asked) => asked.address,
            Phase::Takes(byte) => byte.address,
            Phase::AskP(_, _, passed) => passed.next,
            _ => return None,
        };
        Some((address % ADDRESSES) as usize)
    }

    // A column that is not the fourteenth zero.
    pub fn speak(self, seen: Seen) -> (Phase, Reply)
        ensures { Meets self seen result }
    {
        match self {
            Phase::Deaf => said(Phase::Deaf, seen.far),
            Phase::Locks(header) => locks(header, seen),
            Phase::Head(header) => head(header, seen),
            Phase::AskR(address) => ask_r(address, seen),
            Phase::AskW(r, address) => ask_w(r, address, seen),
            Phase::ByteS(write, asked) => byte_s(write, asked, seen),
            Phase::Sends(byte) => sends(byte, seen),
            Phase::Takes(byte) => takes(byte, seen),
            Phase::AskP(write, good, passed) => ask_p(write, good, passed, seen),
            Phase::Acknowledge(command) => acknowledge(command, seen),
            Phase::AskEX(concerned, cmd) => ask_ex(concerned, cmd, seen),
        }
    }
}

// A next phase and the bit that is sent; no byte is stored, and no command is executed.
pub fn said(next: Phase, sent: bool) -> (Phase, Reply)
    ensures { result ≡ said next sent }
{
    (next, passed_on(sent))
}
