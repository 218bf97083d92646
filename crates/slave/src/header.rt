// The fifteen columns after S: the locks, and the header that the last one completes.
ghost use Rattle.std.specs.Prelude.{◌≡◌, ◌/◌, ◌%◌, ◌^◌};
ghost use Rattle.protocol.specs.Header.{access, header};
ghost use Rattle.protocol.specs.Slave.{called};
ghost use Rattle.slave.specs.Code.{number_of, phase_of, lock_of, Meets, locked_as};

use crate::number::Number;
use crate::phase::{Command, Header, Phase, said};
use crate::{Reply, Seen};
use machine::{ADDRESSES, CHECKS, COMMAND_S, COMMANDS, CTS, HEADER, IDS, LOCK_FIRST, LOCK_LAST};

// What a lock column makes of it: the number that it holds then, and the bit that it sends.
#[derive(Clone, Copy)]
struct Lock {
    number: Option<Number>,
    sent: bool,
}

// Locks: the header's bits up to IDL8's column.
pub fn locks(header: Header, seen: Seen) -> (Phase, Reply)
    ensures { Meets (Phase.Locks header) seen result }
{
    let lock = locked(header.column, header.number, seen.far);
    let next = Header {
        column: header.column.min(HEADER) + 1,
        word: checkbits::pushed(header.word, seen.master),
        number: lock.number,
    };
    if header.column < LOCK_LAST {
        said(Phase::Locks(next), lock.sent)
    } else {
        said(Phase::Head(next), lock.sent)
    }
}

// Locks: "a slave that holds no number yet and sees 0 takes this number and sends 1; all others pass on what they see. At IDL8 a slave
// without a number sends 1".
fn locked(column: u64, number: Option<Number>, far: bool) -> Lock
    ensures { lock_of result ≡ locked_as column number far }
{
    match number {
        Some(_) => Lock { number, sent: far },
        None if far => Lock { number, sent: true },
        None if column < LOCK_FIRST => Lock {
            number,
            sent: false,
        },
        None if column < LOCK_LAST => {
            let value = column - LOCK_FIRST;
            Lock {
                number: Some(Number { value }),
                sent: true,
            }
        }
        None => Lock { number, sent: true },
    }
}

// The header's columns behind the locks; the last one completes it, and leads where the header calls the slave.
pub fn head(header: Header, seen: Seen) -> (Phase, Reply)
    ensures { Meets (Phase.Head header) seen result }
{
    let word = checkbits::pushed(header.word, seen.master);
    if header.column < HEADER {
        let next = Header {
            column: header.column + 1,
            word,
            number: header.number,
        };
        said(Phase::Head(next), seen.far)
    } else {
        said(called(word, header.number), seen.far)
    }
}

// Where a header leads a slave. "Wrong header check ..: all slaves go deaf until rest"; a command's S is for all of them, a register access
// for the slave of its ID.
fn called(word: u64, number: Option<Number>) -> Phase
    ensures { phase_of result ≡ called (header word) (number_of number) }
{
    let value = word / CHECKS;
    if !checkbits::header_fits(word) {
        Phase::Deaf
    } else if value / CTS % 2 == 1 {
        accessed(value, number)
    } else {
        Phase::Acknowledge(Command {
            column: COMMAND_S,
            ids: value / COMMANDS % 256,
            cmd: value % COMMANDS,
            number,
        })
    }
}

// A register access, to the slave that holds its ID.
fn accessed(value: u64, number: Option<Number>) -> Phase
    ensures { phase_of result ≡ called (access (value / 2 ^ 7 % 2 ^ 3) (value % 2 ^ 7)) (number_of number) }
{
    match number {
        Some(own) if own.value == value / ADDRESSES % IDS => Phase::AskR(value % ADDRESSES),
        _ => Phase::Deaf,
    }
}
