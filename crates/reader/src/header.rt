// The fifteen columns after S: the locks, answered in nine of them, and the header that the last one completes.
#![tactic(auto, unfolding(protocol::specs::Reader::look, protocol::specs::Reader::seen, protocol::specs::Reader::locked, protocol::specs::Reader::headed, protocol::specs::Header::header, protocol::specs::Bits::bit))]

ghost use Rattle.std.specs.Prelude.{◌≡◌, Bool, true, ◌≤◌};
ghost use Rattle.protocol.specs.Limits.{lock_last};
ghost use Rattle.protocol.specs.Division.{header_bits, fits};
ghost use Rattle.protocol.specs.Header.{header};
ghost use Rattle.protocol.specs.Reader.{seen_at, locked, headed, look};
ghost use Rattle.reader.specs.Code.{locks_of, phase_by, turn_of};

use crate::made::{gives, go};
use crate::{Column, Event, Frame, Locks, Phase, Turn};
use kinds::Kind;
use machine::{ADDRESSES, CHECKS, COMMANDS, CTS, HEADER, IDS, LOCK_FIRST, LOCK_LAST};

// lock: "or 9 if IDL8 is 1 after eight".
const PAST_EIGHT: u8 = IDS as u8 + 1;

pub fn locks(frame: Frame, bits: Column) -> Turn
    ensures { turn_of result ≡ look (phase_by Phase.Locks frame) bits.cdm bits.cds }
{
    let word = checkbits::pushed(frame.word, bits.cdm);
    if frame.column < LOCK_LAST {
        go(Frame {
            phase: Phase::Locks,
            column: frame.column + 1,
            word,
            seen: seen_at(frame.column, frame.seen, bits.cds),
            ..frame
        })
    } else {
        locked(Frame {
            word,
            seen: seen_at(LOCK_LAST, frame.seen, bits.cds),
            ..frame
        })
    }
}

// A column before IDL0's shows no lock.
fn seen_at(column: u64, seen: Locks, cds: bool) -> Locks
    requires { column ≤ lock_last }
    ensures { locks_of result ≡ seen_at column (locks_of seen) cds }
{
    if column < LOCK_FIRST {
        return seen;
    }
    match (seen, cds) {
        (Locks::Ones, false) => Locks::Upto((column - LOCK_FIRST) as u8),
        (Locks::Upto(_), true) => Locks::Mixed,
        _ => seen,
    }
}

// lock: "value = how many of IDL0..7 are 1, or 9 if IDL8 is 1 after eight". lockodd: "any other lock pattern; deaf".
fn locked(frame: Frame) -> Turn
    ensures { turn_of result ≡ locked lock_last frame.word (locks_of frame.seen) }
{
    let lock = match frame.seen {
        Locks::Ones => PAST_EIGHT,
        Locks::Upto(n) => n,
        Locks::Mixed => return gives(Event::plain(Kind::Lockodd, 0), frame.at(Phase::Deaf)),
    };
    gives(
        Event::plain(Kind::Lock, lock),
        Frame {
            phase: Phase::Head,
            column: LOCK_LAST + 1,
            lock,
            ..frame
        },
    )
}

// badhead, command: "last header column".
pub fn head(frame: Frame, cdm: bool) -> Turn
    ensures { (x : Bool) → turn_of result ≡ look (phase_by Phase.Head frame) cdm x }
{
    let word = checkbits::pushed(frame.word, cdm);
    if frame.column < HEADER {
        go(Frame {
            phase: Phase::Head,
            column: frame.column + 1,
            word,
            ..frame
        })
    } else if checkbits::header_fits(word) {
        headed(Frame { word, ..frame })
    } else {
        gives(Event::plain(Kind::Badhead, 0), frame.at(Phase::Deaf))
    }
}

// A header whose check is right.
fn headed(frame: Frame) -> Turn
    requires { fits header_bits frame.word ≡ true }
    ensures { turn_of result ≡ headed (header frame.word) frame.lock }
{
    let v = frame.word / CHECKS;
    if v / CTS % 2 == 1 {
        let id = (v / ADDRESSES % IDS) as u8;
        let address = (v % ADDRESSES) as u8;
        go(Frame {
            phase: Phase::AskR,
            id,
            address,
            ..frame
        })
    } else {
        let ids = (v / COMMANDS % 256) as u8;
        let cmd = (v % COMMANDS) as u8;
        let next = Frame {
            phase: Phase::Acknowledge,
            ids,
            cmd,
            column: 0,
            word: 0,
            fitting: true,
            ..frame
        };
        gives(next.command(Kind::Command, ids), next)
    }
}
