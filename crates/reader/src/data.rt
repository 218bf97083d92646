// A byte of a register access: its S, its twelve bits, its P.
#![tactic(auto, unfolding(protocol::specs::Reader::look, protocol::specs::Division::byte_of))]

ghost use Rattle.std.specs.Prelude.{◌≡◌, Bool};
ghost use Rattle.protocol.specs.Division.{byte_of};
ghost use Rattle.protocol.specs.Reader.{read_kind, write_kind, look};
ghost use Rattle.kinds.specs.Kinds.{kind_by};
ghost use Rattle.reader.specs.Code.{phase_by, turn_of};

use crate::made::{gives, go};
use crate::{Column, Frame, Phase, Turn};
use kinds::Kind;
use machine::{ADDRESSES, BYTES, CHECKS, TOP_BIT};

// odd: "P answered 0 at address 127".
const LAST_ADDRESS: u8 = (ADDRESSES - 1) as u8;

// Request 03: "The reader lists `mute` only when the master gives up unconfirmed after a 1, in the column of that 0."
pub fn byte_s(frame: Frame, s: Column) -> Turn
    ensures { turn_of result ≡ look (phase_by Phase.ByteS frame) s.cdm s.cds }
{
    if s.cdm {
        if s.cds {
            let phase = if frame.write {
                Phase::Writes
            } else {
                Phase::Reads
            };
            go(Frame {
                phase,
                left: TOP_BIT,
                word: 0,
                echoed: true,
                ..frame
            })
        } else {
            go(Frame {
                phase: Phase::ByteS,
                unconfirmed: true,
                ..frame
            })
        }
    } else if frame.unconfirmed {
        gives(frame.access(Kind::Mute, 0), frame.at(Phase::Deaf))
    } else {
        go(frame.at(Phase::Deaf))
    }
}

pub fn reads(frame: Frame, cds: bool) -> Turn
    ensures { (m : Bool) → turn_of result ≡ look (phase_by Phase.Reads frame) m cds }
{
    let word = checkbits::pushed(frame.word, cds);
    if frame.left == 0 {
        let event = frame.access(read_kind(word), byte_of(word));
        gives(
            event,
            Frame {
                phase: Phase::AskP,
                write: false,
                ..frame
            },
        )
    } else {
        go(Frame {
            phase: Phase::Reads,
            left: frame.left - 1,
            word,
            ..frame
        })
    }
}

pub fn writes(frame: Frame, bits: Column) -> Turn
    ensures { turn_of result ≡ look (phase_by Phase.Writes frame) bits.cdm bits.cds }
{
    let word = checkbits::pushed(frame.word, bits.cdm);
    let echoed = frame.echoed && bits.cds == bits.cdm;
    if frame.left == 0 {
        let event = frame.access(write_kind(word, echoed), byte_of(word));
        gives(
            event,
            Frame {
                phase: Phase::AskP,
                write: true,
                ..frame
            },
        )
    } else {
        go(Frame {
            phase: Phase::Writes,
            left: frame.left - 1,
            word,
            echoed,
            ..frame
        })
    }
}

// read, readbad: "last check column of a read, CDS check right, wrong".
fn read_kind(word: u64) -> Kind
    ensures { kind_by result ≡ read_kind word }
{
    if checkbits::byte_fits(word) {
        Kind::Read
    } else {
        Kind::Readbad
    }
}

// written, writebad: "CDM check right, wrong". echo: "as 11, but the echo differs in some bit".
fn write_kind(word: u64, echoed: bool) -> Kind
    ensures { kind_by result ≡ write_kind word echoed }
{
    if !checkbits::byte_fits(word) {
        Kind::Writebad
    } else if echoed {
        Kind::Written
    } else {
        Kind::Echo
    }
}

fn byte_of(word: u64) -> u8
    ensures { result ≡ byte_of word }
{
    (word / CHECKS % 256) as u8
}

// closed: "P answered 1". odd: "P answered 0 at address 127 or the 64th byte (value 4)".
pub fn ask_p(frame: Frame, cds: bool) -> Turn
    ensures { (m : Bool) → turn_of result ≡ look (phase_by Phase.AskP frame) m cds }
{
    if cds {
        gives(frame.access(Kind::Closed, 0), frame.at(Phase::Deaf))
    } else if frame.address < LAST_ADDRESS && frame.nth < BYTES {
        go(Frame {
            phase: Phase::ByteS,
            address: frame.address + 1,
            nth: frame.nth + 1,
            unconfirmed: false,
            ..frame
        })
    } else {
        gives(frame.access(Kind::Odd, 4), frame.at(Phase::Deaf))
    }
}
