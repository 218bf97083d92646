// R and W, and what their answers say of the addressed slave.
#![tactic(auto, unfolding(protocol::specs::Reader::look, protocol::specs::Reader::asked))]

ghost use Rattle.std.specs.Prelude.{◌≡◌};
ghost use Rattle.protocol.specs.Reader.{acceptance, silence, odd_answer, look};
ghost use Rattle.reader.specs.Code.{phase_by, turn_of};

use crate::made::{gives, go};
use crate::{Column, Frame, Phase, Turn};
use kinds::Kind;

// R, with its answer, waits for W.
pub fn ask_r(frame: Frame, r: Column) -> Turn
    ensures { turn_of result ≡ look (phase_by Phase.AskR frame) r.cdm r.cds }
{
    go(Frame {
        phase: Phase::AskW,
        r: r.cdm,
        answered: r.cds,
        ..frame
    })
}

// pair: "W's column, R = W".
pub fn ask_w(frame: Frame, w: Column) -> Turn
    ensures { turn_of result ≡ look (phase_by Phase.AskW frame) w.cdm w.cds }
{
    if frame.r == w.cdm {
        gives(frame.access(Kind::Pair, 0), frame.at(Phase::Deaf))
    } else if frame.id < frame.lock {
        accepted(frame, w)
    } else {
        unlocked(frame, w)
    }
}

// A locked ID: R and W repeated, or refused: "R repeated, W inverted".
fn accepted(frame: Frame, w: Column) -> Turn
    ensures { turn_of result ≡ acceptance frame.id frame.address frame.r frame.answered w.cdm w.cds }
{
    if frame.answered != frame.r {
        odd(frame, w)
    } else if w.cds == w.cdm {
        go(Frame {
            phase: Phase::ByteS,
            write: w.cdm,
            nth: 1,
            unconfirmed: false,
            ..frame
        })
    } else {
        gives(
            frame.access(Kind::Refused, u8::from(w.cdm)),
            frame.at(Phase::Deaf),
        )
    }
}

// absent: "answered 0 0, ID not locked".
fn unlocked(frame: Frame, w: Column) -> Turn
    ensures { turn_of result ≡ silence frame.id frame.address frame.answered w.cds }
{
    if frame.answered || w.cds {
        odd(frame, w)
    } else {
        gives(frame.access(Kind::Absent, 0), frame.at(Phase::Deaf))
    }
}

// odd: "2 x answered R + answered W".
fn odd(frame: Frame, w: Column) -> Turn
    ensures { turn_of result ≡ odd_answer frame.id frame.address frame.answered w.cds }
{
    let value = 2 * u8::from(frame.answered) + u8::from(w.cds);
    gives(frame.access(Kind::Odd, value), frame.at(Phase::Deaf))
}
