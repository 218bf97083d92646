// A command behind its header (Request 07): its S, the answers to it, and its EX, drawn in protocol's specs/Commands.
#![tactic(auto, unfolding(protocol::specs::Reader::look, protocol::specs::Commands::acknowledgement, machine::specs::Commands::stops_at))]

ghost use Rattle.std.specs.Prelude.{◌≡◌, Bool, ◌<◌};
ghost use Rattle.protocol.specs.Limits.{execute_addressed};
ghost use Rattle.protocol.specs.Commands.{acknowledgement};
ghost use Rattle.protocol.specs.Reader.{fits_ida, acknowledged, look};
ghost use Rattle.reader.specs.Code.{phase_by, turn_of};

use crate::made::{gives, go};
use crate::{Column, Frame, Phase, Turn};
use kinds::Kind;
use machine::{ACKNOWLEDGE_FIRST, BROADCAST, EXECUTE_ADDRESSED, execute_column, selected, stops};

// A command's S, the columns that answer it, and of a broadcast S alone.
pub fn acknowledge(frame: Frame, bits: Column) -> Turn
    ensures { turn_of result ≡ look (phase_by Phase.Acknowledge frame) bits.cdm bits.cds }
{
    let column = frame.column % EXECUTE_ADDRESSED;
    if stops(column, bits.cdm) {
        go(frame.at(Phase::Deaf))
    } else {
        acknowledged(Frame { column, ..frame }, bits.cds)
    }
}

// ackodd: the eight answers, in the column of the last, where one of them does not fit the locks and IDS. EX is still read behind it.
fn acknowledged(frame: Frame, cds: bool) -> Turn
    requires { frame.column < execute_addressed }
    ensures { turn_of result ≡ acknowledged frame.column frame.ids frame.cmd frame.lock frame.word frame.fitting cds }
{
    let column = frame.column + 1;
    let word = checkbits::pushed(frame.word, cds);
    let fitting = frame.fitting && fits(frame.column, frame.ids, frame.lock, cds);
    let next = Frame {
        column,
        word,
        fitting,
        ..frame
    };
    if column < execute_column(u64::from(frame.ids)) {
        go(next.at(Phase::Acknowledge))
    } else if fitting {
        go(next.at(Phase::AskEX))
    } else {
        gives(
            frame.command(Kind::Ackodd, (word % 256) as u8),
            next.at(Phase::AskEX),
        )
    }
}

// executed, withheld: EX is 1, is 0. forced: EX is 1 after an `ackodd`.
pub fn ask_ex(frame: Frame, ex: bool) -> Turn
    ensures { (x : Bool) → turn_of result ≡ look (phase_by Phase.AskEX frame) ex x }
{
    let kind = if !ex {
        Kind::Withheld
    } else if frame.fitting {
        Kind::Executed
    } else {
        Kind::Forced
    };
    gives(frame.command(kind, frame.ids), frame.at(Phase::Deaf))
}

// Whether an answer is as it should be; in a broadcast none is judged.
fn fits(column: u64, ids: u8, lock: u8, cds: bool) -> bool
    requires { column < execute_addressed }
    ensures { result ≡ fits_ida column ids lock cds }
{
    let ids = u64::from(ids);
    ids == BROADCAST || cds == due(column, ids, u64::from(lock))
}

// The answer that a column should show: 1 where its ID is named and locked. The first bit of IDS, the highest, is ID 0's.
fn due(column: u64, ids: u64, lock: u64) -> bool
    requires { column < execute_addressed }
    ensures { result ≡ acknowledgement column ids lock }
{
    ACKNOWLEDGE_FIRST <= column
        && column - ACKNOWLEDGE_FIRST < lock
        && selected(ids, column - ACKNOWLEDGE_FIRST)
}
