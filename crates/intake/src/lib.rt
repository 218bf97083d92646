// The indexing program as a library: it reads standard input to its end, whatever its length and its pieces, and prints what report
// says of it. A read or a write that fails is told on standard error, and nothing is printed as if it were a report.
#![tactic(auto)]

mod words;

ghost use Rattle.std.specs.Prelude.{IfOk, IfSome, ◌<◌, length, take};
ghost use Rattle.std.specs.Io.KnownBytes.{Consumes, IsAtEnd};
ghost use Rattle.intake.specs.Counted.{IsPrefixLen, Reports};

use argument::Asked;
use report::REPORT_ROOM;
use std::env::{Env, FillError};
use std::io;
use std::io::Read;
use words::{HELP, NoAnswer};

// The longest text of admitted rows is a header of 8 bytes and 4,096 lines of 4; a piece has room for a line more.
const PIECE: usize = 16396;

// Nothing says that an input ends, so the pieces behind the first are counted up to a number that no input reaches.
const PIECES: usize = 1099511627776;

pub fn index(rt: &HostRuntime) {
    if let Err(why) = answer(rt) {
        // Where standard error fails too, there is nowhere left to say so.
        let _ = eprintln!(rt; "{why}");
    }
}

// What the command line asks for.
fn answer(rt: &HostRuntime) -> Result<(), NoAnswer> {
    if has_word(rt, 2) {
        return Err(NoAnswer::Usage);
    }
    let mut word = [0; 4096];
    let asked = match rt.arg(1, &mut word) {
        Ok(n) => argument::asked_by(&word[..n]),
        Err(FillError::NotPresent) => Some(Asked::Column(0)),
        Err(FillError::TooLong) => None,
    };
    match asked {
        Some(Asked::Column(opening)) => list(rt, opening),
        Some(Asked::Help) => rt.print(HELP).map_err(NoAnswer::NotWritten),
        None => Err(NoAnswer::Usage),
    }
}

// Whether the command line has a word of this number, an empty one too; 0 is the program's name.
fn has_word(rt: &impl Env, number: usize) -> bool {
    !matches!(rt.arg(number, &mut [0]), Err(FillError::NotPresent))
}

// Standard input's list from an opening column on.
fn list(rt: &HostRuntime, opening: usize) -> Result<(), NoAnswer> {
    let mut out = [0; REPORT_ROOM];
    let reported = reported(&mut rt.stdin(), opening, &mut out);
    let n = reported.map_err(NoAnswer::NotRead)?.ok_or(NoAnswer::NoEnd)?;
    rt.write_all(&out[..n]).map_err(NoAnswer::NotWritten)
}

// The report on all that an input gives, for which there is always room; none if it does not end. A first piece that is not full is the
// whole text. Behind one that is, the text has more columns than a row may have, and is read piece by piece to its stop. A piece may begin
// anywhere in a line, so all that is known of the pieces before it is how many bytes they have.
fn reported<R: Read>(
    input: &mut R,
    opening: usize,
    out: &mut [u8; REPORT_ROOM],
) -> io::Result<Option<usize>>
    ensures within { IfOk result (λ found. IfSome found (λ n. IsPrefixLen n out.new)) }
    ensures report { IfOk result (λ found. IfSome found (λ n. Reports (R.remaining input.old) opening n out.new)) }
{
    let mut text = [0; PIECE];
    let mut n = fill(input, &mut text)?;
    if n < PIECE {
        return Ok(Some(report::report(&text[..n], opening, out).unwrap()));
    }
    for piece in 0..=PIECES {
        let before = PIECE * piece;
        let stop = cursor::stop_in(&text[..n], before);
        if stop < PIECE {
            return Ok(Some(report::long_report(before + stop, before + n, out).unwrap()));
        }
        n = fill(input, &mut text)?;
    }
    Ok(None)
}

// Reads until the buffer is full, the input ends or a read fails. std has no read for that: `read_exact` does not say how many bytes came,
// and `read_to_end` takes a heap.
fn fill<R: Read>(input: &mut R, buf: &mut [u8]) -> io::Result<usize>
    ensures within { IfOk result (λ n. IsPrefixLen n buf.new) }
    ensures bytes { IfOk result (λ n. Consumes (R.remaining input.old) (R.remaining input.new) (take n buf.new)) }
    ensures end { IfOk result (λ n. n < length buf.new → IsAtEnd (R.remaining input.new)) }
{
    let mut done = 0;
    while done < buf.len() {
        match input.read(&mut buf[done..])? {
            0 => return Ok(done),
            some => done += some,
        }
    }
    Ok(done)
}
