// What the indexing program prints for a text of two rows: their list as text, or the line of a refusal.
#![tactic(auto)]

ghost use Rattle.std.specs.Prelude.{◌+◌, ◌≤◌, length};
ghost use Rattle.protocol.specs.Fault.{fault_at};
ghost use Rattle.job.specs.Refusals.{detail, refusal_of};
ghost use Rattle.print.specs.Laid.{Laid};
ghost use Rattle.report.specs.Report.{fields, values, refused_text, long_report, Shown, Whole, Reported};

use job::{COLUMN_LIMIT, Detail, ENTRY_BYTES, Reason, Refusal};

// Room for any report: for each column a line of at most 36 bytes, and in what is over the header.
pub const REPORT_ROOM: usize = 37 * COLUMN_LIMIT;

// "At most one entry falls in a column".
const LIST_LIMIT: usize = ENTRY_BYTES * COLUMN_LIMIT;

// More than the line of a refusal: the word, its number and two values beside it, of at most twenty digits each, their TABs and LF.
const REFUSAL_LIMIT: usize = 80;

// The list of a text of two rows from an opening column on, or the line of the refusal: 13 to 17, 5, 8.
pub fn report(text: &[u8], opening: usize, out: &mut [u8]) -> Result<usize, Refusal>
    ensures { Reported text.now opening out.old result out.new }
{
    let mut list = [0; LIST_LIMIT];
    match listed(text, opening, &mut list) {
        Ok(n) => list_text::list_to_text(&list[..ENTRY_BYTES * n], out),
        Err(why) => refused(why, out),
    }
}

// The report on a text of more columns than a row may have, by the place where it stops and its end, or that of the piece which it
// stops in: a fault anywhere goes before 5. The lemma is for a body that tells the line and the byte itself.
#[tactic(auto, using(crate::proofs::Lines::fault_told), unfolding(crate::specs::Report::long_report))]
pub fn long_report(stop: usize, end: usize, out: &mut [u8]) -> Result<usize, Refusal>
    ensures { Whole (long_report (fault_at stop end)) out.old result out.new }
{
    match rows_text::formed(stop, end) {
        Ok(()) => refused(Reason::TooManyColumns.into(), out),
        Err(fault) => refused(fault, out),
    }
}

// The list that a text of two rows shows from an opening column on.
fn listed(text: &[u8], opening: usize, list: &mut [u8; LIST_LIMIT]) -> Result<usize, Refusal>
    ensures { Shown text.now opening list.old result list.new }
{
    let mut cdm = [0; COLUMN_LIMIT];
    let mut cds = [0; COLUMN_LIMIT];
    let n = rows_text::text_to_rows(text, &mut cdm, &mut cds)?;
    read::read(&cdm[..n], &cds[..n], opening, list)
}

// The line of a refusal: its number, and what is told beside it.
fn refused(why: Refusal, out: &mut [u8]) -> Result<usize, Refusal>
    ensures { Whole (refused_text (refusal_of why)) out.old result out.new }
{
    let mut line = [0; REFUSAL_LIMIT];
    let tab = print::put_bytes(&mut line, 0, b"refused");
    let told = print::put_number(&mut line, tab, why.reason.number() as u64);
    let feed = put_beside(&mut line, told, why.beside);
    line[feed] = b'\n';
    whole(&line[..feed + 1], out)
}

// What is told beside a number, each value behind its TAB, in a buffer from a place on, as print has it; a value has at most twenty digits.
fn put_beside(out: &mut [u8], at: usize, beside: Detail) -> usize
    requires { at + 42 ≤ length out.old }
    ensures { Laid (fields (values (detail beside))) at out.old result out.new × (result ≤ at + 42) }
{
    match beside {
        Detail::Alone => at,
        Detail::OnLine(line, byte) => {
            let tab = print::put_number(out, at, line as u64);
            print::put_number(out, tab, byte as u64)
        }
        Detail::OfJob(job) => print::put_number(out, at, job as u64),
    }
}

// A text as it is, where there is room for it.
fn whole(text: &[u8], out: &mut [u8]) -> Result<usize, Refusal>
    ensures { Whole text.now out.old result out.new }
{
    if out.len() < text.len() {
        return Err(Reason::NoRoom.into());
    }
    Ok(print::put_bytes(out, 0, text))
}
