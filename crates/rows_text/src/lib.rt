// The job carry, for rows: rows to text and text to rows; for a list it is list_text::list_to_text. Each call returns how much it
// made, or why it refuses, and then leaves every lent byte as it was.
#![tactic(auto)]

ghost use Rattle.std.specs.Prelude.{◌≡◌, true, ◌+◌, ◌*◌, ◌≤◌, map, length};
ghost use Rattle.std.proofs.lemmas.List.Edits.{sets};
ghost use Rattle.protocol.specs.Text.{column_line, column_lines};
ghost use Rattle.protocol.specs.Fault.{fault_at};
ghost use Rattle.job.specs.Bytes.{are_bits};
ghost use Rattle.job.specs.Refusals.{first, given};
ghost use Rattle.print.specs.Laid.{Laid};
ghost use Rattle.rows_text.specs.RowsText.{rows_refusals, bad_form, handed, text_room, bit_at, RowsPrinted, RowsTaken};

use cursor::{HEADER, LINE, NAMES};
use job::{COLUMN_LIMIT, Detail, Reason, Refusal};

// Rows to text: refusals 5, 6, 7, 9.
pub fn rows_to_text(cdm: &[u8], cds: &[u8], out: &mut [u8]) -> Result<usize, Refusal>
    ensures { RowsPrinted cdm.now cds.now out.old result out.new }
{
    refusal(cdm, cds, out.len())?;
    let p = print::put_bytes(out, 0, &NAMES);
    Ok(put_columns(out, p, cdm, cds))
}

fn refusal(cdm: &[u8], cds: &[u8], room: usize) -> Result<(), Reason>
    ensures { given result ≡ first (rows_refusals cdm.now cds.now room) }
{
    job::wrong_rows(cdm, cds)?;
    if room < HEADER + LINE * cdm.len() {
        return Err(Reason::NoRoom);
    }
    Ok(())
}

// "One column a line"
fn put_columns(out: &mut [u8], at: usize, cdm: &[u8], cds: &[u8]) -> usize
    requires { (at + 4 * length cdm.now ≤ length out.old) × (length cdm.now ≡ length cds.now) × (are_bits cdm.now ≡ true) × (are_bits cds.now ≡ true) }
    ensures { Laid (column_lines cdm.now cds.now) at out.old result out.new }
{
    let mut p = at;
    for (m, s) in cdm.iter().zip(cds) {
        p = put_column(out, p, *m, *s);
    }
    p
}

fn put_column(out: &mut [u8], at: usize, cdm: u8, cds: u8) -> usize
    requires { (at + 4 ≤ length out.old) × (cdm ≤ 1) × (cds ≤ 1) }
    ensures { Laid (column_line cdm cds) at out.old result out.new }
{
    print::put_bytes(out, at, &[b'0' + cdm, b'\t', b'0' + cds, b'\n'])
}

// Text to rows: refusals 13 to 17, 5, 9.
pub fn text_to_rows(text: &[u8], cdm: &mut [u8], cds: &mut [u8]) -> Result<usize, Refusal>
    ensures { RowsTaken text.now cdm.old cds.old result cdm.new cds.new }
{
    formed(cursor::stop_of(text), text.len())?;
    let (lines, _) = text[HEADER..].as_chunks::<LINE>();
    text_room(lines.len(), cdm.len(), cds.len())?;
    put_rows(lines, cdm, cds);
    Ok(lines.len())
}

// Whether a text that stops at a place and has this end keeps its form; beside why not, its line and the byte in that line.
pub fn formed(stop: usize, end: usize) -> Result<(), Refusal>
    ensures { handed result ≡ bad_form (fault_at stop end) }
{
    match cursor::fault(stop, end) {
        None => Ok(()),
        Some(reason) => Err(Refusal {
            reason,
            beside: Detail::OnLine(cursor::line_at(stop), cursor::byte_at(stop)),
        }),
    }
}

// 5 or 9 by how many columns there are, and the room in each row.
fn text_room(columns: usize, cdm: usize, cds: usize) -> Result<(), Reason>
    ensures { given result ≡ first (text_room columns cdm cds) }
{
    if COLUMN_LIMIT < columns {
        Err(Reason::TooManyColumns)
    } else if cdm < columns || cds < columns {
        Err(Reason::NoRoom)
    } else {
        Ok(())
    }
}

// The digits of column lines, as bits; by their index, since of what an `iter_mut` left a proof knows no element.
fn put_rows(lines: &[[u8; LINE]], cdm: &mut [u8], cds: &mut [u8])
    requires { (length lines.now ≤ length cdm.old) × (length lines.now ≤ length cds.old) }
    ensures cdm { cdm.new ≡ sets cdm.old 0 (map (bit_at 0) lines.now) }
    ensures cds { cds.new ≡ sets cds.old 0 (map (bit_at 2) lines.now) }
{
    for (k, line) in lines.iter().enumerate() {
        cdm[k] = line[0] % 2;
        cds[k] = line[2] % 2;
    }
}
