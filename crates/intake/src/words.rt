// What the indexing program says beside its reports: help on standard output, all else on standard error.
use std::fmt::{Display, Formatter};
use std::io::Write;
use std::{fmt, io};

pub const HELP: &str = "\
index [opening column] < rows
Lists what two recorded rows of BiSS C control bits show, as text.
Standard input: a line `cdm` TAB `cds`, then a line a column: 0 or 1, TAB,
0 or 1; every line ends in LF. At most 4,096 columns, counted from 0.
Standard output: a line of names, then a line an entry: its kind, its column,
the column of its frame's start bit, id, address, bank and value, or `-` for
what it does not name. The bank of an address below 64 is the value of its
ID's last `written` at address 64 in the lines above, 255 if there is none.
Of `command`, `executed`, `withheld` and `forced` the id is CMD and the value
IDS: 128 names ID 0, 64 ID 1, and so on, 0 is for all slaves; of `ackodd` the
value is the eight answers, likewise.
On a refusal only: `refused` TAB its number: 5 more than 4,096 columns,
8 opening column past the rows. Where the text is wrong: 13 a byte of its
first line, 14 a digit not 0 or 1, 15 TAB missing, 16 LF missing, 17 its end
inside a line; then TAB the line, from 1, TAB the byte in that line, from 0.
From an opening column on, entries are listed after the first fourteen
zeros of the master: nothing before them can be told for certain. Fourteen
zeros stand before every start bit: opened at an entry's start less 14, the
list begins with that entry's frame.
bin/index ends with status 0 after a list or this text, with 1 after a
refusal, with 2 where there is no answer: standard error then says why.
";

// Why there is no answer.
#[derive(Clone, Copy)]
pub enum NoAnswer {
    Usage,
    NotRead(io::Error),
    NotWritten(io::Error),
    // Standard input does not end.
    NoEnd,
}

impl Display for NoAnswer {
    fn fmt<W: fmt::Write>(&self, f: &mut Formatter<W>) -> fmt::Result {
        match self {
            NoAnswer::Usage => f.write_str(
                "usage: index [opening column] < rows (index --help says more)",
            ),
            NoAnswer::NotRead(why) => write!(f, "index: standard input: {}", Reason(*why)),
            NoAnswer::NotWritten(why) => write!(f, "index: standard output: {}", Reason(*why)),
            NoAnswer::NoEnd => f.write_str("index: standard input does not end"),
        }
    }
}

// More than an error's text, which has at most 256 bytes, and its number behind it.
const REASON_ROOM: usize = 320;

// An error in the system's words, without the number that follows them.
#[derive(Clone, Copy)]
struct Reason(io::Error);

impl Display for Reason {
    fn fmt<W: fmt::Write>(&self, f: &mut Formatter<W>) -> fmt::Result {
        let mut text = [0; REASON_ROOM];
        let mut left = &mut text[..];
        let _ = write!(left, "{}", self.0);
        let n = REASON_ROOM.saturating_sub(left.len());
        let told = str::from_utf8(&text[..n]).unwrap_or("");
        f.write_str(
            told.split_once(" (os error ")
                .map_or(told, |(words, _)| words),
        )
    }
}
