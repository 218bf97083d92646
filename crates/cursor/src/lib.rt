// The line walk: where a text of rows leaves its form, from a place of a lent text on, or of a piece that begins anywhere in its text; and
// what is told of such a place: number, line and byte.
#![tactic(auto)]

ghost use Rattle.std.specs.Prelude.{◌≡◌, map, ◌+◌, ◌%◌, ◌≤◌, ◌<◌, length, drop};
ghost use Rattle.protocol.specs.Text.{exactly, has, lacking, column_form, begins};
ghost use Rattle.protocol.specs.Fault.{line_at, byte_at, form_at, stop, end_number, fault_by, fault_at};
ghost use Rattle.job.specs.Refusals.{number};
ghost use Rattle.cursor.specs.Cursor.{form_of, fault_of};

use job::Reason;

// Text: "header `cdm` TAB `cds` LF, then digit TAB digit LF for each column".
pub const NAMES: [u8; HEADER] = *b"cdm\tcds\n";

const TAB: u8 = b'\t';

const FEED: u8 = b'\n';

pub const HEADER: usize = 8;

pub const LINE: usize = 4;

// What a byte has to be: this one, in the header; in a column's line a digit 0 or 1, its TAB, its LF.
#[derive(Clone, Copy)]
enum Form {
    Exactly(u8),
    Bit,
    Tab,
    Feed,
}

impl Form {
    // The form of the byte at a place of a text.
    fn at(place: usize) -> Self
        ensures { form_of result ≡ form_at place }
    {
        if place < HEADER {
            return Form::Exactly(NAMES[place]);
        }
        match place % LINE {
            1 => Form::Tab,
            3 => Form::Feed,
            _ => Form::Bit,
        }
    }

    fn has(self, byte: u8) -> bool
        ensures { result ≡ has (form_of self) byte }
    {
        match self {
            Form::Exactly(name) => byte == name,
            Form::Bit => matches!(byte, b'0' | b'1'),
            Form::Tab => byte == TAB,
            Form::Feed => byte == FEED,
        }
    }

    // "13 any wrong byte of the header line, below it 14 digit not 0 or 1, 15 tab missing, 16 line feed missing"
    fn lacking(self) -> Reason
        ensures { number result ≡ lacking (form_of self) }
    {
        match self {
            Form::Exactly(_) => Reason::WrongHeader,
            Form::Bit => Reason::WrongDigit,
            Form::Tab => Reason::NoTab,
            Form::Feed => Reason::NoFeed,
        }
    }
}

// Text: "The text is walked by a cursor that holds the lent text and its place."
#[derive(Clone, Copy)]
pub struct Cursor<'a> {
    pub text: &'a [u8],
    pub at: usize,
}

impl<'a> Cursor<'a> {
    // A cursor at the start of a text.
    pub fn new(text: &'a [u8]) -> Self
        ensures { (result.text ≡ text.entry) × (result.at ≡ 0) }
    {
        Cursor { text, at: 0 }
    }

    // The line walk: the cursor moved on to the first byte that has not its form, or to the end.
    pub fn walked(self) -> Self
        ensures { (result.text ≡ self.entry.text) × (result.at ≡ stop self.entry.at (drop self.entry.at self.entry.text.now)) }
    {
        let at = stop_from(self.text, self.at);
        Cursor { at, ..self }
    }

    pub fn place(self) -> usize
        ensures { result ≡ self.entry.at }
    {
        self.at
    }
}

// The stop of a text, for callers that hold no cursor.
pub fn stop_of(text: &[u8]) -> usize
    ensures { result ≡ stop 0 text.now }
{
    Cursor::new(text).walked().place()
}

// The stop of what is left of a text at a place.
fn stop_from(text: &[u8], at: usize) -> usize
    ensures { result ≡ stop at (drop at text.now) }
{
    match text.get(at..) {
        Some(piece) => stop_in(piece, at) + at,
        None => at,
    }
}

// For a text that comes in pieces: how far into a piece its stop is, where so many bytes of the text are before it. Below the header
// the form repeats itself, so the lines before it need not be counted.
pub fn stop_in(piece: &[u8], place: usize) -> usize
    ensures { result + place ≡ stop place piece.now }
{
    if place < HEADER {
        walk(piece, place)
    } else {
        walk(piece, HEADER + place % LINE)
    }
}

// Byte by byte to the start of a column's line, and from there by lines.
fn walk(piece: &[u8], before: usize) -> usize
    requires { before < 12 }
    ensures { result + before ≡ stop before piece.now }
{
    let start = before.max(HEADER).div_ceil(LINE) * LINE;
    let (front, lines) = piece.split_at(piece.len().min(start - before));
    let begun = formed(front, before);
    if begun < front.len() {
        begun
    } else {
        begun + in_lines(lines)
    }
}

// How far bytes that begin with a column's line have their form: by whole lines, and byte by byte a line that is bad or cut short.
fn in_lines(lines: &[u8]) -> usize
    ensures { result + 8 ≡ stop 8 lines.now }
{
    let past = past_lines(lines);
    past + formed(&lines[past..], HEADER)
}

// How many bytes at the front of a piece have their form.
fn formed(piece: &[u8], before: usize) -> usize
    requires { before < 12 }
    ensures { result + before ≡ stop before piece.now }
{
    for (i, byte) in piece.iter().enumerate() {
        if !Form::at(i + before).has(*byte) {
            return i;
        }
    }
    piece.len()
}

// Past all whole lines that have their form.
fn past_lines(bytes: &[u8]) -> usize
    ensures within { result ≤ length bytes.now }
    ensures whole { result % 4 ≡ 0 }
    ensures left { stop (result + 8) (drop result bytes.now) ≡ stop 8 bytes.now }
{
    let (lines, _) = bytes.as_chunks::<LINE>();
    for (i, line) in lines.iter().enumerate() {
        if !is_column(line) {
            return LINE * i;
        }
    }
    LINE * lines.len()
}

// Whether a text begins with these bytes. The second lemma is for a body that looks at the lengths first.
#[tactic(auto, using(crate::proofs::Lines::starts_begins, crate::proofs::Lines::short_begins))]
pub fn begins_with(text: &[u8], line: &[u8]) -> bool
    ensures { result ≡ begins (map exactly line.now) text.now }
{
    text.starts_with(line)
}

// "digit TAB digit LF"
#[tactic(auto, using(crate::proofs::Lines::column_bytes))]
fn is_column(line: &[u8; LINE]) -> bool
    ensures { result ≡ begins column_form line.now }
{
    matches!(line, [b'0' | b'1', TAB, b'0' | b'1', FEED])
}

// The line of a place in a text, from 1 ..
pub fn line_at(place: usize) -> usize
    ensures { result ≡ line_at place }
{
    if HEADER <= place {
        2 + (place - HEADER) / LINE
    } else {
        1
    }
}

// .. and its byte in that line, from 0.
pub fn byte_at(place: usize) -> u8
    ensures { result ≡ byte_at place }
{
    if HEADER <= place {
        ((place - HEADER) % LINE) as u8
    } else {
        place as u8
    }
}

// Why a text that stops at a place and has this end is refused, if it is.
pub fn fault(at: usize, end: usize) -> Option<Reason>
    ensures { fault_of at result ≡ fault_at at end }
{
    if at == end {
        end_fault(at)
    } else {
        Some(Form::at(at).lacking())
    }
}

// "17 text ends inside any line; an empty text is 13"
fn end_fault(place: usize) -> Option<Reason>
    ensures { fault_of place result ≡ fault_by (end_number place) place }
{
    if place == 0 {
        Some(Reason::WrongHeader)
    } else if byte_at(place) == 0 {
        None
    } else {
        Some(Reason::TextCut)
    }
}
