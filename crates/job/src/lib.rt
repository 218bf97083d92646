// What the four jobs share: the longest row, why and how a job refuses, and the tests of lent bytes.
#![tactic(auto)]

ghost use Rattle.std.specs.Prelude.{◌≡◌, true, not, ◌∷◌, []};
ghost use Rattle.job.specs.declared.Detail.TheVariants.{Alone};
ghost use Rattle.job.specs.Refusals.{number, when, first, given};
ghost use Rattle.job.specs.Bytes.{none_above, are_bits};
ghost use Rattle.job.specs.Rows.{row_rules, wrong_rows, wrong_row};

// Columns: "A row has 0 to 4,096 columns."
pub const COLUMN_LIMIT: usize = 4096;

// An entry's bytes, as the current layout has them (protocol's specs/Layout): its kind, and then where each other field begins.
pub const COLUMN: usize = 1;

pub const START: usize = COLUMN + 2;

pub const ID: usize = START + 2;

pub const ADDRESS: usize = ID + 1;

pub const BANK: usize = ADDRESS + 1;

pub const VALUE: usize = BANK + 1;

pub const ENTRY_BYTES: usize = VALUE + 1;

// Why a call refuses (01, Numbers of refusal), each by its number in the table.
#[derive(Clone, Copy, PartialEq, Eq)]
pub enum Reason {
    // "more than 16 slaves"
    TooManySlaves = 1,
    WrongRegisters = 2,
    WrongRights = 3,
    // "a right above 3"
    RightTooHigh = 4,
    // "a row of more than 4,096 columns"
    TooManyColumns = 5,
    // "two rows of different length"
    RowsDiffer = 6,
    // "a row byte that is not 0 or 1"
    NotABit = 7,
    // "opening column greater than the length"
    OpeningBehind = 8,
    // "the result needs more room than was lent, and only then"
    NoRoom = 9,
    // "id over 7", and any other number of a request that is outside its range
    OutOfRange = 10,
    NotAList = 12,
    // "any wrong byte of the header line", below it a digit, a TAB and an LF; and "text ends inside any line"
    WrongHeader = 13,
    WrongDigit = 14,
    NoTab = 15,
    NoFeed = 16,
    TextCut = 17,
    // "a table of waits not one per slave"
    WrongWaits = 18,
    // "the table not one number of 1 to 8 per slave"
    WrongBanks = 19,
    // "a stretch outside the rows"
    OutsideRows = 20,
    // "the count table not four counts per slave"
    WrongCounts = 21,
    // "the count buffer not one per job"
    WrongTally = 32,
}

impl Reason {
    pub fn number(self) -> u8
        ensures { result ≡ number self }
    {
        self as u8
    }
}

// What a refusal tells beside its number.
#[derive(Clone, Copy, PartialEq, Eq)]
pub enum Detail {
    // Nothing.
    Alone,
    // A line of a text, counted from 1, and a byte of that line, counted from 0.
    OnLine(usize, u8),
    // A job of a table, counted from 0.
    OfJob(usize),
}

// How a job refuses; no lent byte was changed. A job that does not returns how many columns, bytes or entries it made.
#[derive(Clone, Copy, PartialEq, Eq)]
pub struct Refusal {
    pub reason: Reason,
    pub beside: Detail,
}

impl From<Reason> for Refusal {
    ghost from_gives = { λ reason r. r ≡ record { reason = reason; beside = Alone } };

    fn from(reason: Reason) -> Refusal {
        Refusal {
            reason,
            beside: Detail::Alone,
        }
    }
}

// 5, 6 or 7 for two rows.
pub fn wrong_rows(cdm: &[u8], cds: &[u8]) -> Result<(), Reason>
    ensures { given result ≡ first (wrong_rows cdm.now cds.now) }
{
    wrong_row(cdm, cds.len())?;
    wrong_bytes(cds)
}

// The same for a row, and another of so many columns whose bytes are not judged.
pub fn wrong_row(cdm: &[u8], columns: usize) -> Result<(), Reason>
    ensures { given result ≡ first (wrong_row cdm.now columns) }
{
    wrong_lengths(cdm.len(), columns)?;
    wrong_bytes(cdm)
}

// 5 or 6 by the lengths alone.
fn wrong_lengths(columns: usize, others: usize) -> Result<(), Reason>
    ensures { given result ≡ first (row_rules columns others true) }
{
    if COLUMN_LIMIT < columns || COLUMN_LIMIT < others {
        Err(Reason::TooManyColumns)
    } else if columns != others {
        Err(Reason::RowsDiffer)
    } else {
        Ok(())
    }
}

// 7 by a row's bytes.
fn wrong_bytes(row: &[u8]) -> Result<(), Reason>
    ensures { given result ≡ first (when (not (are_bits row.now)) 7 ∷ []) }
{
    if are_bits(row) {
        Ok(())
    } else {
        Err(Reason::NotABit)
    }
}

// Whether every byte of a row is 0 or 1 (01, refusal 7).
fn are_bits(row: &[u8]) -> bool
    ensures { result ≡ are_bits row.now }
{
    none_above(row, 1)
}

// Whether no byte is higher than `limit`. All are looked at, since a loop that may end early is not vectorised.
pub fn none_above(bytes: &[u8], limit: u8) -> bool
    ensures { result ≡ none_above limit bytes.now }
{
    let mut good = true;
    for byte in bytes {
        good &= *byte <= limit;
    }
    good
}
