// The job read: two recorded rows and an opening column in, the list of entries that they show out, each with its bank (Request 05). It
// returns the number of entries, or refuses by 5 to 9 and leaves the lent buffer as it was.
#![tactic(auto)]

ghost use Rattle.std.specs.Prelude.{◌≡◌, ◌+◌, ◌^◌, ◌≤◌, ◌<◌, leb, length};
ghost use Rattle.protocol.specs.Limits.{column_limit};
ghost use Rattle.protocol.specs.Bits.{row_of};
ghost use Rattle.protocol.specs.Banks.{bank_of, learnt};
ghost use Rattle.protocol.specs.Reader.{columns};
ghost use Rattle.job.specs.Refusals.{first, given};
ghost use Rattle.reader.specs.Code.{event_of, state_of, place_of};
ghost use Rattle.read.specs.Read.{rows_refusals, list_of, Listed};
ghost use Rattle.read.specs.Parts.{Rows, place_in, InRow, entry_of, room_of, kept, kept_all, reached, reached_by};

use job::{ENTRY_BYTES, Reason, Refusal};
use kinds::Kind;
use reader::{Event, Reader};

// 000: "The bank selection (BSEL) byte is mapped to slave address 0x40."
const BANK_REGISTER: u8 = 64;

// As many as there are IDs.
const IDS: usize = machine::IDS as usize;

// "255 if none": it is the entry's byte, and protocol has it of every ID at first (`unknown` of its specs/Banks).
const NO_BANK: u8 = 255;

// Where in the row an entry stands: its column, and that of its frame's S.
#[derive(Clone, Copy)]
struct Place {
    column: usize,
    start: usize,
}

// Of each ID the bank that the list has shown so far.
#[derive(Clone, Copy)]
struct Banks {
    known: [u8; IDS],
}

// A reading under way: the reader, the next column, the banks that the list has shown, and how many entries there were.
#[derive(Clone, Copy)]
struct Reading {
    reader: Reader,
    column: usize,
    banks: Banks,
    count: usize,
}

// Two rows and an opening column that 5, 6 and 8 do not refuse.
#[derive(Clone, Copy)]
pub struct Opened<'a> {
    pub cdm: &'a [u8],
    pub cds: &'a [u8],
    pub opening: usize,
    ghost rows: { Rows cdm.now cds.now opening },
}

pub fn read(cdm: &[u8], cds: &[u8], opening: usize, out: &mut [u8]) -> Result<usize, Refusal>
    ensures { Listed cdm.now cds.now opening out.old result out.new }
{
    rows_refusal(cdm, cds, opening)?;
    let rows = Opened { cdm, cds, opening };
    if !rows.has_room(out.len() / ENTRY_BYTES) {
        return Err(Reason::NoRoom.into());
    }
    Ok(rows.scan(0, out))
}

// 5, 6, 7 or 8, by the rows and the opening column.
pub fn rows_refusal(cdm: &[u8], cds: &[u8], opening: usize) -> Result<(), Reason>
    ensures { given result ≡ first (rows_refusals cdm.now cds.now opening) }
{
    job::wrong_rows(cdm, cds)?;
    if cdm.len() < opening {
        return Err(Reason::OpeningBehind);
    }
    Ok(())
}

impl Opened<'_> {
    // Whether there is room for so many entries. No column gives two, so with room for as many as columns are left they are not counted.
    fn has_room(self, room: usize) -> bool
        ensures { result ≡ leb (length (list_of self.entry.opening self.entry.cdm.now self.entry.cds.now)) room }
    {
        self.cdm.len() - self.opening <= room || self.count() <= room
    }

    // How many entries the rows show: a scan with no room.
    pub fn count(self) -> usize
        ensures { result ≡ length (list_of self.entry.opening self.entry.cdm.now self.entry.cds.now) }
    {
        self.scan(0, &mut [])
    }

    // From power-on at the opening column to the end of the rows, behind n entries that stand in the buffer already; returns how many
    // there are then.
    pub fn scan(self, n: usize, out: &mut [u8]) -> usize
        requires { n + length self.cdm.now < 2 ^ 64 }
        ensures { (result ≡ n + length (list_of self.entry.opening self.entry.cdm.now self.entry.cds.now)) × (out.new ≡ kept_all out.old n (list_of self.entry.opening self.entry.cdm.now self.entry.cds.now)) }
    {
        let reading = Reading {
            reader: Reader::new(),
            column: self.opening,
            banks: Banks {
                known: [NO_BANK; IDS],
            },
            count: n,
        };
        scan_on(
            reading,
            &self.cdm[self.opening..],
            &self.cds[self.opening..],
            out,
        )
        .count
    }
}

// A reading goes on over a part of the rows, from any state: it puts the entries while there is room, and counts on past it. The one
// caller of step, which is inlined here. A zip would ask in each column whether the answers end too; they are as many as the master's bits.
fn scan_on(mut reading: Reading, cdm: &[u8], cds: &[u8], out: &mut [u8]) -> Reading
    requires { (length cdm.now ≡ length cds.now) × (reading.column + length cdm.now ≤ column_limit) × (reading.count + length cdm.now < 2 ^ 64) × ((place_of reading.reader reading.column).start ≤ reading.column) }
    ensures { reached_by result out.new ≡ reached (state_of reading.reader) (place_of reading.reader reading.column) reading.banks.known reading.count out.old (columns (row_of cdm.now) (row_of cds.now)) }
{
    for (i, master) in cdm.iter().enumerate() {
        let stepped = reading
            .reader
            .step(reading.column, *master == 1, cds[i] == 1);
        if let Some(event) = stepped.event {
            let place = Place {
                column: reading.column,
                start: reading.reader.start,
            };
            let entry = entry_bytes(place, event, reading.banks.of(event));
            keep(out, reading.count, &entry);
            reading.banks = reading.banks.learnt(event);
            reading.count += 1;
        }
        reading.reader = stepped.next;
        reading.column += 1;
    }
    reading
}

impl Banks {
    // Request 05: `bank`, "named at addresses 0 to 63: the value of that ID's last earlier `written` at the bank register, 255 if none".
    fn of(self, event: Event) -> u8
        ensures { result ≡ bank_of self.known (event_of event) }
    {
        if names::has_bank(event.kind, event.address) {
            self.known
                .get(usize::from(event.id))
                .copied()
                .unwrap_or(NO_BANK)
        } else {
            0
        }
    }

    // .. with this event too, if it is "`written` at the bank register". By value: an index into the reading's own banks keeps all of the
    // reading in memory, and a scan takes half as long again, too long where read_all has to scan twice.
    fn learnt(mut self, event: Event) -> Banks
        ensures { result.known ≡ learnt self.known (event_of event) }
    {
        let id = usize::from(event.id);
        if event.kind == Kind::Written && event.address == BANK_REGISTER && id < IDS {
            self.known[id] = event.value;
        }
        self
    }
}

// The entry after n others, where there is room for it. Byte by byte: a copy of slices asks first whether they overlap, and where it may, C's
// memmove is linked.
fn keep(out: &mut [u8], n: usize, entry: &[u8; ENTRY_BYTES])
    ensures { out.new ≡ kept out.old n entry.now }
{
    if n < out.len() / ENTRY_BYTES {
        let at = ENTRY_BYTES * n;
        for (i, byte) in entry.iter().enumerate() {
            out[at + i] = *byte;
        }
    }
}

// Entries: "kind, column (two bytes, high first), id, address, value"; Request 02: "two bytes for S placed after the column"; Request
// 05: "`bank` after the address".
fn entry_bytes(place: Place, event: Event, bank: u8) -> [u8; ENTRY_BYTES]
    requires { InRow place }
    ensures { result ≡ entry_of (place_in place) (event_of event) bank }
{
    let column = (place.column as u16).to_be_bytes();
    let start = (place.start as u16).to_be_bytes();
    [
        event.kind.number(),
        column[0],
        column[1],
        start[0],
        start[1],
        event.id,
        event.address,
        bank,
        event.value,
    ]
}
