// The job run: a chain of 0 to 16 slaves, each of 1 to 8 banks, over a master row. It returns the number of columns, or a refusal,
// 1 to 7, 18, 19 or 21, with every lent byte and count as it was.
#![tactic(auto)]

ghost use Rattle.std.specs.Prelude.{◌≡◌, ℕ, ◌≤◌, ◌<◌, length, get_or, IfSome};
ghost use Rattle.protocol.specs.Limits.{column_limit, slave_limit, address_count, command_count};
ghost use Rattle.protocol.specs.Memory.{place_of, at};
ghost use Rattle.job.specs.Refusals.{first, given};
ghost use Rattle.slave.specs.Code.{option_of};
ghost use Rattle.run.specs.Run.{size_of, sizes, are_counts, refusals, size_refusals, Ran};
ghost use Rattle.run.specs.Parts.{kept, counts_by, shown_in, seen_by, Holds, Passed, Rowed};

use job::{Reason, Refusal};
use slave::{Seen, Slave};

// Refusal 1: "more than 16 slaves".
const SLAVES: usize = 16;

// Request 05: "1 to 8 banks of 64 bytes": the most banks of a slave ..
const BANKS: u8 = 8;

// .. and the bytes of a bank; as many are fixed.
const BANK: usize = 64;

// 000: "The bank selection (BSEL) byte is mapped to slave address 0x40."
const BANK_REGISTER: usize = 64;

// "0 none, 1 read, 2 write, 3 both".
const RIGHTS: u8 = 3;

// Request 07: "four counts per slave": one for each command.
const CODES: usize = 4;

// Runs the chain from power-on, far slave first: `banks` holds its number of banks for each slave, `registers` and `rights` its banks in
// order and then its 64 fixed bytes, `waits` its waiting number; `counts` takes how often it executed each of the four commands, whatever
// stood there; `cdm` is the master row, and `cds` takes the answers.
pub fn run(
    slaves: usize,
    banks: &[u8],
    rights: &[u8],
    waits: &[u8],
    registers: &mut [u8],
    counts: &mut [u32],
    cdm: &[u8],
    cds: &mut [u8],
) -> Result<usize, Refusal>
    ensures { Ran slaves banks.now rights.now waits.now registers.old counts.old cdm.now cds.old result registers.new counts.new cds.new }
{
    refusal(
        slaves,
        banks,
        registers.len(),
        rights,
        waits.len(),
        counts.len(),
        cdm,
        cds.len(),
    )?;
    answer_row(banks, rights, waits, registers, counts, cdm, cds);
    Ok(cdm.len())
}

// 1 to 7, 18, 19 or 21. Its parameters are run's own, but for the lengths, since nothing else of those buffers is judged.
fn refusal(
    slaves: usize,
    banks: &[u8],
    registers: usize,
    rights: &[u8],
    waits: usize,
    counts: usize,
    cdm: &[u8],
    columns: usize,
) -> Result<(), Reason>
    ensures { given result ≡ first (refusals slaves banks.now registers rights.now waits counts cdm.now columns) }
{
    if SLAVES < slaves {
        Err(Reason::TooManySlaves)
    } else if banks.len() != slaves || !are_counts(banks) {
        Err(Reason::WrongBanks)
    } else {
        let bytes = sizes(banks);
        size_refusal(
            slaves, bytes, registers, rights, waits, counts, cdm, columns,
        )
    }
}

// 2 to 7, 18 or 21, of slaves that have so many bytes.
fn size_refusal(
    slaves: usize,
    bytes: usize,
    registers: usize,
    rights: &[u8],
    waits: usize,
    counts: usize,
    cdm: &[u8],
    columns: usize,
) -> Result<(), Reason>
    requires { slaves ≤ slave_limit }
    ensures { given result ≡ first (size_refusals slaves bytes registers rights.now waits counts cdm.now columns) }
{
    if registers != bytes {
        Err(Reason::WrongRegisters)
    } else if rights.len() != bytes {
        Err(Reason::WrongRights)
    } else if !job::none_above(rights, RIGHTS) {
        Err(Reason::RightTooHigh)
    } else if waits != slaves {
        Err(Reason::WrongWaits)
    } else if counts != CODES * slaves {
        Err(Reason::WrongCounts)
    } else {
        job::wrong_row(cdm, columns)
    }
}

// Whether every number of the table is 1 to 8.
fn are_counts(banks: &[u8]) -> bool
    ensures { result ≡ are_counts banks.now }
{
    banks.iter().all(|count| 1 <= *count && *count <= BANKS)
}

// The bytes of all slaves of a table.
fn sizes(banks: &[u8]) -> usize
    requires { length banks.now ≤ slave_limit }
    ensures { result ≡ sizes banks.now }
{
    banks.iter().map(|count| size_of(*count)).sum()
}

// Request 05: "64 x (banks + 1) bytes a slave".
fn size_of(banks: u8) -> usize
    ensures { (result ≡ size_of banks) × (result ≤ size_of 255) }
{
    BANK * (banks as usize + 1)
}

// The chain from power-on, a slave a turn: "the bit enters at the far end as 0 and goes slave by slave to the master" (01, Chain). What
// a slave sends hangs on the slaves before it alone, so each goes over the whole row, and no array of slaves is carried.
fn answer_row(
    banks: &[u8],
    rights: &[u8],
    waits: &[u8],
    registers: &mut [u8],
    counts: &mut [u32],
    cdm: &[u8],
    cds: &mut [u8],
)
    requires { (Holds banks.now registers.old rights.now waits.now counts.old) × (length cds.old ≡ length cdm.now) × (length cdm.now ≤ column_limit) }
    ensures { Rowed banks.now rights.now waits.now registers.old cdm.now registers.new counts.new cds.new }
{
    cds.fill(0);
    let mut at = 0;
    for (i, count) in banks.iter().enumerate() {
        let end = at + size_of(*count);
        let from = CODES * i;
        let to = from + CODES;
        pass_slave(
            *count,
            &rights[at..end],
            waits[i],
            &mut registers[at..end],
            &mut counts[from..to],
            cdm,
            cds,
        );
        at = end;
    }
}

// One slave over the whole row: `cds` holds its far neighbour's bits, and its own afterwards.
fn pass_slave(
    banks: u8,
    rights: &[u8],
    wait: u8,
    registers: &mut [u8],
    counts: &mut [u32],
    cdm: &[u8],
    cds: &mut [u8],
)
    requires { (length registers.old ≡ size_of banks) × (length rights.now ≡ size_of banks) × (length counts.old ≡ command_count) × (length cds.old ≡ length cdm.now) × (length cdm.now ≤ column_limit) }
    ensures { Passed banks rights.now wait registers.old cdm.now cds.old registers.new counts.new cds.new }
{
    counts.fill(0);
    let mut slave = Slave::new();
    // `cds` is written by its index, here as in `keep`: of what an `iter_mut` or a `get_mut` left a proof knows no element.
    for (i, bit) in cdm.iter().enumerate() {
        let master = *bit == 1;
        let far = cds[i] == 1;
        if slave.silent() {
            // First, since an idle column then takes fewer instructions.
            cds[i] = far as u8;
            slave = slave.heard(master);
        } else {
            let place = found(banks, registers, slave.address());
            let (next, reply) = slave.step(sees(master, far, rights, registers, place, wait));
            slave = next;
            cds[i] = reply.sent as u8;
            keep(registers, place, reply.stored);
            count(counts, reply.ran);
        }
    }
}

// The place of the register that a slave looks at, if it looks at one and its address shows one now.
fn found(banks: u8, registers: &[u8], address: Option<usize>) -> Option<usize>
    requires { (length registers.now ≡ size_of banks) × IfSome address (λ a. a < address_count) }
    ensures { option_of result ≡ shown_in banks registers.now address }
{
    shown(banks, registers[BANK * banks as usize], address?)
}

// The place that an address shows in a slave's registers, if it shows one (protocol's specs/Memory).
fn shown(banks: u8, chosen: u8, address: usize) -> Option<usize>
    requires { address < address_count }
    ensures { option_of result ≡ place_of banks chosen address }
{
    if address < BANK {
        (chosen < banks).then_some(BANK * chosen as usize + address)
    } else if address == BANK_REGISTER && banks == 1 {
        None
    } else {
        Some(BANK * banks as usize + (address - BANK))
    }
}

// What a slave sees in a column: the bits, and what lies at a place.
fn sees(
    master: bool,
    far: bool,
    rights: &[u8],
    registers: &[u8],
    place: Option<usize>,
    wait: u8,
) -> Seen
    ensures { result ≡ seen_by master far rights.now registers.now (option_of place) wait }
{
    Seen {
        master,
        far,
        right: held(rights, place),
        byte: held(registers, place),
        wait,
    }
}

// The byte at a place; where there is none it is 0.
fn held(bytes: &[u8], place: Option<usize>) -> u8
    ensures { result ≡ at bytes.now (option_of place) }
{
    match place {
        Some(i) => bytes.get(i).copied().unwrap_or(0),
        None => 0,
    }
}

// A byte that is stored stands at the place from now on; where there is none nothing is stored.
fn keep(registers: &mut [u8], place: Option<usize>, stored: Option<u8>)
    ensures { registers.new ≡ kept registers.old (option_of place) stored }
{
    if let (Some(i), Some(byte)) = (place, stored) {
        if i < registers.len() {
            registers[i] = byte;
        }
    }
}

// One execution more of a command, where one was executed: in a column at most one, so that no count outgrows the columns.
fn count(counts: &mut [u32], ran: Option<usize>)
    requires { (length counts.old ≡ command_count) × ((code : ℕ) → get_or counts.old code 0 < column_limit) }
    ensures { counts.new ≡ counts_by ran counts.old }
{
    if let Some(code) = ran {
        if code < counts.len() {
            counts[code] += 1;
        }
    }
}
