// The job build: a master row for one request, fourteen zeros and one frame. Each call returns the number of columns, or it refuses by 10, 5
// or 9 and leaves the lent row as it was.
#![tactic(auto)]

ghost use Rattle.std.specs.Prelude.{◌≡◌, Bool, true, false, List, [], ◌∷◌, ◌++◌, map, ℕ, ◌+◌, ◌*◌, ◌^◌, ◌≤◌, ◌<◌, length, get_or, replicate, All};
ghost use Rattle.std.proofs.lemmas.List.Edits.{sets};
ghost use Rattle.protocol.specs.Bits.{num, bits};
ghost use Rattle.protocol.specs.Division.{header_bits, word};
ghost use Rattle.protocol.specs.Commands.{execute_column};
ghost use Rattle.protocol.specs.Building.{Request, byte_columns, read_bits, write_bits, command_columns};
ghost use Rattle.protocol.specs.Memory.{delay_by};
ghost use Rattle.protocol.specs.Understood.{delayed};
ghost use Rattle.job.specs.Refusals.{first, given};
ghost use Rattle.build.specs.Build.{outside_access, rules, Built};
ghost use Rattle.build.specs.Parts.{way, access_lead, access_row, Accessed, Laid};

use job::{COLUMN_LIMIT, Reason, Refusal};

// The limits of refusal 10 (01, Numbers of refusal).
const LAST_ID: u8 = 7;

const LAST_ADDRESS: u8 = 127;

const LAST_COMMAND: u8 = 3;

const BYTES: usize = 64;

const ADDRESSES: usize = 128;

// "Reading n bytes takes 32 + 14n columns, writing n lent bytes likewise" (01, Building), and S again where a byte waits.
const ACCESS: usize = 32;

const BYTE: usize = 14;

// "a command 30" (01, Building): its header; and behind it its own S and EX, with seven columns between where it is addressed (Request 07).
const COMMAND: usize = 30;

const ADDRESSED: usize = 9;

const BROADCAST: usize = 2;

// R and W as one number: R = 1, W = 0 reads; R = 0, W = 1 writes.
const READS: u64 = 2;

const WRITES: u64 = 1;

// S in front of a header's fifteen bits, in front of a byte's twelve bits and P, and in front of the columns up to EX.
const HEADER_START: u64 = 32768;

const BYTE_START: u64 = 8192;

const ADDRESSED_START: u64 = 256;

const BROADCAST_START: u64 = 2;

// A register access of the slave `id`, from `address` on; `wait` is that slave's waiting number.
#[derive(Clone, Copy)]
struct Access<B> {
    id: u8,
    address: u8,
    wait: u8,
    bytes: B,
}

// The bytes of an access, read or written. A type for each, since one loop over an enum's took reads as long as the plain program.
trait Bytes: Copy {
    ghost written: { Bool };

    // The twelve bits that the master sends in each.
    ghost twelves: { Self → List (List Bool) };

    fn are_written() -> bool
        ensures { result ≡ written };

    // How many they are.
    fn count(self) -> usize
        ensures count { result ≡ length (twelves self) }
        ensures each { All (λ bits. length bits ≡ 12) (twelves self) };

    // S, the twelve bits of byte nth, counted from 0, and P, as one number of fourteen bits.
    fn word(self, nth: usize) -> u64
        requires { nth < length (twelves self) }
        ensures { bits 14 result ≡ true ∷ (get_or (twelves self) nth [] ++ false ∷ []) };
}

// So many to read.
#[derive(Clone, Copy)]
struct Reading(usize);

impl Bytes for Reading {
    ghost written = { false };

    ghost twelves = { λ bytes. replicate bytes.0 read_bits };

    fn are_written() -> bool {
        false
    }

    fn count(self) -> usize {
        self.0
    }

    fn word(self, _nth: usize) -> u64 {
        BYTE_START
    }
}

// These to write.
#[derive(Clone, Copy)]
struct Writing<'a>(&'a [u8]);

impl Bytes for Writing<'_> {
    ghost written = { true };

    ghost twelves = { λ bytes. map write_bits bytes.0.now };

    fn are_written() -> bool
        ensures { result ≡ true }
    {
        true
    }

    fn count(self) -> usize {
        self.0.len()
    }

    fn word(self, nth: usize) -> u64 {
        written(self.0[nth])
    }
}

// Read `count` registers of the slave `id`, from `address` on; `wait` is that slave's waiting number.
pub fn build_read(
    id: u8,
    address: u8,
    count: usize,
    wait: u8,
    out: &mut [u8],
) -> Result<usize, Refusal>
    ensures { Built (Request.read id address count wait) out.old result out.new }
{
    let access = Access {
        id,
        address,
        wait,
        bytes: Reading(count),
    };
    access.build(out)
}

// Write `bytes` to the registers of the slave `id`, from `address` on; `wait` is that slave's waiting number.
pub fn build_write(
    id: u8,
    address: u8,
    bytes: &[u8],
    wait: u8,
    out: &mut [u8],
) -> Result<usize, Refusal>
    ensures { Built (Request.write id address bytes.now wait) out.old result out.new }
{
    let access = Access {
        id,
        address,
        wait,
        bytes: Writing(bytes),
    };
    access.build(out)
}

// Send the command `cmd` to the slaves that `ids` selects, all of them where it is 0, and execute it or not. Its first 30 columns are the
// header alone.
pub fn build_command(ids: u8, cmd: u8, execute: bool, out: &mut [u8]) -> Result<usize, Refusal>
    ensures { Built (Request.command ids cmd execute) out.old result out.new }
{
    if LAST_COMMAND < cmd {
        return Err(Refusal::from(Reason::OutOfRange));
    }
    let columns = COMMAND + behind_header(ids);
    if out.len() < columns {
        return Err(Refusal::from(Reason::NoRoom));
    }
    let start = frame_head(ids as u16 * 4 + cmd as u16);
    Ok(put_bits(out, 0, columns, up_to_execute(ids, start, execute)))
}

impl<B: Bytes> Access<B> {
    // Puts the row and returns its columns, or tells why the access is refused.
    fn build(self, out: &mut [u8]) -> Result<usize, Refusal>
        ensures { Accessed B.written self.id self.address self.wait (B.twelves self.bytes) out.old result out.new }
    {
        self.refused(out.len())?;
        self.put_head(out);
        Ok(self.put_bytes(out))
    }

    // 10, 5 or 9.
    #[tactic(auto, using(std::proofs::lemmas::Bool::Decides::nat_tests, crate::proofs::Requests::inside), unfolding(job::specs::Refusals::first))]
    fn refused(self, room: usize) -> Result<(), Reason>
        ensures { given result ≡ first (rules
            (outside_access self.id self.address (length (B.twelves self.bytes)))
            (length (access_row B.written self.id self.address self.wait (B.twelves self.bytes)))
            room) }
    {
        if self.is_outside() {
            return Err(Reason::OutOfRange);
        }
        let columns = self.columns();
        if COLUMN_LIMIT < columns {
            Err(Reason::TooManyColumns)
        } else if room < columns {
            Err(Reason::NoRoom)
        } else {
            Ok(())
        }
    }

    #[tactic(auto, using(std::proofs::lemmas::Bool::Decides::nat_tests), unfolding(crate::specs::Build::outside_access))]
    fn is_outside(self) -> bool
        ensures { result ≡ outside_access self.id self.address (length (B.twelves self.bytes)) }
    {
        let count = self.bytes.count();
        LAST_ID < self.id
            || LAST_ADDRESS < self.address
            || count == 0
            || BYTES < count
            || ADDRESSES < self.address as usize + count
    }

    // How many columns its row has.
    #[tactic(auto, using(crate::proofs::Requests::few_waits))]
    fn columns(self) -> usize
        requires { (0 < length (B.twelves self.bytes)) × (length (B.twelves self.bytes) ≤ 64) }
        ensures { result ≡ length (access_row B.written self.id self.address self.wait (B.twelves self.bytes)) }
    {
        ACCESS + BYTE * self.bytes.count() + self.wait as usize * self.delayed()
    }

    // How many of its bytes wait: all of a read, and all but the first of a write.
    fn delayed(self) -> usize
        requires { 0 < length (B.twelves self.bytes) }
        ensures { (result ≡ delayed B.written (length (B.twelves self.bytes))) × (result ≤ length (B.twelves self.bytes)) }
    {
        let count = self.bytes.count();
        if B::are_written() { count - 1 } else { count }
    }

    // How often byte nth waits, counted from 0.
    #[tactic(auto, using(std::proofs::lemmas::Bool::Decides::nat_tests), unfolding(protocol::specs::Memory::delay_by))]
    fn delay(self, nth: usize) -> usize
        ensures { (result ≡ delay_by self.wait B.written (nth + 1)) × (result < 256) }
    {
        if B::are_written() && nth == 0 {
            0
        } else {
            self.wait as usize
        }
    }

    // Fourteen zeros, S, the header, R and W.
    fn put_head(self, out: &mut [u8])
        requires { (32 ≤ length out.old) × (self.id < 8) × (self.address < 128) }
        ensures { out.new ≡ sets out.old 0 (map num (access_lead B.written self.id self.address)) }
    {
        let start = frame_head(1024 + self.id as u16 * 128 + self.address as u16);
        put_bits(out, 0, ACCESS, 4 * start + Self::way());
    }

    // R and W as one number.
    fn way() -> u64
        ensures { (result ≡ way B.written) × (result < 4) }
    {
        if B::are_written() { WRITES } else { READS }
    }

    // For each byte S, as often as it waits and once more, its twelve bits, and P; returns the column behind them.
    fn put_bytes(self, out: &mut [u8]) -> usize
        requires { 32 + length (byte_columns B.written self.wait 1 (B.twelves self.bytes)) ≤ length out.old }
        ensures { Laid (byte_columns B.written self.wait 1 (B.twelves self.bytes)) 32 out.old result out.new }
    {
        let mut at = ACCESS;
        for nth in 0..self.bytes.count() {
            at = put_byte(out, at, self.delay(nth), self.bytes.word(nth));
        }
        at
    }
}

// How many columns a command takes behind its header.
#[tactic(auto, using(std::proofs::lemmas::Bool::Decides::nat_tests), unfolding(protocol::specs::Commands::execute_column))]
fn behind_header(ids: u8) -> usize
    ensures { (result ≡ execute_column ids + 1) × (result ≤ 9) }
{
    if ids == 0 { BROADCAST } else { ADDRESSED }
}

// Behind the header S, zeros up to EX, and EX: all of it as one number.
fn up_to_execute(ids: u8, start: u64, execute: bool) -> u64
    requires { start < 2 ^ 16 }
    ensures { bits (30 + (execute_column ids + 1)) result ≡ bits 30 start ++ command_columns ids execute }
{
    if ids == 0 {
        4 * start + BROADCAST_START + u64::from(execute)
    } else {
        512 * start + ADDRESSED_START + u64::from(execute)
    }
}

// S and the header of eleven bits with their check, as one number of sixteen bits.
#[tactic(auto, using(protocol::proofs::Division::check_lt), unfolding(protocol::specs::Division::word))]
fn frame_head(header: u16) -> u64
    requires { header < 2048 }
    ensures { (result ≡ 2 ^ 15 + word header_bits header) × (result < 2 ^ 16) }
{
    HEADER_START + 16 * header as u64 + checkbits::header_check(header) as u64
}

// S so many times, and then a byte's S, twelve bits and P, which are the lowest fourteen bits of w.
fn put_byte(out: &mut [u8], at: usize, delay: usize, w: u64) -> usize
    requires { at + (delay + 14) ≤ length out.old }
    ensures { (result ≡ at + (delay + 14)) × (out.new ≡ sets out.old at (map num (replicate delay true ++ bits 14 w))) }
{
    let p = put_ones(out, at, delay);
    put_bits(out, p, BYTE, w)
}

// S, a byte with its check, and P, as one number of fourteen bits.
fn written(b: u8) -> u64
    ensures { bits 14 result ≡ true ∷ (write_bits b ++ false ∷ []) }
{
    BYTE_START + 32 * b as u64 + 2 * checkbits::byte_check(b) as u64
}

// Puts n ones at `at`, and returns the column behind them.
fn put_ones(out: &mut [u8], at: usize, n: usize) -> usize
    requires { at + n ≤ length out.old }
    ensures { (result ≡ at + n) × (out.new ≡ sets out.old at (map num (replicate n true))) }
{
    let end = at + n;
    out[at..end].fill(1);
    end
}

// Puts the lowest n bits of w at `at`, highest first, a column each, and returns the column behind them.
fn put_bits(out: &mut [u8], at: usize, n: usize, w: u64) -> usize
    requires { (at + n ≤ length out.old) × (n ≤ 64) }
    ensures { (result ≡ at + n) × (out.new ≡ sets out.old at (map num (bits n w))) }
{
    for place in 0..n {
        out[at + place] = ((w >> (n - 1 - place)) % 2) as u8;
    }
    at + n
}
