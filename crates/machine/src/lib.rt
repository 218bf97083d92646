// What the code of a slave and of the reader shares: the limits of a frame, each written once, the zeros in a row (01, Columns), and where a
// command's columns lie and whom it names (000, BiSS Commands).
#![tactic(auto)]

ghost use Rattle.std.specs.Prelude.{◌≡◌, ◌&&◌, ◌≤◌, ◌<◌, ltb};
ghost use Rattle.protocol.specs.Limits.{id_count, execute_addressed};
ghost use Rattle.protocol.specs.Commands.{selects, execute_column};
ghost use Rattle.machine.specs.Zeros.{zeros_after};
ghost use Rattle.machine.specs.Commands.{stops_at};

// Rest: "Fourteen CDM zeros in a row end anything, at any place."
pub const REST: u64 = 14;

// Header: "Fifteen columns after S".
pub const HEADER: u64 = 15;

// Header: "CTS = 1 is a register access: ID (3 bits), address (7)": CTS stands above ten bits.
pub const CTS: u64 = 1024;

// Header, Byte: "four check bits": the bits before them are a word's quotient by this.
pub const CHECKS: u64 = 16;

// Locks: "slaves past the eighth have none".
pub const IDS: u64 = 8;

// Locks, the house rule for the place, as `lock_first` in protocol's Limits: the column after S that answers IDL0 ..
pub const LOCK_FIRST: u64 = 1;

// .. and the one that answers IDL8.
pub const LOCK_LAST: u64 = LOCK_FIRST + IDS;

// "A slave has 128 registers", at as many addresses.
pub const ADDRESSES: u64 = 128;

// Byte: "eight data bits, four check bits": the bits after the first.
pub const TOP_BIT: u64 = 11;

// P: "fewer than 64 bytes have passed".
pub const BYTES: u64 = 64;

// 000: "it is possible to trigger 4 different commands".
pub const COMMANDS: u64 = 4;

// Request 07, as `acknowledge_first` in protocol's Limits: the column after a command's S that answers IDA0 ..
pub const ACKNOWLEDGE_FIRST: u64 = 0;

// .. the one that holds EX of an addressed command ..
pub const EXECUTE_ADDRESSED: u64 = ACKNOWLEDGE_FIRST + IDS;

// .. and of a broadcast.
pub const EXECUTE_BROADCAST: u64 = 1;

// "IDS = 0 is a broadcast."
pub const BROADCAST: u64 = 0;

// In a command's columns, that of its S.
pub const COMMAND_S: u64 = 0;

// The zeros in a row after one column more, fourteen at most.
#[tactic(auto, unfolding(crate::specs::Zeros::zeros_after))]
pub fn counted(zeros: u64, master: bool) -> u64
    ensures { result ≡ zeros_after zeros master }
{
    if master { 0 } else { zeros.min(REST - 1) + 1 }
}

// Whether IDS selects an ID: its highest bit is ID 0's. A number that is no ID is never selected.
#[tactic(auto, unfolding(protocol::specs::Commands::selects, protocol::specs::Bits::bit))]
pub fn selected(ids: u64, id: u64) -> bool
    ensures { result ≡ (ltb id id_count && selects ids id) }
{
    id < IDS && (ids >> (IDS - 1 - id)) % 2 == 1
}

// The column after a command's S that holds EX.
#[tactic(auto, unfolding(protocol::specs::Commands::execute_column))]
pub fn execute_column(ids: u64) -> u64
    ensures { (result ≡ execute_column ids) × (0 < result) × (result ≤ execute_addressed) }
{
    if ids == BROADCAST {
        EXECUTE_BROADCAST
    } else {
        EXECUTE_ADDRESSED
    }
}

// A 0 at a command's S ends the frame; behind it the master's bits up to EX are not judged.
#[tactic(auto, unfolding(crate::specs::Commands::stops_at))]
pub fn stops(column: u64, master: bool) -> bool
    ensures { result ≡ stops_at column master }
{
    !master && column == COMMAND_S
}
