// The check bits of the control line: of a header's eleven bits, from a table, and of a data byte's eight, divided bit by bit; words as
// they are collected, and whether their check is right, a header's four bits at a time.
#![tactic(auto)]

mod table;

ghost use Rattle.std.specs.Prelude.{◌≡◌, ◌<◌};
ghost use Rattle.protocol.specs.Division.{header_bits, data_bits, check_width, polynomial, divide_bit, divide, check, fits};
ghost use Rattle.protocol.specs.Bits.{push};

use table::HEADER_CHECKS;

// The polynomial with its top bit, 10011: taken out of a word it cuts that bit off.
const POLYNOMIAL: u32 = 0x13;

// The remainders of the sixteen words of four bits.
static REMAINDERS: [u64; 16] = [0, 3, 6, 5, 12, 15, 10, 9, 11, 8, 13, 14, 7, 4, 1, 2];

// The four check bits that follow the lowest eleven bits of `word`: CTS and the ten bits behind it.
pub fn header_check(word: u16) -> u8
    ensures { result ≡ check header_bits word }
{
    HEADER_CHECKS[(word % 2048) as usize]
}

// The four check bits that follow a data byte: what remains of its eight bits, sent inverted (docs/CHECK.md works one by hand).
pub fn byte_check(value: u8) -> u8
    ensures { result ≡ check data_bits value }
{
    15 - divided(8, value, 0) as u8
}

// What remains after the lowest `left` bits of a value, highest first. It calls itself, and is no loop, since the check is to be written as
// it is taught: "take one bit and then the rest" (Request 04).
fn divided(left: u8, value: u8, remainder: u32) -> u32
    requires { (left < 9) × (remainder < 16) }
    ensures { (result ≡ divide check_width polynomial left value remainder) × (result < 16) }
{
    if left == 0 {
        remainder
    } else {
        let n = left - 1;
        let bit = (value >> n) % 2 == 1;
        divided(n, value, divided_bit(remainder, bit))
    }
}

// One bit into the remainder: the word one place up, the bit added to its leading bit, and where that is then 1 the polynomial goes into
// it once. The remainder is kept in 32 bits: in eight a long write takes as long as the plain program's.
fn divided_bit(remainder: u32, bit: bool) -> u32
    requires { remainder < 16 }
    ensures { (result ≡ divide_bit check_width polynomial remainder bit) × (result < 16) }
{
    let raised = (2 * remainder + 16 * bit as u32) % 32;
    if raised < 16 {
        raised
    } else {
        raised ^ POLYNOMIAL
    }
}

// What remains with four bits more, the lowest of a number: what remained before them goes into them.
fn four(before: u64, bits: u64) -> u64
    requires { before < 16 }
    ensures { (result ≡ divide check_width polynomial check_width bits before) × (result < 16) }
{
    REMAINDERS[((before ^ bits) % 16) as usize]
}

// Whether the last four bits of a header's fifteen are the check bits of the eleven before them, which are three, four and four.
pub fn header_fits(word: u64) -> bool
    ensures { result ≡ fits header_bits word }
{
    let value = word / 16;
    let high = four(0, value / 256 % 8);
    let middle = four(high, value / 16);
    word % 16 == 15 - four(middle, value)
}

// Whether the last four bits of a byte's twelve are the check bits of the eight before them.
pub fn byte_fits(word: u64) -> bool
    ensures { result ≡ fits data_bits word }
{
    word % 16 == byte_check((word / 16 % 256) as u8) as u64
}

// A word with one bit more, the newest lowest; the last sixteen are kept. It has 64 bits, since the reader's and the slave's words have.
pub fn pushed(word: u64, bit: bool) -> u64
    ensures { (result ≡ push word bit) × (result < 65536) }
{
    word % 32768 * 2 + bit as u64
}
