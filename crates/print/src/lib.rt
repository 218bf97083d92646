// Printing into a lent buffer: bytes, and numbers in decimal. Each function lays its bytes at a place and returns the place behind them.
// They are no methods of a struct that holds both: each would have to say, beside what it lays, that the struct still lends that buffer.
#![tactic(auto)]

ghost use Rattle.std.specs.Prelude.{◌≡◌, ◌∷◌, ◌+◌, ◌≤◌, length};
ghost use Rattle.protocol.specs.Text.{tab, decimal};
ghost use Rattle.print.specs.Laid.{Laid};

// Lays bytes as they are.
pub fn put_bytes(out: &mut [u8], at: usize, bytes: &[u8]) -> usize
    requires { at + length bytes.now ≤ length out.old }
    ensures { Laid bytes.now at out.old result out.new }
{
    for (j, byte) in bytes.iter().enumerate() {
        out[at + j] = *byte;
    }
    at + bytes.len()
}

// Text: "decimal". It calls itself, as `decimal` does: the digits before the last, and then the last.
fn put_decimal(out: &mut [u8], at: usize, n: u64) -> usize
    requires { at + length (decimal n) ≤ length out.old }
    ensures { Laid (decimal n) at out.old result out.new }
{
    if n < 10 {
        out[at] = b'0' + n as u8;
        at + 1
    } else {
        let p = put_decimal(out, at, n / 10);
        out[p] = b'0' + (n % 10) as u8;
        p + 1
    }
}

// A number's field: a TAB, and the number in decimal.
pub fn put_number(out: &mut [u8], at: usize, n: u64) -> usize
    requires { at + 1 + length (decimal n) ≤ length out.old }
    ensures { Laid (tab ∷ decimal n) at out.old result out.new }
{
    out[at] = b'\t';
    put_decimal(out, at + 1, n)
}

// How many digits a number has.
pub fn digit_count(n: u16) -> usize
    ensures { (result ≡ length (decimal n)) × (result ≤ 5) }
{
    n.checked_ilog10().unwrap_or(0) as usize + 1
}
