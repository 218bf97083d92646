// R and W: whether the addressed slave accepts.
ghost use Rattle.std.specs.Prelude.{◌≡◌};
ghost use Rattle.protocol.specs.Bits.{num, bit};
ghost use Rattle.slave.specs.Code.{Meets};

use crate::phase::{Asked, Phase, said};
use crate::{Reply, Seen};

// R and W: "The addressed slave repeats R."
pub fn ask_r(address: u64, seen: Seen) -> (Phase, Reply)
    ensures { Meets (Phase.AskR address) seen result }
{
    said(Phase::AskW(seen.master, address), seen.master)
}

// R and W: "It repeats W if R and W differ and its right allows the access at that address; otherwise it inverts W and goes deaf."
pub fn ask_w(r: bool, address: u64, seen: Seen) -> (Phase, Reply)
    ensures { Meets (Phase.AskW r address) seen result }
{
    if r != seen.master && allowed(seen.right, seen.master) {
        let first = Asked {
            address,
            nth: 1,
            unconfirmed: 0,
        };
        said(Phase::ByteS(seen.master, first), seen.master)
    } else {
        said(Phase::Deaf, !seen.master)
    }
}

// "0 none, 1 read, 2 write, 3 both".
pub fn allowed(right: u8, write: bool) -> bool
    ensures { result ≡ bit (num write) right }
{
    if write {
        right / 2 % 2 == 1
    } else {
        right % 2 == 1
    }
}
