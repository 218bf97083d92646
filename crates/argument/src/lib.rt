// What an argument on the command line asks of the indexing program: an opening column, or help.
#![tactic(auto)]

ghost use Rattle.std.specs.Prelude.{◌≡◌, true, ◌+◌, ◌-◌, ◌*◌, ◌≤◌, min};
ghost use Rattle.argument.specs.Argument.{farthest, is_digit, asked_from, is_help, asked_by};

// The first column past the longest row: "A row has 0 to 4,096 columns."
const FARTHEST: usize = 4097;

const HELP: &[u8] = b"--help";

#[derive(Clone, Copy)]
pub enum Asked {
    // The list from this column on.
    Column(usize),
    Help,
}

// None where an argument is neither a number nor help.
pub fn asked_by(argument: &[u8]) -> Option<Asked>
    ensures { result ≡ asked_by argument.now }
{
    if is_help(argument) {
        return Some(Asked::Help);
    }
    if argument.is_empty() {
        return None;
    }
    number(argument)
}

fn is_help(argument: &[u8]) -> bool
    ensures { result ≡ is_help argument.now }
{
    argument == HELP
}

// The number that an argument writes.
#[tactic(auto, using(crate::proofs::Digits::digit_more, crate::proofs::Digits::no_digit, crate::proofs::Digits::no_more))]
fn number(argument: &[u8]) -> Option<Asked>
    ensures { result ≡ asked_from 0 argument.now }
{
    let mut n = 0;
    for byte in argument {
        if !byte.is_ascii_digit() {
            return None;
        }
        n = behind(n, *byte);
    }
    Some(Asked::Column(n))
}

// A digit behind a number that is at most the farthest column, which it stays.
fn behind(n: usize, byte: u8) -> usize
    requires { (n ≤ farthest) × (is_digit byte ≡ true) }
    ensures { result ≡ min (10 * n + (byte - 48)) farthest }
{
    (10 * n + usize::from(byte - b'0')).min(FARTHEST)
}
