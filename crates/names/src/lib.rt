// The table of kinds (01, Entries; Request 07): their names, and the fields that they name.
#![tactic(auto)]

ghost use Rattle.std.specs.Prelude.{◌≡◌, ◌+◌, ◌≤◌, length};
ghost use Rattle.print.specs.Laid.{Laid};
ghost use Rattle.names.specs.Names.{name_of, names, names_bank_of};

use kinds::Kind;

// The fields that not every kind names.
#[derive(Clone, Copy)]
pub enum Field {
    Id,
    Address,
    Value,
}

// Registers 0 to 63 are those of a bank.
const BANK: u8 = 64;

// Whether a kind names a field.
pub fn has_field(kind: Kind, field: Field) -> bool
    ensures { result ≡ names kind field }
{
    let row = table(kind);
    match field {
        Field::Id => row.has_id,
        Field::Address => row.has_address,
        Field::Value => row.has_value,
    }
}

// Whether an entry of a kind and an address names its bank (Request 05).
pub fn has_bank(kind: Kind, address: u8) -> bool
    ensures { result ≡ names_bank_of kind address }
{
    address < BANK && has_field(kind, Field::Address)
}

// How long a kind's name is.
pub fn name_length(kind: Kind) -> usize
    ensures { (result ≡ length (name_of kind)) × (result ≤ 8) }
{
    table(kind).name.len()
}

// Lays a kind's name at a place and returns the place behind it, as the public calls of print do.
pub fn put_name(out: &mut [u8], at: usize, kind: Kind) -> usize
    requires { at + length (name_of kind) ≤ length out.old }
    ensures { Laid (name_of kind) at out.old result out.new }
{
    print::put_bytes(out, at, table(kind).name)
}

// What the table tells of a kind: its name, and whether id, address and value are among its fields.
#[derive(Clone, Copy)]
struct InTable {
    name: &'static [u8],
    has_id: bool,
    has_address: bool,
    has_value: bool,
}

// The table.
fn table(kind: Kind) -> InTable
    ensures name { result.name.now ≡ name_of kind }
    ensures id { result.has_id ≡ names kind Field.Id }
    ensures address { result.has_address ≡ names kind Field.Address }
    ensures value { result.has_value ≡ names kind Field.Value }
{
    match kind {
        Kind::Lock => tells(b"lock", false, false, true),
        Kind::Lockodd => tells(b"lockodd", false, false, false),
        Kind::Badhead => tells(b"badhead", false, false, false),
        Kind::Command => tells(b"command", true, false, true),
        Kind::Pair => tells(b"pair", true, true, false),
        Kind::Absent => tells(b"absent", true, true, false),
        Kind::Refused => tells(b"refused", true, true, true),
        Kind::Odd => tells(b"odd", true, true, true),
        Kind::Mute => tells(b"mute", true, true, false),
        Kind::Read => tells(b"read", true, true, true),
        Kind::Written => tells(b"written", true, true, true),
        Kind::Readbad => tells(b"readbad", true, true, true),
        Kind::Writebad => tells(b"writebad", true, true, true),
        Kind::Echo => tells(b"echo", true, true, true),
        Kind::End => tells(b"end", false, false, false),
        Kind::Closed => tells(b"closed", true, true, false),
        Kind::Executed => tells(b"executed", true, false, true),
        Kind::Withheld => tells(b"withheld", true, false, true),
        Kind::Ackodd => tells(b"ackodd", true, false, true),
        Kind::Forced => tells(b"forced", true, false, true),
    }
}

fn tells(name: &'static [u8], has_id: bool, has_address: bool, has_value: bool) -> InTable
    ensures name { result.name.now ≡ name.now }
    ensures id { result.has_id ≡ has_id }
    ensures address { result.has_address ≡ has_address }
    ensures value { result.has_value ≡ has_value }
{
    InTable {
        name,
        has_id,
        has_address,
        has_value,
    }
}
