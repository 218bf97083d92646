// A list's bytes (01, Entries), for every job that takes a list: whether bytes are one, the fields at a place, and the entries.
#![tactic(auto)]

ghost use Rattle.std.specs.Prelude.{◌≡◌, ◌+◌, ◌≤◌, true, length};
ghost use Rattle.protocol.specs.Layout.{current, entry_bytes, field_at, is_list};
ghost use Rattle.lists.specs.Fields.{fields_at, fields_by};

use job::{ADDRESS, BANK, COLUMN, ENTRY_BYTES, ID, Reason, START, VALUE};
use kinds::Kind;

// What stands in the fields of an entry: the kind as its byte is, which `entry_at` gives of any bytes, or as one of the table.
#[derive(Clone, Copy)]
pub struct Fields<K = u8> {
    pub kind: K,
    pub column: u16,
    pub start: u16,
    pub id: u8,
    pub address: u8,
    pub bank: u8,
    pub value: u8,
}

// Whether bytes are a list (01, refusal 12).
pub fn is_list(list: &[u8]) -> bool
    ensures { result ≡ is_list current list.now }
{
    list.len() % ENTRY_BYTES == 0 && list.chunks_exact(ENTRY_BYTES).all(|e| kinds::is_kind(e[0]))
}

// The entry at a place of a list.
pub fn entry_at(list: &[u8], i: usize) -> Fields
    requires { i + entry_bytes current ≤ length list.now }
    ensures { result ≡ fields_at list.now i }
{
    behind(list[i], &list[i..])
}

// What stands behind a kind.
fn behind<K>(kind: K, e: &[u8]) -> Fields<K>
    requires { entry_bytes current ≤ length e.now }
    ensures { result ≡ fields_by kind (field_at current e.now 0) }
{
    Fields {
        kind,
        column: u16::from_be_bytes([e[COLUMN], e[COLUMN + 1]]),
        start: u16::from_be_bytes([e[START], e[START + 1]]),
        id: e[ID],
        address: e[ADDRESS],
        bank: e[BANK],
        value: e[VALUE],
    }
}

// The entries of bytes that are a list, first to last.
#[derive(Clone, Copy)]
pub struct List<'a> {
    bytes: &'a [u8],
    ghost whole: { is_list current bytes.now ≡ true },
}

impl<'a> TryFrom<&'a [u8]> for List<'a> {
    ghost use Rattle.lists.specs.Entries.{IsListOf};

    type Error = Reason;

    ghost try_from_gives = { IsListOf };

    // The lemma is for a body that looks first whether there are any bytes.
    #[tactic(auto, using(crate::proofs::Walk::empty_list), unfolding(job::specs::Refusals::first))]
    fn try_from(bytes: &'a [u8]) -> Result<List<'a>, Reason> {
        if is_list(bytes) {
            Ok(List { bytes })
        } else {
            Err(Reason::NotAList)
        }
    }
}

impl<'a> Iterator for List<'a> {
    ghost use Rattle.std.specs.Iterator.{YieldsFirstBy, item_count};
    ghost use Rattle.lists.specs.Entries.{entries_left, entry_of};

    type Item = Fields<Kind>;

    ghost next_gives = { YieldsFirstBy entry_of entries_left };

    ghost remaining = { item_count entries_left };

    fn next(&mut self) -> Option<Fields<Kind>> {
        let (e, rest) = self.bytes.split_at_checked(ENTRY_BYTES)?;
        let kind = Kind::try_from(e[0]).ok()?;
        self.bytes = rest;
        Some(behind(kind, e))
    }
}
