// A list to text (01, Text): the header, "then one entry a line, decimal, the kind by name, `-` for a field the kind doesn't name". It
// returns the number of bytes, or refuses with 12 or 9 and leaves the lent buffer as it was.
#![tactic(auto)]

ghost use Rattle.std.specs.Prelude.{◌≡◌, ◌+◌, ◌-◌, ◌≤◌, ◌<◌, None, map, length, get_or, SomeIff};
ghost use Rattle.protocol.specs.Layout.{numbers};
ghost use Rattle.protocol.specs.Text.{entry_line, entry_lines, list_text};
ghost use Rattle.lists.specs.Entries.{entries_left, entry_of};
ghost use Rattle.print.specs.Laid.{Laid};
ghost use Rattle.list_text.specs.Lists.{cell, number_in, ListPrinted};

use job::{Reason, Refusal};
use kinds::Kind;
use lists::{Fields, List};
use names::Field;

// "header `event` TAB `column` ..": the line of names.
const HEADER: &[u8] = b"event\tcolumn\tstart\tid\taddress\tbank\tvalue\n";

// How many fields stand behind an entry's kind.
const FIELDS: usize = 6;

// List to text: refusals 12, 9.
pub fn list_to_text(list: &[u8], out: &mut [u8]) -> Result<usize, Refusal>
    ensures { ListPrinted list.now out.old result out.new }
{
    let list = List::try_from(list)?;
    room_left(list, out.len()).ok_or(Reason::NoRoom)?;
    let p = print::put_bytes(out, 0, HEADER);
    Ok(put_lines(out, p, list))
}

// Over lines and fields one function counts and one lays, here and below: a trait of both would be longer than they are.
// The room that a list's text leaves, or none where it needs more. It is counted down, for no sum of lengths can wrap then.
fn room_left(list: List, room: usize) -> Option<usize>
    ensures { SomeIff result (length (list_text (entries_left list.entry)) ≤ room) (room - length (list_text (entries_left list.entry))) }
{
    let mut left = room.checked_sub(HEADER.len())?;
    for e in list {
        left = left.checked_sub(line_length(e))?;
    }
    Some(left)
}

// "one entry a line". This and what it calls take a buffer and a place and return the place behind, as the public calls of print do.
fn put_lines(out: &mut [u8], at: usize, list: List) -> usize
    requires { at + length (entry_lines (entries_left list)) ≤ length out.old }
    ensures { Laid (entry_lines (entries_left list.entry)) at out.old result out.new }
{
    let mut p = at;
    for e in list {
        p = put_line(out, p, e);
    }
    p
}

// Lays an entry's line and returns the place behind it.
fn put_line(out: &mut [u8], at: usize, e: Fields<Kind>) -> usize
    requires { at + length (entry_line (entry_of e)) ≤ length out.old }
    ensures { Laid (entry_line (entry_of e)) at out.old result out.new }
{
    let mut p = names::put_name(out, at, e.kind);
    for i in 0..FIELDS {
        p = put_field(out, p, number(e, i));
    }
    out[p] = b'\n';
    p + 1
}

// How long an entry's line is.
fn line_length(e: Fields<Kind>) -> usize
    ensures { result ≡ length (entry_line (entry_of e)) }
{
    let mut n = names::name_length(e.kind);
    for i in 0..FIELDS {
        n += field_length(number(e, i));
    }
    n + 1
}

// The fields behind an entry's kind, in their order: the number of the i-th, if the kind names it. One at a time: an array of all of them
// is laid out before the first is asked for.
fn number(e: Fields<Kind>, i: usize) -> Option<u16>
    requires { i < length numbers }
    ensures { result ≡ get_or (map (number_in (entry_of e)) numbers) i None }
{
    match i {
        0 => Some(e.column),
        1 => Some(e.start),
        2 => names::has_field(e.kind, Field::Id).then_some(u16::from(e.id)),
        3 => names::has_field(e.kind, Field::Address).then_some(u16::from(e.address)),
        4 => names::has_bank(e.kind, e.address).then_some(u16::from(e.bank)),
        _ => names::has_field(e.kind, Field::Value).then_some(u16::from(e.value)),
    }
}

// A TAB, and the field in decimal or `-`. The number by `as`: behind a call of `from` the compiler knows no bound of it.
fn put_field(out: &mut [u8], at: usize, number: Option<u16>) -> usize
    requires { at + length (cell number) ≤ length out.old }
    ensures { Laid (cell number) at out.old result out.new }
{
    match number {
        Some(n) => print::put_number(out, at, n as u64),
        None => print::put_bytes(out, at, b"\t-"),
    }
}

// The length of what put_field lays; two arms, like those: a trait of what lays and what counts would be longer than both.
fn field_length(number: Option<u16>) -> usize
    ensures { (result ≡ length (cell number)) × (result ≤ 6) }
{
    match number {
        Some(n) => 1 + print::digit_count(n),
        None => 2,
    }
}
