//! Literal fields (RFC 7541, section 6.2).
ghost use Rattle.std.specs.Prelude.{◌≡◌, ◌+◌, ◌^◌, ◌<◌, ◌≤◌, [], length, vec_capacity};
ghost use Rattle.hpack_codec.specs.FieldRepresentation.{literal_at, literal_in, name_in};
ghost use Rattle.hpack_codec.specs.StringLiteral.{string_in};
ghost use Rattle.hpack_codec.specs.PutTexts.{IsPutString};
ghost use Rattle.hpack_codec.specs.LiteralReads.{IsLiteral, IsLongLiteral, IsValueRead, TakesBetween};

use crate::dynamic_table::DynamicTable;
use crate::index_table::put_name_at;
use crate::integer::read_integer;
use crate::put::Put;
use crate::string_literal::put_string;

/// What became of a literal that was to be read into `out`.
#[derive(Clone, Copy)]
pub(crate) enum Literal {
    /// The name, of so many bytes, and the value are in `out`, and the literal takes so many bytes.
    Whole(usize, usize),
    /// The name and the value are longer than the room.
    Over,
    /// There is no literal.
    Bad,
}

/// Puts the name of an index, or the string behind the index where it is 0, into `out`, and tells
/// how many bytes the string takes.
fn put_name(
    table: &DynamicTable,
    index: u32,
    rest: &[u8],
    room: usize,
    out: &mut Vec<u8>,
) -> (Put, usize)
    requires empty { out.old.items ≡ [] }
    requires room { room ≤ 65536 }
    requires capacity { 65538 ≤ vec_capacity out.old }
    ensures put { IsPutString (name_in table.now index rest.now) room out.new.items result.1 result.0 }
    ensures within { result.1 ≤ length rest.now }
    ensures capacity { 65538 ≤ vec_capacity out.new }
{
    if index == 0 {
        return put_string(rest, room, out);
    }
    if !put_name_at(table, index, out) {
        return (Put::Bad, 0);
    }
    if out.len() > room {
        (Put::Over, 0)
    } else {
        (Put::Whole, 0)
    }
}

/// What becomes of a literal whose name is longer than the room: it is bad where its value is.
fn read_long(value: &[u8], out: &mut Vec<u8>) -> Literal
    requires { 65538 ≤ vec_capacity out.old }
    ensures literal { IsLongLiteral (string_in value.now) result }
    ensures capacity { 65538 ≤ vec_capacity out.new }
{
    out.clear();
    match put_string(value, 0, out).0 {
        Put::Bad => Literal::Bad,
        _ => Literal::Over,
    }
}

/// Reads the value behind the name, which is in `out`; what stands before the value takes `before`
/// bytes.
fn read_value(value: &[u8], before: usize, room: usize, out: &mut Vec<u8>) -> Literal
    requires name { length out.old.items ≤ room }
    requires room { room ≤ 65536 }
    requires capacity { 65538 ≤ vec_capacity out.old }
    requires before { before + length value.now < 2 ^ 63 }
    ensures literal { IsValueRead (string_in value.now) out.old.items before room out.new.items result }
    ensures len { TakesBetween before (before + length value.now) result }
    ensures capacity { 65538 ≤ vec_capacity out.new }
{
    let middle = out.len();
    match put_string(value, room - middle, out) {
        (Put::Whole, taken) => Literal::Whole(middle, before + taken),
        (Put::Over, _) => Literal::Over,
        (Put::Bad, _) => Literal::Bad,
    }
}

/// Reads a literal behind its index, which takes `len` bytes.
fn read_behind(
    table: &DynamicTable,
    index: u32,
    len: usize,
    rest: &[u8],
    room: usize,
    out: &mut Vec<u8>,
) -> Literal
    requires empty { out.old.items ≡ [] }
    requires room { room ≤ 65536 }
    requires capacity { 65538 ≤ vec_capacity out.old }
    requires len { len + length rest.now < 2 ^ 63 }
    ensures literal { IsLiteral (literal_in table.now index len rest.now) room out.new.items result }
    ensures len { TakesBetween len (len + length rest.now) result }
    ensures capacity { 65538 ≤ vec_capacity out.new }
{
    match put_name(table, index, rest, room, out) {
        (Put::Whole, taken) => read_value(&rest[taken..], len + taken, room, out),
        (Put::Over, taken) => read_long(&rest[taken..], out),
        (Put::Bad, _) => Literal::Bad,
    }
}

/// Reads the literal at the front into `out`, where its name and its value may have so many bytes.
/// `ones` is the prefix of its index with every bit set.
pub(crate) fn read_literal(
    table: &DynamicTable,
    ones: u8,
    bytes: &[u8],
    room: usize,
    out: &mut Vec<u8>,
) -> Literal
    requires room { room ≤ 65536 }
    requires capacity { 65538 ≤ vec_capacity out.old }
    ensures literal { IsLiteral (literal_at table.now ones bytes.now) room out.new.items result }
    ensures len { TakesBetween 1 (length bytes.now) result }
    ensures capacity { 65538 ≤ vec_capacity out.new }
{
    out.clear();
    match read_integer(bytes, ones) {
        Some((index, len)) => read_behind(table, index, len, &bytes[len..], room, out),
        None => Literal::Bad,
    }
}
