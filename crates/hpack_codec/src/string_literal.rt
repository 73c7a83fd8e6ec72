//! String literals (RFC 7541, section 5.2).
ghost use Rattle.std.specs.Prelude.{◌≡◌, ◌+◌, ◌≤◌, length, take, drop, vec_capacity, Some};
ghost use Rattle.hpack_codec.specs.PutTexts.{IsPut, IsPutString};
ghost use Rattle.hpack_codec.specs.StringLiteral.{string_in, text_of};

use crate::huffman::put_text;
use crate::integer::read_integer;
use crate::put::Put;
use base::append_within;

/// Appends bytes as they are, where so many may be.
fn put_plain(bytes: &[u8], room: usize, out: &mut Vec<u8>) -> Put
    requires { length out.old.items + room + 2 ≤ vec_capacity out.old }
    ensures kept { take (length out.old.items) out.new.items ≡ out.old.items }
    ensures capacity { vec_capacity out.old ≤ vec_capacity out.new }
    ensures put { IsPut (Some bytes.now) room (drop (length out.old.items) out.new.items) result }
{
    if room < bytes.len() {
        return Put::Over;
    }
    append_within(out, bytes);
    Put::Whole
}

/// Appends what bytes spell behind a length whose first byte is `first`, where so many may be.
fn put_spelled(first: u8, bytes: &[u8], room: usize, out: &mut Vec<u8>) -> Put
    requires { length out.old.items + room + 2 ≤ vec_capacity out.old }
    ensures kept { take (length out.old.items) out.new.items ≡ out.old.items }
    ensures capacity { vec_capacity out.old ≤ vec_capacity out.new }
    ensures put { IsPut (text_of first bytes.now) room (drop (length out.old.items) out.new.items) result }
{
    if first < 128 {
        put_plain(bytes, room, out)
    } else {
        put_text(bytes, room, out)
    }
}

/// Appends the text of the string at the front, where so many bytes may be, and tells how many bytes
/// the string takes.
pub(crate) fn put_string(bytes: &[u8], room: usize, out: &mut Vec<u8>) -> (Put, usize)
    requires { length out.old.items + room + 2 ≤ vec_capacity out.old }
    ensures kept { take (length out.old.items) out.new.items ≡ out.old.items }
    ensures capacity { vec_capacity out.old ≤ vec_capacity out.new }
    ensures put { IsPutString (string_in bytes.now) room (drop (length out.old.items) out.new.items) result.1 result.0 }
    ensures within { result.1 ≤ length bytes.now }
{
    let Some(first) = bytes.first() else {
        return (Put::Bad, 0);
    };
    let Some((size, len)) = read_integer(bytes, 127) else {
        return (Put::Bad, 0);
    };
    let rest = &bytes[len..];
    let size = size as usize;
    if rest.len() < size {
        return (Put::Bad, 0);
    }
    let put = put_spelled(*first, &rest[..size], room, out);
    (put, len + size)
}
