//! Encoding header fields (RFC 7541, section 6), without a dynamic table.
ghost use Rattle.std.specs.Prelude.{◌≡◌, ◌+◌, ◌++◌, ◌<◌, OnOk, OnErr};
ghost use Rattle.std.specs.List.{flat_map};
ghost use Rattle.base.specs.Extends.{Extends};
ghost use Rattle.hpack_codec.specs.PrefixInteger.{integer_bytes};
ghost use Rattle.hpack_codec.specs.StringLiteral.{string_bytes_of};
ghost use Rattle.hpack_codec.specs.EncodedBlock.{encoded_block, encoded_field, encoded_literal, first_bytes, name_string, pairs_of};

use crate::static_table::{field_index, name_index};
use base::{FieldPair, List, NoMemory, cut_back, put_groups};

/// How many groups of seven bits a number of 64 bits has at most.
const MAX_GROUPS: usize = 10;

/// Appends a number behind the bits of a pattern (RFC 7541, section 5.1).
fn put_integer(pattern: u8, ones: u8, n: u64, out: &mut Vec<u8>) -> Result<(), NoMemory>
    requires { pattern + ones < 256 }
    ensures ok { OnOk result (out.new.items ≡ out.old.items ++ integer_bytes pattern ones n) }
    ensures err { OnErr result (Extends out.old.items out.new.items) }
{
    if n < ones as u64 {
        out.push(pattern + n as u8)?;
        return Ok(());
    }
    out.push(pattern + ones)?;
    put_groups(out, n - ones as u64, MAX_GROUPS)
}

/// Appends a string that is not Huffman-coded (RFC 7541, section 5.2).
fn put_string_of(text: &[u8], out: &mut Vec<u8>) -> Result<(), NoMemory>
    ensures ok { OnOk result (out.new.items ≡ out.old.items ++ string_bytes_of text.now) }
    ensures err { OnErr result (Extends out.old.items out.new.items) }
{
    put_integer(0, 127, text.len() as u64, out)?;
    out.extend_from_slice(text)?;
    Ok(())
}

/// Appends a literal that is not added to the table, whose name is that of a static index or, at 0,
/// a string (RFC 7541, section 6.2.2).
fn put_literal(index: usize, name: &[u8], value: &[u8], out: &mut Vec<u8>) -> Result<(), NoMemory>
    ensures ok { OnOk result (out.new.items ≡ out.old.items ++ encoded_literal index (name.now, value.now)) }
    ensures err { OnErr result (Extends out.old.items out.new.items) }
{
    put_integer(0, 15, index as u64, out)?;
    put_name_string(index, name, out)?;
    put_string_of(value, out)
}

/// Appends the name of a literal that has no index.
fn put_name_string(index: usize, name: &[u8], out: &mut Vec<u8>) -> Result<(), NoMemory>
    ensures ok { OnOk result (out.new.items ≡ out.old.items ++ name_string index name.now) }
    ensures err { OnErr result (Extends out.old.items out.new.items) }
{
    if index == 0 {
        put_string_of(name, out)
    } else {
        Ok(())
    }
}

/// Appends a field: the index of the entry that it equals, or a literal.
fn put_field(name: &[u8], value: &[u8], out: &mut Vec<u8>) -> Result<(), NoMemory>
    ensures ok { OnOk result (out.new.items ≡ out.old.items ++ encoded_field (name.now, value.now)) }
    ensures err { OnErr result (Extends out.old.items out.new.items) }
{
    let index = field_index(name, value);
    if index == 0 {
        put_literal(name_index(name), name, value, out)
    } else {
        put_integer(128, 127, index as u64, out)
    }
}

/// Appends the fields in order.
fn put_fields(fields: &[FieldPair], out: &mut Vec<u8>) -> Result<(), NoMemory>
    ensures ok { OnOk result (out.new.items ≡ out.old.items ++ flat_map encoded_field (pairs_of fields.now)) }
    ensures err { OnErr result (Extends out.old.items out.new.items) }
{
    for field in fields {
        put_field(field.name.as_slice(), field.value.as_slice(), out)?;
    }
    Ok(())
}

/// Appends what the first block of a connection begins with: the peer's table gets the size 0, since
/// none is used (RFC 7541, section 6.3).
fn put_beginning(first: bool, out: &mut Vec<u8>) -> Result<(), NoMemory>
    ensures ok { OnOk result (out.new.items ≡ out.old.items ++ first_bytes first) }
    ensures err { OnErr result (Extends out.old.items out.new.items) }
{
    if first {
        out.push(0x20)?;
    }
    Ok(())
}

/// Appends the parts of a block.
fn put_block(first: bool, fields: &[FieldPair], out: &mut Vec<u8>) -> Result<(), NoMemory>
    ensures ok { OnOk result (out.new.items ≡ out.old.items ++ encoded_block first (pairs_of fields.now)) }
    ensures err { OnErr result (Extends out.old.items out.new.items) }
{
    put_beginning(first, out)?;
    put_fields(fields, out)
}

/// Appends the block of the fields, which needs no table: a field that equals an entry of the static
/// table is its index, and others are literals without indexing. The first block of a connection says
/// so. `out` is as before where no memory is found.
pub fn encode(first: bool, fields: &List<FieldPair>, out: &mut Vec<u8>) -> Result<(), NoMemory>
    ensures ok { OnOk result (out.new.items ≡ out.old.items ++ encoded_block first (pairs_of fields.now)) }
    ensures err { OnErr result (out.new.items ≡ out.old.items) }
{
    let len = out.len();
    let done = put_block(first, fields.as_slice(), out);
    cut_back(out, len, done)
}
