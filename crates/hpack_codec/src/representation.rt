//! Representations (RFC 7541, section 6), read one at a time.
ghost use Rattle.std.specs.Prelude.{◌≡◌, ◌≤◌, length, vec_capacity, IfOk};
ghost use Rattle.hpack_codec.specs.FieldRepresentation.{indexed, literal_added, literal_alone, literal_at, representation_in, size_update};
ghost use Rattle.hpack_codec.specs.LiteralReads.{IsLiteralField, IsSplitPushed};
ghost use Rattle.hpack_codec.specs.RepresentationReads.{is_late, IsRead};

use crate::dynamic_table::{DynamicTable, MAX_TABLE_SIZE};
use crate::fault::ReadFault;
use crate::fields::{FIELD_OVERHEAD, Fields};
use crate::index_table::put_field_at;
use crate::integer::read_integer;
use crate::literal::{Literal, read_literal};

/// Appends the field whose name is the first `middle` of the bytes, and whose value is the rest. False
/// where the fields would be too long.
fn push_split(bytes: &[u8], middle: usize, fields: &mut Fields) -> bool
    requires { middle ≤ length bytes.now }
    ensures { IsSplitPushed bytes.now middle fields.old fields.new result }
{
    if bytes.len() + FIELD_OVERHEAD > fields.room() {
        return false;
    }
    fields.push(&bytes[..middle], &bytes[middle..]);
    true
}

/// Reads an indexed field (RFC 7541, section 6.1).
fn read_indexed(
    bytes: &[u8],
    table: &DynamicTable,
    scratch: &mut Vec<u8>,
    fields: &mut Fields,
) -> Result<usize, ReadFault>
    requires { 65538 ≤ vec_capacity scratch.old }
    ensures read { IsRead (indexed table.now bytes.now) table.now fields.old fields.new result }
    ensures len { IfOk result (λ n. (1 ≤ n) × (n ≤ length bytes.now)) }
    ensures capacity { 65538 ≤ vec_capacity scratch.new }
{
    let Some((index, len)) = read_integer(bytes, 127) else {
        return Err(ReadFault::Bad);
    };
    scratch.clear();
    let Some(middle) = put_field_at(table, index, scratch) else {
        return Err(ReadFault::Bad);
    };
    if push_split(scratch, middle, fields) {
        Ok(len)
    } else {
        Err(ReadFault::TooLong)
    }
}

/// Reads a literal and appends its field, which it leaves in `scratch`. It tells how long the name
/// is, and how many bytes the literal takes.
fn read_literal_field(
    bytes: &[u8],
    ones: u8,
    table: &DynamicTable,
    scratch: &mut Vec<u8>,
    fields: &mut Fields,
) -> Result<(usize, usize), ReadFault>
    requires { 65538 ≤ vec_capacity scratch.old }
    ensures read { IsLiteralField (literal_at table.now ones bytes.now) fields.old fields.new scratch.new.items result }
    ensures len { IfOk result (λ r. (1 ≤ r.1) × (r.1 ≤ length bytes.now)) }
    ensures capacity { 65538 ≤ vec_capacity scratch.new }
{
    let room = fields.room().saturating_sub(FIELD_OVERHEAD);
    match read_literal(table, ones, bytes, room, scratch) {
        Literal::Whole(middle, len) => {
            if push_split(scratch, middle, fields) {
                Ok((middle, len))
            } else {
                Err(ReadFault::TooLong)
            }
        }
        Literal::Over => Err(ReadFault::TooLong),
        Literal::Bad => Err(ReadFault::Bad),
    }
}

/// Reads a literal that is not added to the table, or never (RFC 7541, sections 6.2.2 and 6.2.3).
fn read_alone(
    bytes: &[u8],
    table: &DynamicTable,
    scratch: &mut Vec<u8>,
    fields: &mut Fields,
) -> Result<usize, ReadFault>
    requires { 65538 ≤ vec_capacity scratch.old }
    ensures read { IsRead (literal_alone table.now bytes.now) table.now fields.old fields.new result }
    ensures len { IfOk result (λ n. (1 ≤ n) × (n ≤ length bytes.now)) }
    ensures capacity { 65538 ≤ vec_capacity scratch.new }
{
    let (_, len) = read_literal_field(bytes, 15, table, scratch, fields)?;
    Ok(len)
}

/// Reads a literal that is added to the table (RFC 7541, section 6.2.1).
fn read_added(
    bytes: &[u8],
    table: &mut DynamicTable,
    scratch: &mut Vec<u8>,
    fields: &mut Fields,
) -> Result<usize, ReadFault>
    requires { 65538 ≤ vec_capacity scratch.old }
    ensures read { IsRead (literal_added table.old bytes.now) table.new fields.old fields.new result }
    ensures len { IfOk result (λ n. (1 ≤ n) × (n ≤ length bytes.now)) }
    ensures capacity { 65538 ≤ vec_capacity scratch.new }
{
    let (middle, len) = read_literal_field(bytes, 63, table, scratch, fields)?;
    let field = scratch.as_slice();
    table.add(&field[..middle], &field[middle..]);
    Ok(len)
}

/// Reads a change of the table's size (RFC 7541, section 6.3), which no field may stand before.
fn read_size(
    bytes: &[u8],
    table: &mut DynamicTable,
    fields: &mut Fields,
) -> Result<usize, ReadFault>
    ensures read { IsRead (size_update table.old (is_late fields.old) bytes.now) table.new fields.old fields.new result }
    ensures len { IfOk result (λ n. (1 ≤ n) × (n ≤ length bytes.now)) }
{
    if !fields.is_empty() {
        return Err(ReadFault::Bad);
    }
    let Some((size, len)) = read_integer(bytes, 31) else {
        return Err(ReadFault::Bad);
    };
    let size = size as usize;
    if size > MAX_TABLE_SIZE {
        return Err(ReadFault::Bad);
    }
    table.resize(size);
    Ok(len)
}

/// Reads the representation at the front: its field becomes the last of the fields, and the table
/// that after it. It tells how many bytes the representation takes.
pub(crate) fn read_representation(
    bytes: &[u8],
    table: &mut DynamicTable,
    scratch: &mut Vec<u8>,
    fields: &mut Fields,
) -> Result<usize, ReadFault>
    requires { 65538 ≤ vec_capacity scratch.old }
    ensures read { IsRead (representation_in table.old (is_late fields.old) bytes.now) table.new fields.old fields.new result }
    ensures len { IfOk result (λ n. (1 ≤ n) × (n ≤ length bytes.now)) }
    ensures capacity { 65538 ≤ vec_capacity scratch.new }
{
    match bytes.first() {
        None => Err(ReadFault::Bad),
        Some(0..32) => read_alone(bytes, table, scratch, fields),
        Some(32..64) => read_size(bytes, table, fields),
        Some(64..128) => read_added(bytes, table, scratch, fields),
        Some(128..) => read_indexed(bytes, table, scratch, fields),
    }
}
