//! The fields of indexes, over the static and the dynamic table (RFC 7541, section 2.3.3).
ghost use Rattle.std.specs.Prelude.{◌≡◌, ◌+◌, ◌≤◌, length, vec_capacity};
ghost use Rattle.hpack_codec.specs.DynamicTable.{field_at};
ghost use Rattle.hpack_codec.specs.TablePuts.{IsFieldPut, IsTableRow, IsNamePut};

use crate::dynamic_table::DynamicTable;
use crate::static_table::{STATIC_FIELDS, static_field};
use base::append_within;

/// Where the field of an index stands, counted from 0 in its table.
#[derive(Clone, Copy)]
enum TableRow {
    /// So many fields stand before it in the static table.
    Static(usize),
    /// So many newer fields stand before it in the dynamic table.
    Dynamic(usize),
}

/// Where the field of an index stands, if there is one.
fn row_of(table: &DynamicTable, index: u32) -> Option<TableRow>
    ensures { IsTableRow (field_at table.now index) table.now result }
{
    let Some(i) = (index as usize).checked_sub(1) else {
        return None;
    };
    if i < STATIC_FIELDS {
        return Some(TableRow::Static(i));
    }
    let newer = i - STATIC_FIELDS;
    if newer < table.len() {
        Some(TableRow::Dynamic(newer))
    } else {
        None
    }
}

/// Appends the name of an index, for which there is room. False where there is no such field.
pub(crate) fn put_name_at(table: &DynamicTable, index: u32, out: &mut Vec<u8>) -> bool
    requires { length out.old.items + 4096 ≤ vec_capacity out.old }
    ensures put { IsNamePut (field_at table.now index) out.old.items out.new.items result }
    ensures capacity { vec_capacity out.old ≤ vec_capacity out.new }
{
    match row_of(table, index) {
        Some(TableRow::Static(i)) => {
            append_within(out, static_field(i).0);
            true
        }
        Some(TableRow::Dynamic(i)) => {
            table.put_name(i, out);
            true
        }
        None => false,
    }
}

/// Appends the name and the value of an index, for which there is room, and tells how long the name
/// is. `None` where there is no such field.
pub(crate) fn put_field_at(table: &DynamicTable, index: u32, out: &mut Vec<u8>) -> Option<usize>
    requires { length out.old.items + 4096 ≤ vec_capacity out.old }
    ensures put { IsFieldPut (field_at table.now index) out.old.items out.new.items result }
    ensures capacity { vec_capacity out.old ≤ vec_capacity out.new }
{
    match row_of(table, index) {
        Some(TableRow::Static(i)) => {
            let (name, value) = static_field(i);
            append_within(out, name);
            append_within(out, value);
            Some(name.len())
        }
        Some(TableRow::Dynamic(i)) => Some(table.put_field(i, out)),
        None => None,
    }
}
