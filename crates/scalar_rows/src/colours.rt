//! The enum that texts name.

use base::{List, Text};
use rows::kept;
use schema::{EnumType, EnumValue};
use std::alloc::Global;
use std::io;

/// The names and numbers of the enum's values: two share a number, two a name, and one name looks like a number.
const VALUES: [(&str, i32); 7] = [
    ("NONE", 0),
    ("RED", 1),
    ("SCARLET", 1),
    ("7", 3),
    ("RED", 5),
    ("LOW", -2_147_483_648),
    ("HIGH", 2_147_483_647),
];

/// An enum of these values, alone.
pub(crate) fn colours(alloc: Global) -> io::Result<List<EnumType>> {
    let mut values = Vec::new(alloc);
    for (name, number) in &VALUES {
        values.push(EnumValue {
            name: kept(Text::copy_of(alloc, name))?,
            number: *number,
        })?;
    }
    let mut enums = Vec::new(alloc);
    enums.push(EnumType {
        name: kept(Text::copy_of(alloc, "Colour"))?,
        values: List::from_vec(values),
    })?;
    Ok(List::from_vec(enums))
}
