//! Rows that declare types, and that ask of them.

use crate::kinds::{kind_of, shape_of};
use base::{List, Text};
use rows::{Row, kept};
use schema::{EnumType, EnumValue, Field, Known, MessageType, Presence, Types, find_field, sound};
use std::alloc::Global;
use std::io;

/// The part of a word at an index, between commas.
fn part(word: &str, index: usize) -> &str {
    word.split(',').nth(index).unwrap_or("")
}

/// The field that a word declares.
fn field_of(alloc: Global, word: &str) -> io::Result<Field> {
    let name = part(word, 0);
    Ok(Field {
        name: kept(Text::copy_of(alloc, name))?,
        json: kept(Text::copy_of(alloc, name))?,
        number: part(word, 1).parse().unwrap_or(0),
        kind: kind_of(part(word, 2)),
        shape: shape_of(part(word, 3)),
        presence: match part(word, 4) {
            "explicit" => Presence::Explicit,
            _ => Presence::Implicit,
        },
        packed: part(word, 5) == "packed",
    })
}

/// Adds a message type, and tells how many fields it has.
pub(crate) fn declare_type(alloc: Global, types: &mut Types, row: &mut Row) -> io::Result<String> {
    let name = kept(Text::copy_of(alloc, row.word()))?;
    let mut fields = List::new(alloc);
    for word in row.rest().split(' ') {
        kept(fields.push(field_of(alloc, word)?))?;
    }
    let answer = format!(in alloc; "{} fields", fields.len())?;
    kept(
        types.messages.push(MessageType {
            name,
            known: Known::Plain,
            fields,
        }),
    )?;
    Ok(answer)
}

/// Adds an enum type, and tells how many values it has.
pub(crate) fn declare_enum(alloc: Global, types: &mut Types, row: &mut Row) -> io::Result<String> {
    let name = kept(Text::copy_of(alloc, row.word()))?;
    let mut values = List::new(alloc);
    for word in row.rest().split(' ') {
        if let Some((name, number)) = word.split_once('=') {
            kept(values.push(EnumValue {
                name: kept(Text::copy_of(alloc, name))?,
                number: number.parse().unwrap_or(0),
            }))?;
        }
    }
    let answer = format!(in alloc; "{} values", values.len())?;
    kept(types.enums.push(EnumType { name, values }))?;
    Ok(answer)
}

/// Whether the types are sound.
pub(crate) fn sound_answer(alloc: Global, types: &Types) -> io::Result<String> {
    let word = if sound(types) { "sound" } else { "not sound" };
    Ok(String::from_str(alloc, word)?)
}

/// The name and the shape of the field of a number.
pub(crate) fn field_answer(alloc: Global, fields: &[Field], number: u32) -> io::Result<String> {
    match find_field(fields, number) {
        Some(field) => {
            let (name, shape) = (field.name.as_str(), field.shape);
            Ok(format!(in alloc; "{name} {shape:?}")?)
        }
        None => Ok(String::from_str(alloc, "none")?),
    }
}
