//! Types that are linked, each that a field has by its full name.

use schema::{EnumId, EnumType, Field, Kind, MessageType, Scalar, TypeId, Types};
use std::alloc::Global;
use std::io;

/// The full name of a message type.
pub(crate) fn message_name(types: &Types, id: TypeId) -> &str {
    match types.messages.get(id.0 as usize) {
        Some(message) => message.name.as_str(),
        None => "no message",
    }
}

/// The full name of an enum type.
fn enum_name(types: &Types, id: EnumId) -> &str {
    match types.enums.get(id.0 as usize) {
        Some(found) => found.name.as_str(),
        None => "no enum",
    }
}

/// Appends what one value of a field is.
fn put_kind(alloc: Global, out: &mut String, types: &Types, kind: Kind) -> io::Result<()> {
    let told = match kind {
        Kind::One(Scalar::Enumeration(id)) => format!(in alloc; "enum {}", enum_name(types, id))?,
        Kind::One(scalar) => format!(in alloc; "{scalar:?}")?,
        Kind::Message(id) => format!(in alloc; "message {}", message_name(types, id))?,
    };
    Ok(out.push_str(told.as_str())?)
}

/// Appends a field.
fn put_field(alloc: Global, out: &mut String, types: &Types, field: &Field) -> io::Result<()> {
    let (name, json, number) = (field.name.as_str(), field.json.as_str(), field.number);
    out.push_str(format!(in alloc; "{name} {json} {number} ")?.as_str())?;
    put_kind(alloc, out, types, field.kind)?;
    let (shape, presence, packed) = (field.shape, field.presence, field.packed);
    let rest = format!(in alloc; " {shape:?} {presence:?} {packed};")?;
    Ok(out.push_str(rest.as_str())?)
}

/// Appends a message type with its fields.
fn put_message(
    alloc: Global,
    out: &mut String,
    types: &Types,
    message: &MessageType,
) -> io::Result<()> {
    let (name, known) = (message.name.as_str(), message.known);
    out.push_str(format!(in alloc; "message {name} {known:?};")?.as_str())?;
    for field in message.fields.as_slice() {
        put_field(alloc, out, types, field)?;
    }
    Ok(())
}

/// Appends an enum type with its values.
fn put_enum(alloc: Global, out: &mut String, told: &EnumType) -> io::Result<()> {
    out.push_str(format!(in alloc; "enum {}", told.name.as_str())?.as_str())?;
    for value in told.values.as_slice() {
        let (name, number) = (value.name.as_str(), value.number);
        out.push_str(format!(in alloc; " {name}={number}")?.as_str())?;
    }
    Ok(out.push_str(";")?)
}

/// Appends all types.
pub(crate) fn put_types(alloc: Global, out: &mut String, types: &Types) -> io::Result<()> {
    for message in types.messages.as_slice() {
        put_message(alloc, out, types, message)?;
    }
    for told in types.enums.as_slice() {
        put_enum(alloc, out, told)?;
    }
    Ok(())
}
