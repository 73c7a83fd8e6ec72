//! Messages, fields and enums of a set.

use crate::pieces::or_dash;
use descriptor_set::{EnumInfo, FieldInfo, MessageInfo};
use std::alloc::Global;
use std::io;

/// Appends enums with their values.
pub(crate) fn put_enums(alloc: Global, out: &mut String, enums: &[EnumInfo]) -> io::Result<()> {
    for info in enums {
        out.push_str(format!(in alloc; "enum {}", info.name.as_str())?.as_str())?;
        for value in info.value.as_slice() {
            let (name, number) = (value.name.as_str(), value.number);
            out.push_str(format!(in alloc; " {name}={number}")?.as_str())?;
        }
        out.push_str(" ")?;
    }
    Ok(())
}

/// Appends a message's name and its options.
fn put_head(alloc: Global, out: &mut String, message: &MessageInfo) -> io::Result<()> {
    let name = message.name.as_str();
    let (is_set, is_entry) = (message.message_set_wire_format, message.map_entry);
    let head = format!(in alloc; "message {name} set={is_set} entry={is_entry} ")?;
    Ok(out.push_str(head.as_str())?)
}

/// Appends messages, with what is declared in them one level deep.
pub(crate) fn put_messages(
    alloc: Global,
    out: &mut String,
    messages: &[MessageInfo],
) -> io::Result<()> {
    for message in messages {
        put_head(alloc, out, message)?;
        out.push_str("{ ")?;
        for nested in message.nested_type.as_slice() {
            put_head(alloc, out, nested)?;
        }
        put_enums(alloc, out, message.enum_type.as_slice())?;
        for oneof in message.oneof_decl.as_slice() {
            out.push_str(format!(in alloc; "oneof {} ", oneof.as_str())?.as_str())?;
        }
        let count = message.extension.len();
        out.push_str(format!(in alloc; "{count} extensions }} ")?.as_str())?;
    }
    Ok(())
}

/// Appends a field.
fn put_field(alloc: Global, out: &mut String, field: &FieldInfo) -> io::Result<()> {
    let (name, extendee) = (
        or_dash(field.name.as_str()),
        or_dash(field.extendee.as_str()),
    );
    let (number, label, kind) = (field.number, field.label, field.type_number);
    let front = format!(in alloc; "{name} {extendee} {number} {label} {kind} ")?;
    out.push_str(front.as_str())?;
    out.push_str(or_dash(field.type_name.as_str()))?;
    let (packed, index) = (field.packed, field.oneof_index);
    out.push_str(format!(in alloc; " {packed:?} {index:?} ")?.as_str())?;
    match &field.json_name {
        Some(json) => out.push_str(format!(in alloc; "json={}", json.as_str())?.as_str())?,
        None => out.push_str("none")?,
    }
    out.push_str(if field.proto3_optional {
        " optional "
    } else {
        " plain "
    })?;
    Ok(())
}

/// Appends the fields and the extensions of messages.
pub(crate) fn put_fields(
    alloc: Global,
    out: &mut String,
    messages: &[MessageInfo],
) -> io::Result<()> {
    for message in messages {
        for field in message.field.as_slice() {
            put_field(alloc, out, field)?;
        }
        for field in message.extension.as_slice() {
            out.push_str("extension ")?;
            put_field(alloc, out, field)?;
        }
    }
    Ok(())
}
