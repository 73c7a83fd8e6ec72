//! Settings as words.

use query_settings::{ParameterKind, Setting};
use rows::shown;
use schema::{Item, Slot, Value};
use std::alloc::Global;
use std::io;

/// The name of a fault.
pub(crate) fn kind_name(kind: ParameterKind) -> &'static str {
    match kind {
        ParameterKind::Unknown => "Unknown",
        ParameterKind::Taken => "Taken",
        ParameterKind::NotALeaf => "NotALeaf",
        ParameterKind::Twice => "Twice",
        ParameterKind::TooDeep => "TooDeep",
        ParameterKind::BadText => "BadText",
        ParameterKind::BadNumber => "BadNumber",
        ParameterKind::OutOfRange => "OutOfRange",
        ParameterKind::BadEnum => "BadEnum",
        ParameterKind::NotUtf8 => "NotUtf8",
    }
}

/// A scalar.
fn scalar_word(alloc: Global, item: &Item) -> io::Result<String> {
    match item {
        Item::Number(number) => Ok(format!(in alloc; "{number}")?),
        Item::Truth(truth) => Ok(format!(in alloc; "{truth}")?),
        Item::Text(text) => shown(alloc, text.as_str().as_bytes()),
        Item::Bytes(bytes) => shown(alloc, bytes.as_slice()),
        Item::Message(_) => Err(io::Error::from(io::ErrorKind::InvalidData)),
    }
}

/// A list of scalars.
fn put_scalars(alloc: Global, out: &mut String, items: &[Item]) -> io::Result<()> {
    out.push_str("[")?;
    let mut comma = "";
    for item in items {
        out.push_str(comma)?;
        out.push_str(scalar_word(alloc, item)?.as_str())?;
        comma = ",";
    }
    Ok(out.push_str("]")?)
}

/// A message of scalars and of lists of scalars.
fn put_message(alloc: Global, out: &mut String, value: &Value) -> io::Result<()> {
    out.push_str("{")?;
    let mut comma = "";
    for (number, slot) in value.fields() {
        out.push_str(format!(in alloc; "{comma}{number}=")?.as_str())?;
        match slot {
            Slot::One(item) => out.push_str(scalar_word(alloc, item)?.as_str())?,
            Slot::Many(items) => put_scalars(alloc, out, items.as_slice())?,
            Slot::Pairs(_) => return Err(io::Error::from(io::ErrorKind::InvalidData)),
        }
        comma = ",";
    }
    Ok(out.push_str("}")?)
}

/// An item: a scalar, or a message.
fn put_item(alloc: Global, out: &mut String, item: &Item) -> io::Result<()> {
    match item {
        Item::Message(value) => put_message(alloc, out, value),
        _ => Ok(out.push_str(scalar_word(alloc, item)?.as_str())?),
    }
}

/// A slot.
fn put_slot(alloc: Global, out: &mut String, slot: &Slot) -> io::Result<()> {
    match slot {
        Slot::One(item) => put_item(alloc, out, item),
        Slot::Many(items) => {
            out.push_str("[")?;
            let mut comma = "";
            for item in items.as_slice() {
                out.push_str(comma)?;
                put_item(alloc, out, item)?;
                comma = ",";
            }
            Ok(out.push_str("]")?)
        }
        Slot::Pairs(_) => Err(io::Error::from(io::ErrorKind::InvalidData)),
    }
}

/// All settings, or `nothing`.
pub(crate) fn put_settings(
    alloc: Global,
    out: &mut String,
    settings: &[Setting],
) -> io::Result<()> {
    if settings.is_empty() {
        out.push_str("nothing")?;
    }
    let mut blank = "";
    for setting in settings {
        out.push_str(blank)?;
        blank = " ";
        let mut point = "";
        for number in setting.path.as_slice() {
            out.push_str(format!(in alloc; "{point}{number}")?.as_str())?;
            point = ".";
        }
        out.push_str("=")?;
        put_slot(alloc, out, &setting.slot)?;
    }
    Ok(())
}
