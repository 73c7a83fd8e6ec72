//! Texts of JSON as values, told by the canonical bytes of these.
ghost use Rattle.std.specs.Prelude.{◌≡◌};

use field_index::IndexedTypes;
use json_bodies::{BodyFault, read_body};
use linked_api::Api;
use rows::kept;
use schema::{TypeId, Value, valid};
use std::alloc::Global;
use std::io;
use wire_format::encode;

/// Appends bytes in hexadecimal, and `-` for none.
fn put_hex(alloc: Global, out: &mut Vec<u8>, bytes: &[u8]) -> io::Result<()> {
    if bytes.is_empty() {
        out.push(b'-')?;
    } else {
        out.extend_from_slice(hex::encode(alloc, bytes)?.as_bytes())?;
    }
    Ok(())
}

/// Appends the canonical bytes of a value of a type, or that it is none, as no value is that is read.
fn put_value(
    alloc: Global,
    api: &Api,
    out: &mut Vec<u8>,
    id: TypeId,
    value: &Value,
) -> io::Result<()> {
    if !valid(&api.types, id, value) {
        out.extend_from_slice(b"Invalid")?;
        return Ok(());
    }
    let mut bytes = Vec::new(alloc);
    kept(encode(&api.types, id, value, &mut bytes))?;
    put_hex(alloc, out, bytes.as_slice())
}

/// Appends the name of a fault, and its place.
fn put_fault(alloc: Global, out: &mut Vec<u8>, fault: BodyFault) -> io::Result<()> {
    let told = match fault {
        BodyFault::Field(place, kind) => format!(in alloc; "{kind:?} {place}")?,
        BodyFault::Syntax(place) => format!(in alloc; "Syntax {place}")?,
        BodyFault::NoMemory => return Err(io::Error::from(io::ErrorKind::OutOfMemory)),
    };
    out.extend_from_slice(told.as_bytes())?;
    Ok(())
}

/// Appends what a text is as a message of a type, or as one field of it.
pub(crate) fn put_reading(
    alloc: Global,
    api: &Api,
    types: &IndexedTypes<'_>,
    out: &mut Vec<u8>,
    id: TypeId,
    part: Option<u32>,
    text: &[u8],
) -> io::Result<()>
    requires indexed { types.now ≡ api.now.types }
{
    match read_body(alloc, types, id, part, text, 0) {
        Ok(value) => put_value(alloc, api, out, id, &value),
        Err(fault) => put_fault(alloc, out, fault),
    }
}
