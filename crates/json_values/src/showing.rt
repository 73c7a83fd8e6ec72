//! Values of bytes, told by their texts of JSON.
ghost use Rattle.std.specs.Prelude.{◌≡◌, IfOk};
ghost use Rattle.linked_api.specs.LinkedApi.{IsLinked};
ghost use Rattle.schema.specs.Validity.{IsValid};

use field_index::IndexedTypes;
use linked_api::Api;
use protojson_write::{ShowFault, show};
use schema::{TypeId, Value};
use std::alloc::Global;
use std::io;
use wire_format::{DecodeFault, decode, laws};

/// The most bytes that a text has: 1 MiB.
const MAX_TEXT_BYTES: u64 = 1_048_576;

/// The value that bytes are as a message of a type, or the first fault.
fn value_of(alloc: Global, api: &Api, id: TypeId, bytes: &[u8]) -> Result<Value, DecodeFault>
    requires { IsLinked api.now }
    ensures { IfOk result (λ value. IsValid api.now.types id value) }
{
    laws::sound_types_have_sound_fields();
    decode(alloc, &api.types, id, bytes)
}

/// Appends what is wrong with bytes.
fn put_decode_fault(alloc: Global, out: &mut Vec<u8>, fault: DecodeFault) -> io::Result<()> {
    let told = match fault {
        DecodeFault::Wire(fault) => {
            let (kind, place) = (fault.kind, fault.place);
            format!(in alloc; "{kind:?} {place}")?
        }
        DecodeFault::NotUtf8(place) => format!(in alloc; "NotUtf8 {place}")?,
        DecodeFault::NoMemory => return Err(io::Error::from(io::ErrorKind::OutOfMemory)),
    };
    out.extend_from_slice(told.as_bytes())?;
    Ok(())
}

/// Appends the name of a fault.
fn put_show_fault(out: &mut Vec<u8>, fault: ShowFault) -> io::Result<()> {
    let name = match fault {
        ShowFault::Unprintable => "Unprintable",
        ShowFault::TooLong => "TooLong",
        ShowFault::NoMemory => return Err(io::Error::from(io::ErrorKind::OutOfMemory)),
    };
    out.extend_from_slice(name.as_bytes())?;
    Ok(())
}

/// Appends the text of what bytes are as a message of a type, or of one field of it.
pub(crate) fn put_text(
    alloc: Global,
    api: &Api,
    types: &IndexedTypes<'_>,
    out: &mut Vec<u8>,
    id: TypeId,
    part: Option<u32>,
    bytes: &[u8],
) -> io::Result<()>
    requires linked { IsLinked api.now }
    requires indexed { types.now ≡ api.now.types }
{
    let value = match value_of(alloc, api, id, bytes) {
        Ok(value) => value,
        Err(fault) => return put_decode_fault(alloc, out, fault),
    };
    match show(types, id, part, &value, MAX_TEXT_BYTES, out) {
        Ok(()) => Ok(()),
        Err(fault) => put_show_fault(out, fault),
    }
}
