//! The first fault of bytes as a message of a type: of its records, of the payloads of its message
//! fields in every level, and of its text (the encoding guide, "Message Structure").
ghost use Rattle.std.specs.Prelude.{◌≡◌, ◌+◌, ◌<◌, ◌^◌, length};
ghost use Rattle.message_types.specs.Types.{field_in};
ghost use Rattle.std.specs.Str.{is_utf8};
ghost use Rattle.wire_format.specs.Checks.{Finds};
ghost use Rattle.wire_records.specs.RecordViews.{raw_of, sized_len};
ghost use Rattle.wire_records.specs.WireRecord.{sized};
ghost use Rattle.wire_format.specs.WireFaults.{Wire, element_fault, entry_field as field_of_entry, entry_fields as fields_of_entry, scalar_fault, payload_fault, field_fault, first_fault, is_message as is_message_kind};

use crate::fault::DecodeFault;
use crate::sizes::scalar_wire;
use crate::within::Within;
use base::Text;
use schema::{Field, Kind, Presence, Scalar, Shape, TypeId, find_field, is_packable};
use std::alloc::Global;
use std::str;
use wire_records::{Payload, RawRecord, WireFault, WireKind, payload_of, record_of};

/// A fault of a record or an element at a place.
fn fault_at(place: u64, kind: WireKind) -> DecodeFault
    ensures { Finds (Err result) (Some (Wire place kind)) }
{
    DecodeFault::Wire(WireFault { place, kind })
}

/// The two fields of an entry of a map: its key and its value.
pub(crate) fn entry_fields(alloc: Global, scalar: Scalar, kind: Kind) -> [Field; 2]
    ensures { result ≡ fields_of_entry scalar kind }
{
    [
        entry_field(alloc, 1, Kind::One(scalar)),
        entry_field(alloc, 2, kind),
    ]
}

/// A part of an entry. It has no name.
fn entry_field(alloc: Global, number: u32, kind: Kind) -> Field
    ensures { result ≡ field_of_entry number kind }
{
    Field {
        name: Text::new(alloc),
        json: Text::new(alloc),
        number,
        kind,
        shape: Shape::Single,
        presence: Presence::Explicit,
        packed: false,
    }
}

/// True where the bytes are UTF-8.
fn is_text(bytes: &[u8]) -> bool
    ensures { result ≡ is_utf8 bytes.now }
{
    match str::from_utf8(bytes) {
        Ok(_) => true,
        Err(_) => false,
    }
}

/// True where the kind is a message.
fn is_message(kind: Kind) -> bool
    ensures { result ≡ is_message_kind kind }
{
    match kind {
        Kind::One(_) => false,
        Kind::Message(_) => true,
    }
}

/// The first fault of the elements of a packed list.
fn check_elements(scalar: Scalar, place: u64, bytes: &[u8]) -> Result<(), DecodeFault>
    requires { place + length bytes.now < 2 ^ 63 }
    ensures { Finds result (element_fault scalar place 0 bytes.now) }
{
    let mut at = 0;
    while at < bytes.len() {
        let (_, left) = bytes.split_at(at);
        match payload_of(scalar_wire(scalar), left) {
            Ok((_, _, to)) => at += to,
            Err(kind) => return Err(fault_at(place + at as u64, kind)),
        }
    }
    Ok(())
}

/// The first fault of the payload of a scalar field of this shape.
fn check_scalar(
    shape: Shape,
    scalar: Scalar,
    place: u64,
    from: u64,
    bytes: &[u8],
) -> Result<(), DecodeFault>
    requires { from + length bytes.now < 2 ^ 63 }
    ensures { Finds result (scalar_fault shape scalar place from bytes.now) }
{
    if scalar == Scalar::Text {
        if is_text(bytes) {
            return Ok(());
        }
        return Err(DecodeFault::NotUtf8(place));
    }
    if shape == Shape::Many && is_packable(scalar) {
        return check_elements(scalar, from, bytes);
    }
    Ok(())
}

/// The first fault of a payload of a field of this shape and kind, where so many levels are left.
#[cycle(check)]
fn check_payload(
    alloc: Global,
    within: Within<'_>,
    field: &Field,
    place: u64,
    from: u64,
    bytes: &[u8],
) -> Result<(), DecodeFault>
    requires { from + length bytes.now < 2 ^ 63 }
    ensures { Finds result (payload_fault (first_fault within.entry.level within.entry.types.now) within.entry.types.now within.entry.level field.now.shape field.now.kind place from (sized bytes.now)) }
{
    match (field.shape, field.kind) {
        (Shape::Map(scalar), kind) => {
            if within.level == 0 || (within.level == 1 && is_message(kind)) {
                return Err(fault_at(place, WireKind::TooDeep));
            }
            let entry = entry_fields(alloc, scalar, kind);
            check_message(alloc, within, &entry, from, bytes)
        }
        (_, Kind::Message(id)) => {
            if within.level == 0 {
                return Err(fault_at(place, WireKind::TooDeep));
            }
            check_message(alloc, within, within.types.fields(id), from, bytes)
        }
        (shape, Kind::One(scalar)) => check_scalar(shape, scalar, place, from, bytes),
    }
}

/// The first fault of the payload of a record that begins at a place.
#[cycle(check)]
fn check_record(
    alloc: Global,
    within: Within<'_>,
    fields: &[Field],
    place: u64,
    found: RawRecord<'_>,
) -> Result<(), DecodeFault>
    requires { place + found.head + sized_len found.payload < 2 ^ 63 }
    ensures { Finds result (field_fault (first_fault within.entry.level within.entry.types.now) within.entry.types.now within.entry.level (field_in fields.now found.entry.number) place (raw_of found.entry)) }
{
    match (find_field(fields, found.number), found.payload) {
        (Some(field), Payload::Len(bytes)) => {
            let from = place + found.head as u64;
            check_payload(alloc, within, field, place, from, bytes)
        }
        _ => Ok(()),
    }
}

/// The first fault of bytes at a place, as a message with these fields, in so many levels.
#[cycle(check)]
pub(crate) fn check_message(
    alloc: Global,
    within: Within<'_>,
    fields: &[Field],
    place: u64,
    bytes: &[u8],
) -> Result<(), DecodeFault>
    requires { place + length bytes.now < 2 ^ 63 }
    ensures { Finds result (first_fault within.entry.level within.entry.types.now fields.now place bytes.now) }
{
    if within.level == 0 {
        return Ok(());
    }
    let inner = Within {
        types: within.types,
        level: within.level - 1,
    };
    let mut at = 0;
    while at < bytes.len() {
        let (_, left) = bytes.split_at(at);
        match record_of(left, inner.level) {
            Err((near, kind)) => return Err(fault_at(place + (at + near) as u64, kind)),
            Ok(found) => {
                check_record(alloc, inner, fields, place + at as u64, found)?;
                at += found.size;
            }
        }
    }
    Ok(())
}
