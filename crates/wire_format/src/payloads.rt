//! The payloads that count for a field (the encoding guide, "Last
//! One Wins" and "Oneofs").
ghost use Rattle.std.specs.Prelude.{◌≡◌, ◌++◌, if◌then◌else◌, map, IfOk};
ghost use Rattle.std.specs.List.{flat_map, filter_map};
ghost use Rattle.wire_format.specs.FieldValues.{payloads, sized_of, in_oneof as is_in_oneof, sets_other as sets_another, counted as counted_records, first_passes, since};
ghost use Rattle.wire_records.specs.RecordViews.{raw_of, payload_of};

use crate::scalars::counts;
use base::NoMemory;
use schema::{Field, Shape, Types, find_field};
use std::alloc::Global;
use wire_records::{Payload, RawRecord};

/// The payloads of a field number, in order.
pub(crate) fn payloads_of<'a>(
    alloc: Global,
    number: u32,
    records: &[RawRecord<'a>],
) -> Result<Vec<Payload<'a>>, NoMemory>
    ensures { IfOk result (λ v. map payload_of v.items ≡ payloads number (map raw_of records.now)) }
{
    let mut found = Vec::new(alloc);
    for record in records {
        if record.number == number {
            found.push(record.payload)?;
        }
    }
    Ok(found)
}

/// The bytes of length-delimited payloads, in order.
pub(crate) fn chunks_of<'a>(
    alloc: Global,
    payloads: &[Payload<'a>],
) -> Result<Vec<&'a [u8]>, NoMemory>
    ensures { IfOk result (λ v. map (λ b. b.now) v.items ≡ filter_map sized_of (map payload_of payloads.now)) }
{
    let mut found = Vec::new(alloc);
    for payload in payloads {
        match payload {
            Payload::Len(bytes) => found.push(*bytes)?,
            _ => {}
        }
    }
    Ok(found)
}

/// One chunk and further ones, one after another.
pub(crate) fn joined(alloc: Global, first: &[u8], rest: &[&[u8]]) -> Result<Vec<u8>, NoMemory>
    ensures { IfOk result (λ v. v.items ≡ first.now ++ flat_map (λ q. q) (map (λ b. b.now) rest.now)) }
{
    let mut bytes = Vec::from_slice(alloc, first)?;
    for chunk in rest {
        bytes.extend_from_slice(chunk)?;
    }
    Ok(bytes)
}

/// True where the shape is that of a member of this oneof.
fn in_oneof(shape: Shape, oneof: u32) -> bool
    ensures { result ≡ is_in_oneof oneof shape }
{
    match shape {
        Shape::Member(other) => other == oneof,
        _ => false,
    }
}

/// True where the record sets another member of the oneof than the number's.
fn sets_other(
    types: &Types,
    fields: &[Field],
    oneof: u32,
    number: u32,
    found: &RawRecord<'_>,
) -> bool
    ensures { result ≡ sets_another types.now fields.now oneof number (raw_of found.now) }
{
    if found.number == number {
        return false;
    }
    match find_field(fields, found.number) {
        Some(field) => in_oneof(field.shape, oneof) && counts(types, field.kind, found.payload),
        None => false,
    }
}

/// The records that count for a field: of a member of a oneof those behind the last that sets
/// another member.
pub(crate) fn counted<'r, 'a>(
    types: &Types,
    fields: &[Field],
    number: u32,
    shape: Shape,
    records: &'r [RawRecord<'a>],
) -> &'r [RawRecord<'a>]
    ensures { map raw_of result.now ≡ counted_records types.now fields.now number shape (map raw_of records.now) }
{
    match shape {
        Shape::Member(oneof) => since_other(types, fields, oneof, number, records),
        _ => records,
    }
}

/// True where the first of the records sets another member of the oneof.
fn begins_other(
    types: &Types,
    fields: &[Field],
    oneof: u32,
    number: u32,
    records: &[RawRecord<'_>],
) -> bool
    ensures { result ≡ first_passes (sets_another types.now fields.now oneof number) (map raw_of records.now) }
{
    match records.split_first() {
        Some((record, _)) => sets_other(types, fields, oneof, number, record),
        None => false,
    }
}

/// Where the records that count begin: at an index, or where they began before.
fn start_at(is_other: bool, at: usize, start: usize) -> usize
    ensures { result ≡ (if is_other then at else start) }
{
    if is_other {
        return at;
    }
    start
}

/// The records behind the last that sets another member of the oneof.
fn since_other<'r, 'a>(
    types: &Types,
    fields: &[Field],
    oneof: u32,
    number: u32,
    records: &'r [RawRecord<'a>],
) -> &'r [RawRecord<'a>]
    ensures { map raw_of result.now ≡ since (sets_another types.now fields.now oneof number) (map raw_of records.now) }
{
    let mut start = 0;
    let mut at = 0;
    while at < records.len() {
        let (_, left) = records.split_at(at);
        let is_other = begins_other(types, fields, oneof, number, left);
        at += 1;
        start = start_at(is_other, at, start);
    }
    let (_, since) = records.split_at(start);
    since
}
