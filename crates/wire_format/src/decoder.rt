//! The value that bytes are as a message of a type (the encoding guide, "Last One Wins", "Packed
//! Repeated Fields", "Maps").
ghost use Rattle.std.specs.Prelude.{◌≡◌, ◌++◌, map, option_map, option_and_then, unwrap_or, Some, IfOk, OnOk};
ghost use Rattle.std.specs.List.{AllByRecursion, flat_map, filter_map};
ghost use Rattle.schema.specs.Pairs.{entries_of};
ghost use Rattle.message_types.specs.Types.{field_in};
ghost use Rattle.schema.specs.Validity.{IsValid};
ghost use Rattle.schema.specs.Value.{slots_of};
ghost use Rattle.message_types.specs.declared.fields.Kind.TheVariants.{Message as MessageOf};
ghost use Rattle.schema.specs.declared.value.Item.{out-Item};
ghost use Rattle.wire_format.specs.Checks.{Decodes};
ghost use Rattle.wire_format.specs.Decoding.{decoding};
ghost use Rattle.wire_format.specs.FieldValues.{sized_of, payloads, message_item, pairs as pairs_slot, stored as stored_slot, counted as counted_records, default_item as default_layer, singular, items_of, slot_by as slot_by_payloads, slot_of, last_entries, gather, meaning_within};
ghost use Rattle.wire_format.specs.GoodBytes.{IsGoodItem, IsGoodEntry, IsGoodPayload, AreGoodRecords, AreGood};
ghost use Rattle.wire_format.specs.Laws.{HasSoundFields};
ghost use Rattle.wire_records.specs.RecordViews.{raw_of, payload_of as seen_payload};
ghost use Rattle.wire_format.specs.WireFaults.{entry_fields};

use crate::checker::check_message;
use crate::fault::DecodeFault;
use crate::gathered::{entries_pairs, put_last};
use crate::items::{last_scalar, push_scalars};
use crate::payloads::{chunks_of, counted, joined, payloads_of};
use crate::scalars::{key_of, stored};
use crate::slots::{entries, many, or_default, put};
use crate::within::Within;
use base::{List, NoMemory};
use schema::{
    Field, Item, Key, Kind, MAX_LEVELS, Pairs, Scalar, Shape, Slot, TypeId, Types, Value,
    find_field,
};
use std::alloc::Global;
use std::collections::BTreeMap;
use wire_records::{Payload, RawRecord, records_of};

/// The item of a singular field by its payloads: of a scalar the last, of a message all of them,
/// joined.
#[cycle(value)]
fn item_of(
    alloc: Global,
    within: Within<'_>,
    kind: Kind,
    payloads: &[Payload<'_>],
) -> Result<Option<Item>, NoMemory>
    requires { AllByRecursion (IsGoodItem (AreGood within.level within.types.now) within.types.now kind) (map seen_payload payloads.now) }
    ensures { IfOk result (λ o. option_map out-Item o ≡ singular (meaning_within within.entry.level within.entry.types.now) within.entry.types.now kind (map seen_payload payloads.now)) }
{
    match kind {
        Kind::One(scalar) => last_scalar(alloc, within.types, scalar, payloads),
        Kind::Message(id) => message_by(alloc, within, id, payloads),
    }
}

/// The message that payloads are, joined; none where there is no payload.
#[cycle(value)]
fn message_by(
    alloc: Global,
    within: Within<'_>,
    id: TypeId,
    payloads: &[Payload<'_>],
) -> Result<Option<Item>, NoMemory>
    requires { AllByRecursion (IsGoodItem (AreGood within.level within.types.now) within.types.now (MessageOf id)) (map seen_payload payloads.now) }
    ensures { IfOk result (λ o. option_map out-Item o ≡ singular (meaning_within within.entry.level within.entry.types.now) within.entry.types.now (MessageOf id) (map seen_payload payloads.now)) }
{
    let chunks = chunks_of(alloc, payloads)?;
    merged(alloc, within, within.types.fields(id), chunks.as_slice())
}

/// The message that chunks are, joined; none where there is no chunk.
#[cycle(value)]
fn merged(
    alloc: Global,
    within: Within<'_>,
    fields: &[Field],
    chunks: &[&[u8]],
) -> Result<Option<Item>, NoMemory>
    requires { AllByRecursion (AreGood within.level within.types.now fields.now) (map (λ b. b.now) chunks.now) }
    ensures { IfOk result (λ o. option_map out-Item o ≡ message_item (meaning_within within.entry.level within.entry.types.now) fields.now (map (λ b. b.now) chunks.now)) }
{
    match chunks.split_first() {
        None => Ok(None),
        Some((first, rest)) => {
            let value = joined_message(alloc, within, fields, first, rest)?;
            Ok(Some(Item::Message(value)))
        }
    }
}

/// The message that one chunk and further ones are, joined.
#[cycle(value)]
fn joined_message(
    alloc: Global,
    within: Within<'_>,
    fields: &[Field],
    first: &[u8],
    rest: &[&[u8]],
) -> Result<Value, NoMemory>
    requires good { AreGood within.level within.types.now fields.now first.now }
    requires rest { AllByRecursion (AreGood within.level within.types.now fields.now) (map (λ b. b.now) rest.now) }
    ensures { IfOk result (λ v. v ≡ (meaning_within within.entry.level within.entry.types.now).message fields.now (first.now ++ flat_map (λ q. q) (map (λ b. b.now) rest.now))) }
{
    if rest.is_empty() {
        return message_of(alloc, within, fields, first);
    }
    let bytes = joined(alloc, first, rest)?;
    message_of(alloc, within, fields, bytes.as_slice())
}

/// Appends the items of a payload of a list.
#[cycle(value)]
fn push_items(
    alloc: Global,
    within: Within<'_>,
    kind: Kind,
    payload: Payload<'_>,
    items: &mut List<Item>,
) -> Result<(), NoMemory>
    requires { IsGoodItem (AreGood within.level within.types.now) within.types.now kind (seen_payload payload) }
    ensures { OnOk result (map out-Item items.new ≡ map out-Item items.old ++ items_of (meaning_within within.entry.level within.entry.types.now) within.entry.types.now kind (seen_payload payload.entry)) }
{
    match (kind, payload) {
        (Kind::Message(id), Payload::Len(bytes)) => {
            let value = message_of(alloc, within, within.types.fields(id), bytes)?;
            items.push(Item::Message(value))
        }
        (Kind::Message(_), _) => Ok(()),
        (Kind::One(scalar), _) => push_scalars(alloc, within.types, scalar, payload, items),
    }
}

/// The items of a list by its payloads.
#[cycle(value)]
fn list_of(
    alloc: Global,
    within: Within<'_>,
    kind: Kind,
    payloads: &[Payload<'_>],
) -> Result<List<Item>, NoMemory>
    requires { AllByRecursion (IsGoodItem (AreGood within.level within.types.now) within.types.now kind) (map seen_payload payloads.now) }
    ensures { IfOk result (λ is. map out-Item is ≡ flat_map (items_of (meaning_within within.entry.level within.entry.types.now) within.entry.types.now kind) (map seen_payload payloads.now)) }
{
    let mut items = List::new(alloc);
    for payload in payloads {
        push_items(alloc, within, kind, *payload, &mut items)?;
    }
    Ok(items)
}

/// The entry of a map that bytes are.
#[cycle(value)]
fn entry_of(
    alloc: Global,
    within: Within<'_>,
    scalar: Scalar,
    kind: Kind,
    bytes: &[u8],
) -> Result<(Key, Item), NoMemory>
    requires { AreGood within.level within.types.now (entry_fields scalar kind) bytes.now }
    ensures { IfOk result (λ e. (meaning_within within.entry.level within.entry.types.now).entry scalar kind bytes.now ≡ Some e) }
{
    let inner = Within {
        types: within.types,
        level: within.level - 1,
    };
    let records = records_of(alloc, bytes, inner.level)?;
    let key = part_of(alloc, inner, Kind::One(scalar), 1, records.as_slice())?;
    let item = part_of(alloc, inner, kind, 2, records.as_slice())?;
    Ok((key_of(key), item))
}

/// A part of an entry, or its default.
#[cycle(value)]
fn part_of(
    alloc: Global,
    within: Within<'_>,
    kind: Kind,
    number: u32,
    records: &[RawRecord<'_>],
) -> Result<Item, NoMemory>
    requires { AllByRecursion (IsGoodItem (AreGood within.level within.types.now) within.types.now kind) (payloads number (map raw_of records.now)) }
    ensures { IfOk result (λ i. out-Item i ≡ unwrap_or (singular (meaning_within within.entry.level within.entry.types.now) within.entry.types.now kind (payloads number (map raw_of records.now))) (default_layer within.entry.types.now kind)) }
{
    let payloads = payloads_of(alloc, number, records)?;
    let item = item_of(alloc, within, kind, payloads.as_slice())?;
    Ok(or_default(alloc, within.types, kind, item))
}

/// The entries of a map by its chunks.
#[cycle(value)]
fn pairs_of(
    alloc: Global,
    within: Within<'_>,
    scalar: Scalar,
    kind: Kind,
    chunks: &[&[u8]],
) -> Result<Pairs, NoMemory>
    requires { AllByRecursion (AreGood within.level within.types.now (entry_fields scalar kind)) (map (λ b. b.now) chunks.now) }
    ensures { IfOk result (λ ps. entries_of ps ≡ last_entries (filter_map ((meaning_within within.entry.level within.entry.types.now).entry scalar kind) (map (λ b. b.now) chunks.now))) }
{
    let mut last = BTreeMap::new(alloc);
    for chunk in chunks {
        let (key, item) = entry_of(alloc, within, scalar, kind, chunk)?;
        put_last(&mut last, key, item)?;
    }
    entries_pairs(alloc, last)
}

/// The slot of a field by the payloads that count for it.
#[cycle(value)]
fn slot_by(
    alloc: Global,
    within: Within<'_>,
    field: &Field,
    payloads: &[Payload<'_>],
) -> Result<Option<Slot>, NoMemory>
    requires { AllByRecursion (IsGoodPayload (AreGood within.level within.types.now) within.types.now field.now.shape field.now.kind) (map seen_payload payloads.now) }
    ensures { IfOk result (λ o. o ≡ slot_by_payloads (meaning_within within.entry.level within.entry.types.now) within.entry.types.now field.now.presence field.now.shape field.now.kind (map seen_payload payloads.now)) }
{
    match field.shape {
        Shape::Many => Ok(many(list_of(alloc, within, field.kind, payloads)?)),
        Shape::Map(scalar) => map_by(alloc, within, scalar, field.kind, payloads),
        Shape::Single => single_by(alloc, within, field, payloads),
        Shape::Member(_) => single_by(alloc, within, field, payloads),
    }
}

/// The slot of a map by its payloads.
#[cycle(value)]
fn map_by(
    alloc: Global,
    within: Within<'_>,
    scalar: Scalar,
    kind: Kind,
    payloads: &[Payload<'_>],
) -> Result<Option<Slot>, NoMemory>
    requires { AllByRecursion (IsGoodEntry (AreGood within.level within.types.now) scalar kind) (map seen_payload payloads.now) }
    ensures { IfOk result (λ o. o ≡ pairs_slot (filter_map ((meaning_within within.entry.level within.entry.types.now).entry scalar kind) (filter_map sized_of (map seen_payload payloads.now)))) }
{
    let chunks = chunks_of(alloc, payloads)?;
    let pairs = pairs_of(alloc, within, scalar, kind, chunks.as_slice())?;
    Ok(entries(pairs))
}

/// The slot of a singular field by its payloads.
#[cycle(value)]
fn single_by(
    alloc: Global,
    within: Within<'_>,
    field: &Field,
    payloads: &[Payload<'_>],
) -> Result<Option<Slot>, NoMemory>
    requires { AllByRecursion (IsGoodItem (AreGood within.level within.types.now) within.types.now field.now.kind) (map seen_payload payloads.now) }
    ensures { IfOk result (λ o. o ≡ option_and_then (stored_slot field.now.presence) (singular (meaning_within within.entry.level within.entry.types.now) within.entry.types.now field.now.kind (map seen_payload payloads.now))) }
{
    match item_of(alloc, within, field.kind, payloads)? {
        Some(item) => Ok(stored(field.presence, item)),
        None => Ok(None),
    }
}

/// The slot of a field by the records of a message.
#[cycle(value)]
fn field_slot(
    alloc: Global,
    within: Within<'_>,
    fields: &[Field],
    records: &[RawRecord<'_>],
    field: &Field,
    number: u32,
) -> Result<Option<Slot>, NoMemory>
    requires known { field_in fields.now number ≡ Some field.now }
    requires good { AreGoodRecords (AreGood within.level within.types.now) within.types.now fields.now (map raw_of records.now) }
    ensures { IfOk result (λ o. o ≡ slot_by_payloads (meaning_within within.entry.level within.entry.types.now) within.entry.types.now field.now.presence field.now.shape field.now.kind (payloads number (counted_records within.entry.types.now fields.now number field.now.shape (map raw_of records.now)))) }
{
    let counting = counted(within.types, fields, number, field.shape, records);
    let payloads = payloads_of(alloc, number, counting)?;
    slot_by(alloc, within, field, payloads.as_slice())
}

/// The slot of a field number by the records of a message.
#[cycle(value)]
fn slot_at(
    alloc: Global,
    within: Within<'_>,
    fields: &[Field],
    records: &[RawRecord<'_>],
    number: u32,
) -> Result<Option<Slot>, NoMemory>
    requires { AreGoodRecords (AreGood within.level within.types.now) within.types.now fields.now (map raw_of records.now) }
    ensures { IfOk result (λ o. o ≡ slot_of (meaning_within within.entry.level within.entry.types.now) within.entry.types.now fields.now (map raw_of records.now) number) }
{
    match find_field(fields, number) {
        Some(field) => field_slot(alloc, within, fields, records, field, number),
        None => Ok(None),
    }
}

/// The message of the slots that records say.
#[cycle(value)]
fn gathered(
    alloc: Global,
    within: Within<'_>,
    fields: &[Field],
    records: &[RawRecord<'_>],
) -> Result<Value, NoMemory>
    requires { AreGoodRecords (AreGood within.level within.types.now) within.types.now fields.now (map raw_of records.now) }
    ensures { IfOk result (λ v. slots_of v ≡ gather (slot_of (meaning_within within.entry.level within.entry.types.now) within.entry.types.now fields.now (map raw_of records.now)) fields.now) }
{
    let mut value = Value::new(alloc);
    let mut left = fields;
    while let Some((field, rest)) = left.split_last() {
        let slot = slot_at(alloc, within, fields, records, field.number)?;
        put(&mut value, field.number, slot)?;
        left = rest;
    }
    Ok(value)
}

/// The message that bytes are.
#[cycle(value)]
fn message_of(
    alloc: Global,
    within: Within<'_>,
    fields: &[Field],
    bytes: &[u8],
) -> Result<Value, NoMemory>
    requires { AreGood within.level within.types.now fields.now bytes.now }
    ensures { IfOk result (λ v. v ≡ (meaning_within within.entry.level within.entry.types.now).message fields.now bytes.now) }
{
    let inner = Within {
        types: within.types,
        level: within.level - 1,
    };
    let records = records_of(alloc, bytes, inner.level)?;
    gathered(alloc, inner, fields, records.as_slice())
}

/// The value that the bytes are, or their first fault.
#[tactic(auto, unfolding(crate::specs::Decoding::decoding))]
fn decoded(alloc: Global, types: &Types, id: TypeId, bytes: &[u8]) -> Result<Value, DecodeFault>
    ensures { Decodes result (decoding types.now id bytes.now) }
{
    let fields = types.fields(id);
    let within = Within {
        types,
        level: MAX_LEVELS,
    };
    check_message(alloc, within, fields, 0, bytes)?;
    match message_of(alloc, within, fields, bytes) {
        Ok(value) => Ok(value),
        Err(NoMemory) => Err(DecodeFault::NoMemory),
    }
}

/// The value that the bytes are as a message of the type, or the first fault. Where the fields
/// of the types are sound, the value is valid.
pub fn decode(alloc: Global, types: &Types, id: TypeId, bytes: &[u8]) -> Result<Value, DecodeFault>
    ensures is { Decodes result (decoding types.now id bytes.now) }
    ensures valid { IfOk result (λ v. HasSoundFields types.now → IsValid types.now id v) }
{
    decoded(alloc, types, id, bytes)
}
