//! How many bytes a value takes, without writing them (the encoding guide). Sums stand still at the
//! last number of 64 bits.
ghost use Rattle.std.specs.Prelude.{◌≡◌, ◌+◌, ℕ, length};
ghost use Rattle.std.specs.List.{AllByRecursion};
ghost use Rattle.schema.specs.Validity.{IsScalarItem, IsItem, IsSlot, IsFieldSlot, AreFieldSlots, IsValid, key_item, valid_within};
ghost use Rattle.message_types.specs.Types.{field_in};
ghost use Rattle.schema.specs.declared.value.Item.{out-Item};
ghost use Rattle.schema.specs.declared.value.Slot.{out-Slot};
ghost use Rattle.wire_format.specs.CanonicalBytes.{canonical_within, canonical_bytes, wire_of as wire_of_kind, key_bytes, item_bytes, record_bytes, entry_bytes, entry_record, slot_bytes, field_bytes, entries_bytes, items_bytes, records_bytes, list_bytes, slots_bytes};
ghost use Rattle.wire_records.specs.RecordBytes.{tag};
ghost use Rattle.wire_records.specs.WireRecord.{IsPlainWire};
ghost use Rattle.wire_format.specs.Scalars.{scalar_wire as wire_of_scalar};
ghost use Rattle.base.specs.Saturated.{saturated};
ghost use Rattle.wire_format.specs.Sizes.{size_of};
ghost use Rattle.wire_records.specs.Varint.{varint};

use crate::numbers::number_len;
use crate::within::Within;
use schema::{
    Field, Item, Key, Kind, MAX_LEVELS, Scalar, Shape, Slot, TypeId, Types, Value, find_field,
};
use wire_records::{I32, I64, LEN, VARINT, varint_len};

/// The wire type of a scalar kind.
pub(crate) fn scalar_wire(scalar: Scalar) -> u8
    ensures value { result ≡ wire_of_scalar scalar }
    ensures plain { IsPlainWire result }
{
    match scalar {
        Scalar::Fixed32 => I32,
        Scalar::Sfixed32 => I32,
        Scalar::Fixed64 => I64,
        Scalar::Sfixed64 => I64,
        Scalar::Text => LEN,
        Scalar::Bytes => LEN,
        _ => VARINT,
    }
}

/// The wire type of a kind.
pub(crate) fn wire_of(kind: Kind) -> u8
    ensures { result ≡ wire_of_kind kind }
{
    match kind {
        Kind::One(scalar) => scalar_wire(scalar),
        Kind::Message(_) => LEN,
    }
}

/// How many bytes a tag takes.
fn tag_len(number: u32, wire: u8) -> u64
    ensures { result ≡ size_of (tag number wire) }
{
    varint_len(u64::from(number) * 8 + u64::from(wire)) as u64
}

/// How many bytes so many take behind their length.
fn delimited_len(len: u64) -> u64
    ensures { (n : ℕ) → len ≡ saturated n → result ≡ saturated (length (varint n) + n) }
{
    (varint_len(len) as u64).saturating_add(len)
}

/// How many bytes the key of an entry takes behind its tag.
fn key_len(scalar: Scalar, key: &Key) -> u64
    requires { IsScalarItem scalar (key_item key.now) }
    ensures { result ≡ size_of (key_bytes scalar key.now) }
{
    match key {
        Key::Number(number) => number_len(scalar, *number),
        Key::Truth(_) => 1,
        Key::Text(text) => delimited_len(text.len() as u64),
    }
}

/// How many bytes an item takes behind its tag.
#[cycle(size)]
fn item_len(within: Within<'_>, kind: Kind, item: &Item) -> u64
    requires { IsItem (valid_within within.level within.types.now) kind (out-Item item.now) }
    ensures { result ≡ size_of (item_bytes (canonical_within within.entry.level within.entry.types.now) kind (out-Item item.now)) }
{
    match (kind, item) {
        (Kind::One(scalar), Item::Number(number)) => number_len(scalar, *number),
        (Kind::One(_), Item::Truth(_)) => 1,
        (Kind::One(_), Item::Text(text)) => delimited_len(text.len() as u64),
        (Kind::One(_), Item::Bytes(bytes)) => delimited_len(bytes.len() as u64),
        (Kind::Message(id), Item::Message(value)) => {
            delimited_len(message_len(within, id, value))
        }
        _ => 0,
    }
}

/// How many bytes an item takes with its tag.
#[cycle(size)]
fn record_len(within: Within<'_>, number: u32, kind: Kind, item: &Item) -> u64
    requires { IsItem (valid_within within.level within.types.now) kind (out-Item item.now) }
    ensures { result ≡ size_of (record_bytes (canonical_within within.entry.level within.entry.types.now) number kind item.now) }
{
    tag_len(number, wire_of(kind)).saturating_add(item_len(within, kind, item))
}

/// How many bytes items take without tags.
#[cycle(size)]
#[tactic(auto, using(crate::proofs::encoding::SizeLemmas::size_step, crate::proofs::encoding::SizeLemmas::size_done))]
pub(crate) fn items_len(within: Within<'_>, kind: Kind, items: &[Item]) -> u64
    requires { AllByRecursion (λ i. IsItem (valid_within within.level within.types.now) kind (out-Item i)) items.now }
    ensures { result ≡ size_of (items_bytes (canonical_within within.entry.level within.entry.types.now) kind items.now) }
{
    let mut total: u64 = 0;
    for item in items {
        total = total.saturating_add(item_len(within, kind, item));
    }
    total
}

/// How many bytes items take, each with its tag.
#[cycle(size)]
#[tactic(auto, using(crate::proofs::encoding::SizeLemmas::size_step, crate::proofs::encoding::SizeLemmas::size_done))]
fn records_len(within: Within<'_>, number: u32, kind: Kind, items: &[Item]) -> u64
    requires { AllByRecursion (λ i. IsItem (valid_within within.level within.types.now) kind (out-Item i)) items.now }
    ensures { result ≡ size_of (records_bytes (canonical_within within.entry.level within.entry.types.now) number kind items.now) }
{
    let mut total: u64 = 0;
    for item in items {
        total = total.saturating_add(record_len(within, number, kind, item));
    }
    total
}

/// How many bytes an entry of a map takes: its key and its value.
#[cycle(size)]
#[tactic(auto, using(crate::proofs::encoding::ValidLemmas::entry_item, crate::proofs::encoding::ValidLemmas::entry_key))]
pub(crate) fn entry_len(
    within: Within<'_>,
    scalar: Scalar,
    kind: Kind,
    key: &Key,
    item: &Item,
) -> u64
    requires { (valid_within within.level within.types.now).entry scalar kind (key.now, item.now) }
    ensures { result ≡ size_of (entry_bytes (canonical_within within.entry.level within.entry.types.now) scalar kind (key.now, item.now)) }
{
    let value_len = record_len(within, 2, kind, item);
    tag_len(1, scalar_wire(scalar)).saturating_add(key_len(scalar, key).saturating_add(value_len))
}

/// How many bytes an entry of a map takes with its tag and length.
#[cycle(size)]
fn entry_record_len(
    within: Within<'_>,
    number: u32,
    scalar: Scalar,
    kind: Kind,
    key: &Key,
    item: &Item,
) -> u64
    requires { (valid_within within.level within.types.now).entry scalar kind (key.now, item.now) }
    ensures { result ≡ size_of (entry_record (canonical_within within.entry.level within.entry.types.now) number scalar kind (key.now, item.now)) }
{
    let entry = delimited_len(entry_len(within, scalar, kind, key, item));
    tag_len(number, LEN).saturating_add(entry)
}

/// How many bytes the entries of a map take, each with its tag and length.
#[cycle(size)]
#[tactic(auto, using(crate::proofs::encoding::SizeLemmas::size_step, crate::proofs::encoding::SizeLemmas::size_done))]
fn entries_len(
    within: Within<'_>,
    number: u32,
    scalar: Scalar,
    kind: Kind,
    entries: &[(Key, Item)],
) -> u64
    requires { AllByRecursion ((valid_within within.level within.types.now).entry scalar kind) entries.now }
    ensures { result ≡ size_of (entries_bytes (canonical_within within.entry.level within.entry.types.now) number scalar kind entries.now) }
{
    let mut total: u64 = 0;
    for (key, item) in entries {
        let len = entry_record_len(within, number, scalar, kind, key, item);
        total = total.saturating_add(len);
    }
    total
}

/// How many bytes a list takes, packed or not.
#[cycle(size)]
fn list_len(within: Within<'_>, field: &Field, items: &[Item]) -> u64
    requires { AllByRecursion (λ i. IsItem (valid_within within.level within.types.now) field.now.kind (out-Item i)) items.now }
    ensures { result ≡ size_of (list_bytes (canonical_within within.entry.level within.entry.types.now) field.now items.now) }
{
    if field.packed {
        let items = delimited_len(items_len(within, field.kind, items));
        return tag_len(field.number, LEN).saturating_add(items);
    }
    records_len(within, field.number, field.kind, items)
}

/// How many bytes a slot takes.
#[cycle(size)]
fn slot_len(within: Within<'_>, field: &Field, slot: &Slot) -> u64
    requires { IsSlot (valid_within within.level within.types.now) field.now field.now.shape (out-Slot slot.now) }
    ensures { result ≡ size_of (slot_bytes (canonical_within within.entry.level within.entry.types.now) field.now field.now.shape (out-Slot slot.now)) }
{
    match (field.shape, slot) {
        (Shape::Single, Slot::One(item)) => { record_len(within, field.number, field.kind, item) }
        (Shape::Member(_), Slot::One(item)) => {
            record_len(within, field.number, field.kind, item)
        }
        (Shape::Many, Slot::Many(items)) => list_len(within, field, items.as_slice()),
        (Shape::Map(scalar), Slot::Pairs(pairs)) => {
            entries_len(within, field.number, scalar, field.kind, pairs.entries())
        }
        _ => unreachable!(),
    }
}

/// How many bytes the slot of a number takes.
#[cycle(size)]
fn field_len(within: Within<'_>, fields: &[Field], number: u32, slot: &Slot) -> u64
    requires { IsFieldSlot (valid_within within.level within.types.now) (field_in fields.now number) slot.now }
    ensures { result ≡ size_of (field_bytes (canonical_within within.entry.level within.entry.types.now) (field_in fields.now number) slot.now) }
{
    match find_field(fields, number) {
        Some(field) => slot_len(within, field, slot),
        None => unreachable!(),
    }
}

/// How many bytes slots take.
#[cycle(size)]
#[tactic(auto, using(crate::proofs::encoding::SizeLemmas::size_step, crate::proofs::encoding::SizeLemmas::size_done))]
fn slots_len(within: Within<'_>, fields: &[Field], slots: &[(u32, Slot)]) -> u64
    requires { AreFieldSlots (valid_within within.level within.types.now) fields.now slots.now }
    ensures { result ≡ size_of (slots_bytes (canonical_within within.entry.level within.entry.types.now) fields.now slots.now) }
{
    let mut total: u64 = 0;
    for (number, slot) in slots {
        total = total.saturating_add(field_len(within, fields, *number, slot));
    }
    total
}

/// How many bytes a message of so many levels takes.
#[cycle(size)]
#[tactic(auto, using(crate::proofs::encoding::ValidLemmas::message_slots))]
pub(crate) fn message_len(within: Within<'_>, id: TypeId, value: &Value) -> u64
    requires { (valid_within within.level within.types.now).message id value.now }
    ensures { result ≡ size_of (canonical_within within.entry.level within.entry.types.now id value.now) }
{
    if within.level == 0 {
        return 0;
    }
    let inner = Within {
        types: within.types,
        level: within.level - 1,
    };
    slots_len(inner, within.types.fields(id), value.fields())
}

/// How many canonical bytes a valid value of the type has; the last number of 64 bits where there
/// are more. Takes no memory.
#[tactic(auto, unfolding(crate::specs::CanonicalBytes::canonical_bytes))]
pub fn encoded_len(types: &Types, id: TypeId, value: &Value) -> u64
    requires { IsValid types.now id value.now }
    ensures { result ≡ size_of (canonical_bytes types.now id value.now) }
{
    let within = Within {
        types,
        level: MAX_LEVELS,
    };
    message_len(within, id, value)
}
