//! Canonical bytes (the encoding guide): fields by rising number, shortest varints, lists packed as
//! declared, entries of maps by rising key.
ghost use Rattle.std.specs.Prelude.{◌≡◌, ◌++◌, ℕ, List, length, OnOk, OnErr};
ghost use Rattle.std.specs.List.{AllByRecursion};
ghost use Rattle.schema.specs.Validity.{IsScalarItem, IsItem, IsSlot, IsFieldSlot, AreFieldSlots, IsValid, key_item, valid_within};
ghost use Rattle.message_types.specs.Types.{field_in};
ghost use Rattle.schema.specs.declared.value.Item.{out-Item};
ghost use Rattle.schema.specs.declared.value.Slot.{out-Slot};
ghost use Rattle.wire_format.specs.CanonicalBytes.{canonical_within, canonical_bytes, truth_bytes, key_bytes, item_bytes, record_bytes, entry_bytes, entry_record, slot_bytes, field_bytes, entries_bytes, items_bytes, records_bytes, list_bytes, slots_bytes};
ghost use Rattle.wire_records.specs.RecordBytes.{delimited};
ghost use Rattle.base.specs.Extends.{Extends};
ghost use Rattle.wire_format.specs.Sizes.{size_of};
ghost use Rattle.wire_records.specs.Varint.{varint};

use crate::numbers::put_number;
use crate::sizes::{entry_len, items_len, message_len, scalar_wire, wire_of};
use crate::within::Within;
use base::{NoMemory, cut_back};
use schema::{
    Field, Item, Key, Kind, MAX_LEVELS, Scalar, Shape, Slot, TypeId, Types, Value, find_field,
};
use wire_records::{LEN, put_delimited, put_tag, put_varint};

/// Appends the length of bytes that follow. No memory holds as many as 64 bits cannot tell.
fn put_len(out: &mut Vec<u8>, len: u64) -> Result<(), NoMemory>
    ensures ok { OnOk result ((bytes : List ℕ) → len ≡ size_of bytes → out.new.items ≡ out.old.items ++ varint (length bytes)) }
    ensures err { OnErr result (Extends out.old.items out.new.items) }
{
    if len == u64::MAX {
        return Err(NoMemory);
    }
    put_varint(out, len)
}

/// Appends a truth value.
fn put_truth(out: &mut Vec<u8>, truth: bool) -> Result<(), NoMemory>
    ensures ok { OnOk result (out.new.items ≡ out.old.items ++ truth_bytes truth) }
    ensures err { OnErr result (Extends out.old.items out.new.items) }
{
    out.push(u8::from(truth))?;
    Ok(())
}

/// Appends the key of an entry, behind its tag.
fn put_key(out: &mut Vec<u8>, scalar: Scalar, key: &Key) -> Result<(), NoMemory>
    requires { IsScalarItem scalar (key_item key.now) }
    ensures ok { OnOk result (out.new.items ≡ out.old.items ++ key_bytes scalar key.now) }
    ensures err { OnErr result (Extends out.old.items out.new.items) }
{
    match key {
        Key::Number(number) => put_number(out, scalar, *number),
        Key::Truth(truth) => put_truth(out, *truth),
        Key::Text(text) => put_delimited(out, text.as_str().as_bytes()),
    }
}

/// Appends an item, behind its tag.
#[cycle(put)]
fn put_item(out: &mut Vec<u8>, within: Within<'_>, kind: Kind, item: &Item) -> Result<(), NoMemory>
    requires { IsItem (valid_within within.level within.types.now) kind (out-Item item.now) }
    ensures ok { OnOk result (out.new.items ≡ out.old.items ++ item_bytes (canonical_within within.entry.level within.entry.types.now) kind (out-Item item.now)) }
    ensures err { OnErr result (Extends out.old.items out.new.items) }
{
    match (kind, item) {
        (Kind::One(scalar), Item::Number(number)) => put_number(out, scalar, *number),
        (Kind::One(_), Item::Truth(truth)) => put_truth(out, *truth),
        (Kind::One(_), Item::Text(text)) => put_delimited(out, text.as_str().as_bytes()),
        (Kind::One(_), Item::Bytes(bytes)) => put_delimited(out, bytes.as_slice()),
        (Kind::Message(id), Item::Message(value)) => put_inner(out, within, id, value),
        _ => Ok(()),
    }
}

/// Appends a message behind its length.
#[cycle(put)]
fn put_inner(
    out: &mut Vec<u8>,
    within: Within<'_>,
    id: TypeId,
    value: &Value,
) -> Result<(), NoMemory>
    requires { (valid_within within.level within.types.now).message id value.now }
    ensures ok { OnOk result (out.new.items ≡ out.old.items ++ delimited (canonical_within within.entry.level within.entry.types.now id value.now)) }
    ensures err { OnErr result (Extends out.old.items out.new.items) }
{
    put_len(out, message_len(within, id, value))?;
    put_message(out, within, id, value)
}

/// Appends an item with its tag.
#[cycle(put)]
fn put_record(
    out: &mut Vec<u8>,
    within: Within<'_>,
    number: u32,
    kind: Kind,
    item: &Item,
) -> Result<(), NoMemory>
    requires { IsItem (valid_within within.level within.types.now) kind (out-Item item.now) }
    ensures ok { OnOk result (out.new.items ≡ out.old.items ++ record_bytes (canonical_within within.entry.level within.entry.types.now) number kind item.now) }
    ensures err { OnErr result (Extends out.old.items out.new.items) }
{
    put_tag(out, number, wire_of(kind))?;
    put_item(out, within, kind, item)
}

/// Appends items without tags.
#[cycle(put)]
fn put_items(
    out: &mut Vec<u8>,
    within: Within<'_>,
    kind: Kind,
    items: &[Item],
) -> Result<(), NoMemory>
    requires { AllByRecursion (λ i. IsItem (valid_within within.level within.types.now) kind (out-Item i)) items.now }
    ensures ok { OnOk result (out.new.items ≡ out.old.items ++ items_bytes (canonical_within within.entry.level within.entry.types.now) kind items.now) }
    ensures err { OnErr result (Extends out.old.items out.new.items) }
{
    for item in items {
        put_item(out, within, kind, item)?;
    }
    Ok(())
}

/// Appends items, each with its tag.
#[cycle(put)]
fn put_records(
    out: &mut Vec<u8>,
    within: Within<'_>,
    number: u32,
    kind: Kind,
    items: &[Item],
) -> Result<(), NoMemory>
    requires { AllByRecursion (λ i. IsItem (valid_within within.level within.types.now) kind (out-Item i)) items.now }
    ensures ok { OnOk result (out.new.items ≡ out.old.items ++ records_bytes (canonical_within within.entry.level within.entry.types.now) number kind items.now) }
    ensures err { OnErr result (Extends out.old.items out.new.items) }
{
    for item in items {
        put_record(out, within, number, kind, item)?;
    }
    Ok(())
}

/// Appends the key and the value of an entry.
#[cycle(put)]
#[tactic(auto, using(crate::proofs::encoding::ValidLemmas::entry_item, crate::proofs::encoding::ValidLemmas::entry_key))]
fn put_pair(
    out: &mut Vec<u8>,
    within: Within<'_>,
    scalar: Scalar,
    kind: Kind,
    key: &Key,
    item: &Item,
) -> Result<(), NoMemory>
    requires { (valid_within within.level within.types.now).entry scalar kind (key.now, item.now) }
    ensures ok { OnOk result (out.new.items ≡ out.old.items ++ entry_bytes (canonical_within within.entry.level within.entry.types.now) scalar kind (key.now, item.now)) }
    ensures err { OnErr result (Extends out.old.items out.new.items) }
{
    put_tag(out, 1, scalar_wire(scalar))?;
    put_key(out, scalar, key)?;
    put_record(out, within, 2, kind, item)
}

/// Appends an entry of a map with its tag and length.
#[cycle(put)]
fn put_entry(
    out: &mut Vec<u8>,
    within: Within<'_>,
    number: u32,
    scalar: Scalar,
    kind: Kind,
    key: &Key,
    item: &Item,
) -> Result<(), NoMemory>
    requires { (valid_within within.level within.types.now).entry scalar kind (key.now, item.now) }
    ensures ok { OnOk result (out.new.items ≡ out.old.items ++ entry_record (canonical_within within.entry.level within.entry.types.now) number scalar kind (key.now, item.now)) }
    ensures err { OnErr result (Extends out.old.items out.new.items) }
{
    put_tag(out, number, LEN)?;
    put_len(out, entry_len(within, scalar, kind, key, item))?;
    put_pair(out, within, scalar, kind, key, item)
}

/// Appends the entries of a map.
#[cycle(put)]
fn put_entries(
    out: &mut Vec<u8>,
    within: Within<'_>,
    number: u32,
    scalar: Scalar,
    kind: Kind,
    entries: &[(Key, Item)],
) -> Result<(), NoMemory>
    requires { AllByRecursion ((valid_within within.level within.types.now).entry scalar kind) entries.now }
    ensures ok { OnOk result (out.new.items ≡ out.old.items ++ entries_bytes (canonical_within within.entry.level within.entry.types.now) number scalar kind entries.now) }
    ensures err { OnErr result (Extends out.old.items out.new.items) }
{
    for (key, item) in entries {
        put_entry(out, within, number, scalar, kind, key, item)?;
    }
    Ok(())
}

/// Appends a list, packed or not.
#[cycle(put)]
fn put_list(
    out: &mut Vec<u8>,
    within: Within<'_>,
    field: &Field,
    items: &[Item],
) -> Result<(), NoMemory>
    requires { AllByRecursion (λ i. IsItem (valid_within within.level within.types.now) field.now.kind (out-Item i)) items.now }
    ensures ok { OnOk result (out.new.items ≡ out.old.items ++ list_bytes (canonical_within within.entry.level within.entry.types.now) field.now items.now) }
    ensures err { OnErr result (Extends out.old.items out.new.items) }
{
    if field.packed {
        put_tag(out, field.number, LEN)?;
        put_len(out, items_len(within, field.kind, items))?;
        return put_items(out, within, field.kind, items);
    }
    put_records(out, within, field.number, field.kind, items)
}

/// Appends a slot.
#[cycle(put)]
fn put_slot(
    out: &mut Vec<u8>,
    within: Within<'_>,
    field: &Field,
    slot: &Slot,
) -> Result<(), NoMemory>
    requires { IsSlot (valid_within within.level within.types.now) field.now field.now.shape (out-Slot slot.now) }
    ensures ok { OnOk result (out.new.items ≡ out.old.items ++ slot_bytes (canonical_within within.entry.level within.entry.types.now) field.now field.now.shape (out-Slot slot.now)) }
    ensures err { OnErr result (Extends out.old.items out.new.items) }
{
    let (number, kind) = (field.number, field.kind);
    match (field.shape, slot) {
        (Shape::Single, Slot::One(item)) => put_record(out, within, number, kind, item),
        (Shape::Member(_), Slot::One(item)) => put_record(out, within, number, kind, item),
        (Shape::Many, Slot::Many(items)) => put_list(out, within, field, items.as_slice()),
        (Shape::Map(scalar), Slot::Pairs(pairs)) => {
            put_entries(out, within, number, scalar, kind, pairs.entries())
        }
        _ => unreachable!(),
    }
}

/// Appends the slot of a field that its number has.
#[cycle(put)]
fn put_field(
    out: &mut Vec<u8>,
    within: Within<'_>,
    fields: &[Field],
    number: u32,
    slot: &Slot,
) -> Result<(), NoMemory>
    requires { IsFieldSlot (valid_within within.level within.types.now) (field_in fields.now number) slot.now }
    ensures ok { OnOk result (out.new.items ≡ out.old.items ++ field_bytes (canonical_within within.entry.level within.entry.types.now) (field_in fields.now number) slot.now) }
    ensures err { OnErr result (Extends out.old.items out.new.items) }
{
    match find_field(fields, number) {
        Some(field) => put_slot(out, within, field, slot),
        None => unreachable!(),
    }
}

/// Appends slots in order.
#[cycle(put)]
fn put_slots(
    out: &mut Vec<u8>,
    within: Within<'_>,
    fields: &[Field],
    slots: &[(u32, Slot)],
) -> Result<(), NoMemory>
    requires { AreFieldSlots (valid_within within.level within.types.now) fields.now slots.now }
    ensures ok { OnOk result (out.new.items ≡ out.old.items ++ slots_bytes (canonical_within within.entry.level within.entry.types.now) fields.now slots.now) }
    ensures err { OnErr result (Extends out.old.items out.new.items) }
{
    for (number, slot) in slots {
        put_field(out, within, fields, *number, slot)?;
    }
    Ok(())
}

/// Appends a message of so many levels.
#[cycle(put)]
#[tactic(auto, using(crate::proofs::encoding::ValidLemmas::message_slots))]
fn put_message(
    out: &mut Vec<u8>,
    within: Within<'_>,
    id: TypeId,
    value: &Value,
) -> Result<(), NoMemory>
    requires { (valid_within within.level within.types.now).message id value.now }
    ensures ok { OnOk result (out.new.items ≡ out.old.items ++ canonical_within within.entry.level within.entry.types.now id value.now) }
    ensures err { OnErr result (Extends out.old.items out.new.items) }
{
    if within.level == 0 {
        return Ok(());
    }
    let inner = Within {
        types: within.types,
        level: within.level - 1,
    };
    put_slots(out, inner, within.types.fields(id), value.fields())
}

/// Appends the canonical bytes of a valid value of the type; `out` is as before where no memory is
/// found.
#[tactic(auto, unfolding(crate::specs::CanonicalBytes::canonical_bytes))]
pub fn encode(types: &Types, id: TypeId, value: &Value, out: &mut Vec<u8>) -> Result<(), NoMemory>
    requires valid { IsValid types.now id value.now }
    ensures ok { OnOk result (out.new.items ≡ out.old.items ++ canonical_bytes types.now id value.now) }
    ensures err { OnErr result (out.new.items ≡ out.old.items) }
{
    let len = out.len();
    let within = Within {
        types,
        level: MAX_LEVELS,
    };
    let done = put_message(out, within, id, value);
    cut_back(out, len, done)
}
