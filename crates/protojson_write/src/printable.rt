//! Whether a value has a text: where each timestamp, duration and field mask in it has one. Takes no memory.
ghost use Rattle.std.specs.Prelude.{◌≡◌};
ghost use Rattle.std.specs.List.{flat_map};
ghost use Rattle.std.specs.Option.{is_some, option_copied};
ghost use Rattle.known_types.specs.KnownTexts.{known_text};
ghost use Rattle.message_types.specs.declared.fields.Kind.TheVariants.{Message as MessageOf};
ghost use Rattle.schema.specs.declared.key.Key.{Key as KeyOf};
ghost use Rattle.schema.specs.declared.value.Item.{out-Item, Item as ItemOf};
ghost use Rattle.schema.specs.declared.value.Slot.{out-Slot};
ghost use Rattle.protojson_write.specs.JsonOutput.{field_text, text_of};
ghost use Rattle.protojson_write.specs.KnownParts.{field_parts, have_texts, item_parts, parts_within, slot_parts, slots_parts};

use crate::known::find_known;
use field_index::{IndexedFields, IndexedTypes};
use known_types::is_printable;
use schema::{Field, Item, Key, Kind, Known, MAX_LEVELS, Slot, TypeId, Value};

/// True where the parts of an item of a message type have texts.
#[cycle(walk)]
fn is_item_printable(types: &IndexedTypes<'_>, levels: u32, id: TypeId, item: &Item) -> bool
    ensures { result ≡ have_texts known_text
        (item_parts (parts_within levels types.now) (MessageOf id) (out-Item item.now)) }
{
    match item {
        Item::Message(value) => is_message_printable(types, levels, id, value),
        _ => true,
    }
}

/// True where the parts of each item of a list have texts.
#[cycle(walk)]
fn are_items_printable(types: &IndexedTypes<'_>, levels: u32, id: TypeId, items: &[Item]) -> bool
    ensures { result ≡ have_texts known_text
        (flat_map (λ i. item_parts (parts_within levels types.now) (MessageOf id) (out-Item i)) items.now) }
{
    for item in items {
        if !is_item_printable(types, levels, id, item) {
            return false;
        }
    }
    true
}

/// True where the parts of the value of each entry of a map have texts.
#[cycle(walk)]
fn are_entries_printable(
    types: &IndexedTypes<'_>,
    levels: u32,
    id: TypeId,
    entries: &[(Key, Item)],
) -> bool
    ensures { result ≡ have_texts known_text
        (flat_map (λ (e : KeyOf × ItemOf). item_parts (parts_within levels types.now) (MessageOf id) (out-Item e.1))
        entries.now) }
{
    for (_, item) in entries {
        if !is_item_printable(types, levels, id, item) {
            return false;
        }
    }
    true
}

/// True where the parts of a slot have texts. No scalar is one.
#[cycle(walk)]
fn is_slot_printable(types: &IndexedTypes<'_>, levels: u32, kind: Kind, slot: &Slot) -> bool
    ensures { result ≡ have_texts known_text (slot_parts (parts_within levels types.now) kind (out-Slot slot.now)) }
{
    let Kind::Message(id) = kind else { return true };
    match slot {
        Slot::One(item) => is_item_printable(types, levels, id, item),
        Slot::Many(items) => are_items_printable(types, levels, id, items.as_slice()),
        Slot::Pairs(pairs) => are_entries_printable(types, levels, id, pairs.entries()),
    }
}

/// True where the parts of a slot of a field have texts.
#[cycle(walk)]
fn is_field_printable(
    types: &IndexedTypes<'_>,
    levels: u32,
    field: Option<&Field>,
    slot: &Slot,
) -> bool
    ensures { result ≡ have_texts known_text
        (field_parts (parts_within levels types.now) (option_copied field.entry) slot.now) }
{
    match field {
        Some(field) => is_slot_printable(types, levels, field.kind, slot),
        None => true,
    }
}

/// True where the parts of each slot have texts.
#[cycle(walk)]
fn are_slots_printable(
    types: &IndexedTypes<'_>,
    levels: u32,
    fields: &IndexedFields<'_>,
    slots: &[(u32, Slot)],
) -> bool
    ensures { result ≡ have_texts known_text (slots_parts (parts_within levels types.now) fields.now slots.now) }
{
    for (number, slot) in slots {
        if !is_field_printable(types, levels, fields.by_number(*number), slot) {
            return false;
        }
    }
    true
}

/// True where the parts of a message of so many levels have texts: the message itself, where it is written as one.
#[cycle(walk)]
fn is_message_printable(types: &IndexedTypes<'_>, levels: u32, id: TypeId, value: &Value) -> bool
    ensures { result ≡ have_texts known_text (parts_within levels types.now id value.now) }
{
    if levels == 0 {
        return true;
    }
    match find_known(types, id) {
        Known::Plain => are_slots_printable(types, levels - 1, types.fields(id), value.fields()),
        Known::Wrapper => are_slots_printable(types, levels - 1, types.fields(id), value.fields()),
        known => is_printable(known, value),
    }
}

/// True where one field alone, with its slot or without, has a text.
fn is_part_printable(types: &IndexedTypes<'_>, field: Option<&Field>, slot: Option<&Slot>) -> bool
    ensures { result ≡ is_some
        (field_text known_text 99 types.now (option_copied field.entry) (option_copied slot.entry)) }
{
    match (field, slot) {
        (None, _) => false,
        (Some(_), None) => true,
        (Some(field), Some(slot)) => { is_slot_printable(types, MAX_LEVELS - 1, field.kind, slot) }
    }
}

/// True where a value of the type, or its one field of the number `part`, has a text.
pub(crate) fn has_text(
    types: &IndexedTypes<'_>,
    id: TypeId,
    part: Option<u32>,
    value: &Value,
) -> bool
    ensures { result ≡ is_some (text_of types.now id part value.now) }
{
    match part {
        None => is_message_printable(types, MAX_LEVELS, id, value),
        Some(number) => {
            is_part_printable(types, types.fields(id).by_number(number), value.get(number))
        }
    }
}
