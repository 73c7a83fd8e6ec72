//! Whether a value is one that a message type has.
ghost use Rattle.std.specs.Prelude.{◌≡◌, ◌↔◌, IsTrue, nat_eq};
ghost use Rattle.std.specs.List.{AllByRecursion};
ghost use Rattle.schema.specs.Apart.{AreApart};
ghost use Rattle.schema.specs.Pairs.{entries_of, KeysRise};
ghost use Rattle.message_types.specs.Types.{field_in};
ghost use Rattle.schema.specs.Value.{RiseFrom, slots_of};
ghost use Rattle.schema.specs.Validity.{IsScalarItem, is_default as is_default_item, IsStored, IsItem, IsMapOf, IsSlot, key_item, oneof_of, oneofs_in, IsFreeOneof, AreFieldSlots, valid_within, IsValid};
ghost use Rattle.schema.specs.declared.value.Item.TheOpen.{Number};
ghost use Rattle.schema.specs.declared.value.Item.{out-Item};
ghost use Rattle.schema.specs.declared.value.Slot.{out-Slot};

use crate::key::Key;
use crate::value::{Item, Pairs, Slot, Value};
use message_types::{Field, Kind, MAX_LEVELS, Presence, Scalar, Shape, TypeId, Types, find_field};

/// True where the number is one of the scalar kind, in its range.
fn is_number(scalar: Scalar, number: i128) -> bool
    ensures { IsTrue result ↔ IsScalarItem scalar (Number number) }
{
    match scalar {
        Scalar::Int32 | Scalar::Sint32 | Scalar::Sfixed32 | Scalar::Enumeration(_) => {
            -(1 << 31) <= number && number < 1 << 31
        }
        Scalar::Int64 | Scalar::Sint64 | Scalar::Sfixed64 => {
            -(1 << 63) <= number && number < 1 << 63
        }
        Scalar::Uint32 | Scalar::Fixed32 => 0 <= number && number < 1 << 32,
        Scalar::Uint64 | Scalar::Fixed64 => 0 <= number && number < 1 << 64,
        _ => false,
    }
}

/// True where the item is a value of the scalar kind.
fn is_scalar(scalar: Scalar, item: &Item) -> bool
    ensures { IsTrue result ↔ IsScalarItem scalar (out-Item item.now) }
{
    match (scalar, item) {
        (_, Item::Number(number)) => is_number(scalar, *number),
        (Scalar::Bool, Item::Truth(_)) => true,
        (Scalar::Text, Item::Text(text)) => {
            let _text = text.as_str();
            true
        }
        (Scalar::Bytes, Item::Bytes(_)) => true,
        _ => false,
    }
}

/// True where the key is a value of the scalar kind.
fn is_key(scalar: Scalar, key: &Key) -> bool
    ensures { IsTrue result ↔ IsScalarItem scalar (key_item key.now) }
{
    match (scalar, key) {
        (_, Key::Number(number)) => is_number(scalar, *number),
        (Scalar::Bool, Key::Truth(_)) => true,
        (Scalar::Text, Key::Text(text)) => {
            let _text = text.as_str();
            true
        }
        _ => false,
    }
}

/// True where the item is its kind's default.
pub fn is_default(item: &Item) -> bool
    ensures { result ≡ is_default_item (out-Item item.now) }
{
    match item {
        Item::Number(number) => *number == 0,
        Item::Truth(truth) => !*truth,
        Item::Text(text) => text.is_empty(),
        Item::Bytes(bytes) => bytes.is_empty(),
        Item::Message(_) => false,
    }
}

/// True where the item may be stored under this presence.
fn is_stored(presence: Presence, item: &Item) -> bool
    ensures { IsTrue result ↔ IsStored presence (out-Item item.now) }
{
    match presence {
        Presence::Implicit => !is_default(item),
        Presence::Explicit => true,
    }
}

/// True where the keys rise, each above the one before.
fn do_keys_rise(entries: &[(Key, Item)]) -> bool
    ensures { IsTrue result ↔ KeysRise entries.now }
{
    let Some((first, rest)) = entries.split_first() else {
        return true;
    };
    let mut low = &first.0;
    for (key, _) in rest {
        if !low.cmp(key).is_lt() {
            return false;
        }
        low = key;
    }
    true
}

/// True where the item is a value of the kind, of so many levels.
#[cycle(valid)]
fn is_item(types: &Types, kind: Kind, item: &Item, level: u32) -> bool
    ensures { IsTrue result ↔ IsItem (valid_within level types.now) kind (out-Item item.now) }
{
    match (kind, item) {
        (Kind::One(scalar), _) => is_scalar(scalar, item),
        (Kind::Message(id), Item::Message(value)) => is_message(types, id, value, level),
        _ => false,
    }
}

/// True where each item is a value of the kind.
#[cycle(valid)]
fn are_items(types: &Types, kind: Kind, items: &[Item], level: u32) -> bool
    ensures { IsTrue result ↔ AllByRecursion (λ i. IsItem (valid_within level types.now) kind (out-Item i)) items.now }
{
    for item in items {
        if !is_item(types, kind, item, level) {
            return false;
        }
    }
    true
}

/// True where the entry of a map has a key and a value of these kinds.
#[cycle(valid)]
#[tactic(auto, unfolding(crate::specs::Validity::valid_within))]
fn is_entry(types: &Types, scalar: Scalar, kind: Kind, key: &Key, item: &Item, level: u32) -> bool
    ensures { IsTrue result ↔ (valid_within level types.now).entry scalar kind (key.now, item.now) }
{
    if level == 0 {
        return false;
    }
    is_key(scalar, key) && is_item(types, kind, item, level - 1)
}

/// True where each entry of a map has a key and a value of these kinds.
#[cycle(valid)]
fn are_entries(
    types: &Types,
    scalar: Scalar,
    kind: Kind,
    entries: &[(Key, Item)],
    level: u32,
) -> bool
    ensures { IsTrue result ↔ AllByRecursion ((valid_within level types.now).entry scalar kind) entries.now }
{
    for (key, item) in entries {
        if !is_entry(types, scalar, kind, key, item, level) {
            return false;
        }
    }
    true
}

/// True where the slot fits the field.
#[cycle(valid)]
fn is_slot(types: &Types, field: &Field, slot: &Slot, level: u32) -> bool
    ensures { IsTrue result ↔ IsSlot (valid_within level types.now) field.now field.now.shape (out-Slot slot.now) }
{
    match (field.shape, slot) {
        (Shape::Single, Slot::One(item)) => {
            is_item(types, field.kind, item, level) && is_stored(field.presence, item)
        }
        (Shape::Member(_), Slot::One(item)) => {
            is_item(types, field.kind, item, level) && is_stored(field.presence, item)
        }
        (Shape::Many, Slot::Many(items)) => {
            !items.is_empty() && are_items(types, field.kind, items.as_slice(), level)
        }
        (Shape::Map(scalar), Slot::Pairs(pairs)) => {
            is_map(types, scalar, field.kind, pairs, level)
        }
        _ => false,
    }
}

/// True where the entries fit a map field.
#[cycle(valid)]
fn is_map(types: &Types, scalar: Scalar, kind: Kind, pairs: &Pairs, level: u32) -> bool
    ensures { IsTrue result ↔ IsMapOf (valid_within level types.now) scalar kind (entries_of pairs.now) }
{
    let entries = pairs.entries.as_slice();
    !entries.is_empty() && do_keys_rise(entries) && are_entries(types, scalar, kind, entries, level)
}

/// True where each number is a field's, and its slot fits that.
#[cycle(valid)]
fn are_slots(types: &Types, fields: &[Field], slots: &[(u32, Slot)], level: u32) -> bool
    ensures { IsTrue result ↔ AreFieldSlots (valid_within level types.now) fields.now slots.now }
{
    for (number, slot) in slots {
        match find_field(fields, *number) {
            Some(field) => {
                if !is_slot(types, field, slot, level) {
                    return false;
                }
            }
            None => return false,
        }
    }
    true
}

/// True where the value is one of the message type, of so many levels.
#[cycle(valid)]
#[tactic(auto, unfolding(crate::specs::Validity::valid_within))]
fn is_message(types: &Types, id: TypeId, value: &Value, level: u32) -> bool
    ensures { IsTrue result ↔ (valid_within level types.now).message id value.now }
{
    if level == 0 {
        return false;
    }
    let (fields, slots) = (types.fields(id), value.fields());
    do_numbers_rise(slots)
        && are_slots(types, fields, slots, level - 1)
        && are_oneofs_apart(fields, slots)
}

/// True where the numbers rise from 1.
fn do_numbers_rise(slots: &[(u32, Slot)]) -> bool
    ensures { IsTrue result ↔ RiseFrom 0 slots.now }
{
    let mut low = 0;
    for (number, _) in slots {
        if *number <= low {
            return false;
        }
        low = *number;
    }
    true
}

/// The oneof of which the field with a number is a member.
fn oneof_with(fields: &[Field], number: u32) -> Option<u32>
    ensures { result ≡ oneof_of (field_in fields.now number) }
{
    match find_field(fields, number) {
        Some(field) => match field.shape {
            Shape::Member(oneof) => Some(oneof),
            _ => None,
        },
        None => None,
    }
}

/// True where no slot is of a member of the oneof.
fn is_free_oneof(fields: &[Field], oneof: u32, slots: &[(u32, Slot)]) -> bool
    ensures { IsTrue result ↔ IsFreeOneof fields.now oneof slots.now }
{
    for (number, _) in slots {
        match oneof_with(fields, *number) {
            Some(other) => {
                if oneof == other {
                    return false;
                }
            }
            None => {}
        }
    }
    true
}

/// True where each oneof has one member at most.
fn are_oneofs_apart(fields: &[Field], slots: &[(u32, Slot)]) -> bool
    ensures { IsTrue result ↔ AreApart nat_eq (oneofs_in fields.now slots.now) }
{
    let mut left = slots;
    while let Some((first, rest)) = left.split_first() {
        match oneof_with(fields, first.0) {
            Some(oneof) => {
                if !is_free_oneof(fields, oneof, rest) {
                    return false;
                }
            }
            None => {}
        }
        left = rest;
    }
    true
}

/// True exactly where the value is one that the message type has, of at most 100 levels. A message
/// without messages has one level; a message in it, and an entry of a map, has one more. Takes no
/// memory.
pub fn valid(types: &Types, id: TypeId, value: &Value) -> bool
    ensures { IsTrue result ↔ IsValid types.now id value.now }
{
    is_message(types, id, value, MAX_LEVELS)
}
