//! Slots of what was read.
ghost use Rattle.std.specs.Prelude.{◌≡◌, map, option_map, unwrap_or, OnOk};
ghost use Rattle.schema.specs.Pairs.{entries_of};
ghost use Rattle.schema.specs.Value.{slots_of};
ghost use Rattle.schema.specs.declared.value.Item.{out-Item};
ghost use Rattle.wire_format.specs.FieldValues.{many as many_slot, entries_slot, with_some, default_item as default_layer};

use crate::scalars::default_item;
use base::{List, NoMemory};
use schema::{Item, Kind, Pairs, Slot, Types, Value};
use std::alloc::Global;

/// The item, or the default of its kind.
pub(crate) fn or_default(alloc: Global, types: &Types, kind: Kind, item: Option<Item>) -> Item
    ensures { out-Item result ≡ unwrap_or (option_map out-Item item) (default_layer types.now kind) }
{
    match item {
        Some(item) => item,
        None => default_item(alloc, types, kind),
    }
}

/// The slot of a list: none for the empty one.
pub(crate) fn many(items: List<Item>) -> Option<Slot>
    ensures { result ≡ many_slot (map out-Item items) }
{
    if items.is_empty() {
        return None;
    }
    Some(Slot::Many(items))
}

/// The slot of a map: none for the empty one.
pub(crate) fn entries(pairs: Pairs) -> Option<Slot>
    ensures { result ≡ entries_slot (entries_of pairs) }
{
    if pairs.len() == 0 {
        return None;
    }
    Some(Slot::Pairs(pairs))
}

/// Puts a slot under its number, where there is one.
pub(crate) fn put(value: &mut Value, number: u32, slot: Option<Slot>) -> Result<(), NoMemory>
    ensures { OnOk result (slots_of value.new ≡ with_some (slots_of value.old) number slot) }
{
    match slot {
        Some(slot) => value.set(number, slot),
        None => Ok(()),
    }
}
