//! Where a value stands, and what it comes to there.
ghost use Rattle.std.specs.Prelude.{◌≡◌, IfOk};
ghost use Rattle.json_meanings.specs.JsonDenotes.{item_by, object_value, slot_by};
ghost use Rattle.json_meanings.specs.PartialMessages.{listed, mapped, stored};
ghost use Rattle.schema.specs.Pairs.{entries_of};
ghost use Rattle.protojson_read.specs.MessageSeen.{form_seen};
ghost use Rattle.protojson_read.specs.SpotsSeen.{filled_seen, object_seen};
ghost use Rattle.schema.specs.declared.value.Item.{out-Item};

use crate::entries::MapEntries;
use crate::partial_message::{FieldForm, PartialMessage};
use base::{List, NoMemory};
use schema::{Item, Key, Kind, Pairs, Presence, Scalar, Slot, TypeId, is_default};
use std::alloc::Global;

/// An array that is open.
#[derive(Drop)]
pub(crate) struct OpenArray {
    /// How many levels are left for its items.
    pub(crate) levels: u8,
    /// The kind of its items.
    pub(crate) kind: Kind,
    /// The items that came.
    pub(crate) items: List<Item>,
}

/// An object that is open, with how many levels are left for what is inside.
#[derive(Drop)]
pub(crate) enum OpenObject {
    /// A message of the type.
    Message(u8, TypeId, PartialMessage),
    /// The entries of a map, with keys and values of these kinds.
    Map(u8, Scalar, Kind, MapEntries),
}

/// Where a value stands, with how many levels are left for it.
#[derive(Drop)]
pub(crate) enum Spot {
    /// Alone, as a message of the type.
    Whole(u8, TypeId),
    /// Alone, as one field.
    Part(u8, FieldForm),
    /// Behind a key of a message, which names the field.
    Member(u8, TypeId, PartialMessage, FieldForm),
    /// Behind a key of a map.
    Entry(u8, Scalar, Kind, MapEntries, Key),
    /// In an array.
    Element(OpenArray),
}

/// What a value comes to.
#[derive(Drop)]
pub(crate) enum Filled {
    /// Nothing: null.
    Unset,
    /// One item.
    Single(Item),
    /// The items of an array.
    Many(List<Item>),
    /// The entries of a map.
    Pairs(Pairs),
}

/// The slot of a single item, unless it is a default that is not stored.
fn stored_item(presence: Presence, item: Item) -> Option<Slot>
    ensures { result ≡ stored presence (out-Item item) }
{
    match presence {
        Presence::Implicit if is_default(&item) => None,
        _ => Some(Slot::One(item)),
    }
}

/// The slot of an array, unless it is empty.
fn listed(items: List<Item>) -> Option<Slot>
    ensures { result ≡ listed items }
{
    if items.is_empty() {
        None
    } else {
        Some(Slot::Many(items))
    }
}

/// The slot of a map, unless it is empty.
fn mapped(pairs: Pairs) -> Option<Slot>
    ensures { result ≡ mapped (entries_of pairs) }
{
    if pairs.len() == 0 {
        None
    } else {
        Some(Slot::Pairs(pairs))
    }
}

/// The slot of a field that was filled so.
pub(crate) fn slot_of(form: FieldForm, filled: Filled) -> Option<Slot>
    ensures { result ≡ slot_by (form_seen form) (filled_seen filled) }
{
    match filled {
        Filled::Unset => None,
        Filled::Single(item) => stored_item(form.presence, item),
        Filled::Many(items) => listed(items),
        Filled::Pairs(pairs) => mapped(pairs),
    }
}

/// The one item of what fills a spot.
pub(crate) fn item_of(filled: Filled) -> Item
    ensures { out-Item result ≡ item_by (filled_seen filled) }
{
    match filled {
        Filled::Single(item) => item,
        // Nothing else fills a spot that wants an item.
        _ => Item::Truth(false),
    }
}

/// What an object comes to at its end.
pub(crate) fn object_value(alloc: Global, object: OpenObject) -> Result<Filled, NoMemory>
    ensures { IfOk result (λ x. filled_seen x ≡ object_value (object_seen object)) }
{
    match object {
        OpenObject::Message(_, _, message) => Ok(Filled::Single(Item::Message(
            message.into_value(),
        ))),
        OpenObject::Map(_, _, _, entries) => Ok(Filled::Pairs(entries.into_pairs(alloc)?)),
    }
}
