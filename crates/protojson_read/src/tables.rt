//! What one token does where a value or a key is wanted (the ProtoJSON guide).
ghost use Rattle.std.specs.Prelude.{◌≡◌, Result};
ghost use Rattle.json_events.specs.ReaderAnswers.{mark_seen};
ghost use Rattle.json_meanings.specs.PartialMessages.{PartialMessage as PartialMessageOf, as_key, entry_key, has_room, is_taken, key_of};
ghost use Rattle.json_meanings.specs.SpotTables.{array_by, as_single, below, entry_at, field_as, fills, inner_as, member_at, names_spot, object_in, opens_array, opens_object, shape_as};
ghost use Rattle.json_meanings.specs.declared.fault.FieldKind.{FieldKind as KindOf};
ghost use Rattle.message_types.specs.Types.{fields_of};
ghost use Rattle.protojson_read.specs.MessageSeen.{entries_seen, form_seen, message_seen};
ghost use Rattle.json_meanings.specs.KnownReadings.{schema_of};
ghost use Rattle.protojson_read.specs.SpotsSeen.{object_seen, spot_seen};
ghost use Rattle.protojson_read.specs.TokenAnswers.{Fills, Gives, GivesArray, GivesKey, GivesObject, Names};
ghost use Rattle.schema.specs.Layers.{ItemLayer};
ghost use Rattle.schema.specs.declared.key.Key.{Key as KeyOf};
ghost use Rattle.schema.specs.declared.value.Item.{out-Item};

use crate::entries::MapEntries;
use crate::kinds::{kind_as, object_by};
use crate::partial_message::{FieldForm, PartialMessage, form_named};
use crate::refusal::Refusal;
use crate::scalar_tokens::text_as;
use crate::spots::{Filled, OpenArray, OpenObject, Spot};
use base::{List, Text};
use field_index::IndexedTypes;
use json_events::Token;
use json_meanings::FieldKind;
use schema::{Item, Key, Kind, Scalar, Shape, TypeId};
use std::alloc::Global;

/// One item fills a spot.
fn as_single(read: Result<Item, Refusal>) -> Result<Filled, Refusal>
    ensures { (r : Result ItemLayer KindOf) → Gives read r → Fills result (as_single r) }
{
    match read {
        Ok(item) => Ok(Filled::Single(item)),
        Err(refusal) => Err(refusal),
    }
}

/// A token without brackets as a field's value, by its shape.
fn shape_as(
    alloc: Global,
    types: &IndexedTypes<'_>,
    levels: u8,
    form: FieldForm,
    token: Token,
) -> Result<Filled, Refusal>
    ensures { Fills result (shape_as (schema_of types.now) levels (form_seen form) form.shape (mark_seen token)) }
{
    match form.shape {
        Shape::Many | Shape::Map(_) => Err(Refusal::Fault(FieldKind::WrongShape)),
        _ => as_single(kind_as(alloc, types, levels, form.kind, token)),
    }
}

/// A token without brackets as a field's value, where another member of its oneof has one or not: null leaves it unset.
fn field_as(
    alloc: Global,
    types: &IndexedTypes<'_>,
    levels: u8,
    taken: bool,
    form: FieldForm,
    token: Token,
) -> Result<Filled, Refusal>
    ensures { (p : PartialMessageOf) → is_taken p form.shape ≡ taken
        → Fills result (field_as (schema_of types.now) levels p (form_seen form) (mark_seen token)) }
{
    match token {
        Token::Null => Ok(Filled::Unset),
        _ if taken => Err(Refusal::Fault(FieldKind::OneofTwice)),
        token => shape_as(alloc, types, levels, form, token),
    }
}

/// A token without brackets as an item of an array or as the value of an entry: null is none.
fn inner_as(
    alloc: Global,
    types: &IndexedTypes<'_>,
    levels: u8,
    kind: Kind,
    token: Token,
) -> Result<Filled, Refusal>
    ensures { Fills result (inner_as (schema_of types.now) levels kind (mark_seen token)) }
{
    match token {
        Token::Null => Err(Refusal::Fault(FieldKind::NullInside)),
        token => as_single(kind_as(alloc, types, levels, kind, token)),
    }
}

/// How many levels are left one level further in.
fn below(levels: u8) -> u8
    ensures { result ≡ below levels }
{
    levels.saturating_sub(1)
}

/// What a token without brackets comes to at a spot.
pub(crate) fn fills(
    alloc: Global,
    types: &IndexedTypes<'_>,
    spot: &Spot,
    token: Token,
) -> Result<Filled, Refusal>
    ensures { Fills result (fills (schema_of types.now) (spot_seen spot.now) (mark_seen token)) }
{
    match spot {
        Spot::Whole(levels, id) => {
            as_single(kind_as(alloc, types, *levels, Kind::Message(*id), token))
        }
        Spot::Part(levels, form) => field_as(alloc, types, *levels, false, *form, token),
        Spot::Member(levels, _, message, form) => {
            field_as(
                alloc,
                types,
                *levels,
                message.is_taken(form.shape),
                *form,
                token,
            )
        }
        Spot::Entry(levels, _, kind, _, _) => inner_as(alloc, types, below(*levels), *kind, token),
        Spot::Element(array) => inner_as(alloc, types, array.levels, array.kind, token),
    }
}

/// The array of a field, by its shape.
fn array_by(alloc: Global, levels: u8, form: FieldForm) -> Result<OpenArray, Refusal>
    ensures { GivesArray result (array_by levels (form_seen form) form.shape) }
{
    match form.shape {
        Shape::Many => Ok(OpenArray {
            levels,
            kind: form.kind,
            items: List::new(alloc),
        }),
        _ => Err(Refusal::Fault(FieldKind::WrongShape)),
    }
}

/// The array that a bracket opens at a spot.
pub(crate) fn opens_array(alloc: Global, spot: &Spot) -> Result<OpenArray, Refusal>
    ensures { GivesArray result (opens_array (spot_seen spot.now)) }
{
    match spot {
        Spot::Part(levels, form) => array_by(alloc, *levels, *form),
        Spot::Member(levels, _, message, form) => if message.is_taken(form.shape) {
            Err(Refusal::Fault(FieldKind::OneofTwice))
        } else {
            array_by(alloc, *levels, *form)
        },
        _ => Err(Refusal::Fault(FieldKind::WrongShape)),
    }
}

/// The object that a bracket opens as a field's value, by its shape.
fn object_in(
    alloc: Global,
    types: &IndexedTypes<'_>,
    levels: u8,
    form: FieldForm,
) -> Result<OpenObject, Refusal>
    ensures { GivesObject result (object_in (schema_of types.now) levels (form_seen form) form.shape) }
{
    match form.shape {
        Shape::Many => Err(Refusal::Fault(FieldKind::WrongShape)),
        Shape::Map(scalar) => {
            Ok(OpenObject::Map(levels, scalar, form.kind, MapEntries::new(alloc)))
        }
        _ => object_by(alloc, types, levels, form.kind),
    }
}

/// The object that a bracket opens at a spot.
pub(crate) fn opens_object(
    alloc: Global,
    types: &IndexedTypes<'_>,
    spot: &Spot,
) -> Result<OpenObject, Refusal>
    ensures { GivesObject result (opens_object (schema_of types.now) (spot_seen spot.now)) }
{
    match spot {
        Spot::Whole(levels, id) => object_by(alloc, types, *levels, Kind::Message(*id)),
        Spot::Part(levels, form) => object_in(alloc, types, *levels, *form),
        Spot::Member(levels, _, message, form) => if message.is_taken(form.shape) {
            Err(Refusal::Fault(FieldKind::OneofTwice))
        } else {
            object_in(alloc, types, *levels, *form)
        },
        Spot::Entry(levels, _, kind, _, _) => object_by(alloc, types, below(*levels), *kind),
        Spot::Element(array) => object_by(alloc, types, array.levels, array.kind),
    }
}

/// The spot behind a key of a message.
fn member_at(
    types: &IndexedTypes<'_>,
    levels: u8,
    id: TypeId,
    message: PartialMessage,
    name: &str,
) -> Result<Spot, Refusal>
    ensures { Names result (member_at levels id (message_seen message)
        (key_of (fields_of types.now id) (message_seen message) name.now)) }
{
    match form_named(types, id, name) {
        None => Err(Refusal::Fault(FieldKind::UnknownKey)),
        Some(form) => if message.is_seen(form.number) {
            Err(Refusal::Fault(FieldKind::KeyTwice))
        } else {
            Ok(Spot::Member(levels, id, message, form))
        },
    }
}

/// Whether an entry with a value of this kind may stand where so many levels are left.
fn has_room(levels: u8, kind: Kind) -> bool
    ensures { result ≡ has_room levels kind }
{
    match kind {
        Kind::Message(_) => levels > 1,
        Kind::One(_) => levels > 0,
    }
}

/// An item as the key of a map; keys are of no other kinds.
fn as_key(alloc: Global, item: Item) -> Key
    ensures { result ≡ as_key (out-Item item) }
{
    match item {
        Item::Number(number) => Key::Number(number),
        Item::Truth(truth) => Key::Truth(truth),
        Item::Text(text) => Key::Text(text),
        Item::Bytes(_) | Item::Message(_) => Key::Text(Text::new(alloc)),
    }
}

/// The key of a map's next entry.
fn entry_key(
    alloc: Global,
    types: &IndexedTypes<'_>,
    levels: u8,
    scalar: Scalar,
    kind: Kind,
    entries: &MapEntries,
    text: Text,
) -> Result<Key, Refusal>
    ensures { GivesKey result (entry_key types.now levels scalar kind (entries_seen entries.now) text) }
{
    let key = as_key(alloc, text_as(alloc, types, scalar, text)?);
    if !has_room(levels, kind) {
        Err(Refusal::Fault(FieldKind::TooDeep))
    } else if entries.has(&key) {
        Err(Refusal::Fault(FieldKind::KeyTwice))
    } else {
        Ok(key)
    }
}

/// The spot behind a key of a map.
fn entry_at(
    levels: u8,
    scalar: Scalar,
    kind: Kind,
    entries: MapEntries,
    key: Result<Key, Refusal>,
) -> Result<Spot, Refusal>
    ensures { (r : Result KeyOf KindOf) → GivesKey key r
        → Names result (entry_at levels scalar kind (entries_seen entries) r) }
{
    match key {
        Ok(key) => Ok(Spot::Entry(levels, scalar, kind, entries, key)),
        Err(refusal) => Err(refusal),
    }
}

/// The spot behind a key of an object.
pub(crate) fn names_spot(
    alloc: Global,
    types: &IndexedTypes<'_>,
    object: OpenObject,
    name: Text,
) -> Result<Spot, Refusal>
    ensures { Names result (names_spot (schema_of types.now) (object_seen object) name) }
{
    match object {
        OpenObject::Message(levels, id, message) => {
            member_at(types, levels, id, message, name.as_str())
        }
        OpenObject::Map(levels, scalar, kind, entries) => {
            let key = entry_key(alloc, types, levels, scalar, kind, &entries, name);
            entry_at(levels, scalar, kind, entries, key)
        }
    }
}
