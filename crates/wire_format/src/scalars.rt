//! What payloads are as scalars (the encoding guide, "Encoding Field Types").
ghost use Rattle.std.specs.Prelude.{◌≡◌, option_map, is_some, true, IfOk};
ghost use Rattle.std.specs.Str.{is_utf8};
ghost use Rattle.schema.specs.declared.value.Item.TheOpen.{Text as TextLayer};
ghost use Rattle.schema.specs.declared.value.Item.{out-Item};
ghost use Rattle.wire_format.specs.FieldValues.{counts as counts_for, stored as stored_slot, key_of as key_of_item, default_item as default_layer};
ghost use Rattle.wire_format.specs.GoodBytes.{IsGoodText};
ghost use Rattle.wire_records.specs.RecordViews.{payload_of};
ghost use Rattle.wire_format.specs.Scalars.{number_of as number_of_kind, scalar_of as scalar_of_kind, default_of, unzigzag};

use crate::sizes::scalar_wire;
use base::{Blob, NoMemory, Text};
use schema::{Item, Key, Kind, Presence, Scalar, Slot, Types, Value, is_default};
use std::alloc::Global;
use std::str;
use wire_records::{I32, I64, LEN, Payload, VARINT};

/// The number that a zigzag varint stands for.
fn unzigzag_of(n: u64) -> i128
    ensures { result ≡ unzigzag n }
{
    if n % 2 == 0 {
        return i128::from(n / 2);
    }
    -1 - i128::from(n / 2)
}

/// A varint as an item of the kind.
fn number_of(scalar: Scalar, n: u64) -> Item
    ensures { out-Item result ≡ number_of_kind scalar n }
{
    let low = (n % (1 << 32)) as u32;
    match scalar {
        Scalar::Int32 => Item::Number(i128::from(low.cast_signed())),
        Scalar::Enumeration(_) => Item::Number(i128::from(low.cast_signed())),
        Scalar::Int64 => Item::Number(i128::from(n.cast_signed())),
        Scalar::Uint32 => Item::Number(i128::from(low)),
        Scalar::Sint32 => Item::Number(unzigzag_of(u64::from(low))),
        Scalar::Sint64 => Item::Number(unzigzag_of(n)),
        Scalar::Bool => Item::Truth(n != 0),
        _ => Item::Number(i128::from(n)),
    }
}

/// The bytes as text.
fn text_of(alloc: Global, bytes: &[u8]) -> Result<Item, NoMemory>
    requires { is_utf8 bytes.now ≡ true }
    ensures { IfOk result (λ i. out-Item i ≡ TextLayer bytes.now) }
{
    match str::from_utf8(bytes) {
        Ok(text) => Ok(Item::Text(Text::copy_of(alloc, text)?)),
        Err(_) => unreachable!(),
    }
}

/// The item of a payload, if that fits the kind and counts. Nothing is asked of the types as yet: each
/// number of an enum counts, declared or not.
pub(crate) fn scalar_of(
    alloc: Global,
    types: &Types,
    scalar: Scalar,
    payload: Payload<'_>,
) -> Result<Option<Item>, NoMemory>
    requires { IsGoodText scalar (payload_of payload) }
    ensures { IfOk result (λ o. option_map out-Item o ≡ scalar_of_kind types.now scalar (payload_of payload.entry)) }
{
    match (scalar, payload) {
        (Scalar::Text, Payload::Len(bytes)) => Ok(Some(text_of(alloc, bytes)?)),
        (Scalar::Text, _) => Ok(None),
        (Scalar::Bytes, Payload::Len(bytes)) => {
            Ok(Some(Item::Bytes(Blob::copy_of(alloc, bytes)?)))
        }
        (Scalar::Bytes, _) => Ok(None),
        (Scalar::Fixed32, Payload::I32(n)) => Ok(Some(Item::Number(i128::from(n)))),
        (Scalar::Fixed32, _) => Ok(None),
        (Scalar::Sfixed32, Payload::I32(n)) => Ok(Some(Item::Number(i128::from(n.cast_signed())))),
        (Scalar::Sfixed32, _) => Ok(None),
        (Scalar::Fixed64, Payload::I64(n)) => Ok(Some(Item::Number(i128::from(n)))),
        (Scalar::Fixed64, _) => Ok(None),
        (Scalar::Sfixed64, Payload::I64(n)) => Ok(Some(Item::Number(i128::from(n.cast_signed())))),
        (Scalar::Sfixed64, _) => Ok(None),
        (_, Payload::Varint(n)) => Ok(Some(number_of(scalar, n))),
        _ => Ok(None),
    }
}

/// True where a payload fits the scalar kind and counts, as each does that fits.
fn fits(types: &Types, scalar: Scalar, payload: Payload<'_>) -> bool
    ensures { result ≡ is_some (scalar_of_kind types.now scalar (payload_of payload.entry)) }
{
    match payload {
        Payload::Varint(_) => scalar_wire(scalar) == VARINT,
        Payload::I64(_) => scalar_wire(scalar) == I64,
        Payload::Len(_) => scalar_wire(scalar) == LEN,
        Payload::Group => false,
        Payload::I32(_) => scalar_wire(scalar) == I32,
    }
}

/// True where a payload counts for a singular field of the kind.
pub(crate) fn counts(types: &Types, kind: Kind, payload: Payload<'_>) -> bool
    ensures { result ≡ counts_for types.now kind (payload_of payload.entry) }
{
    match (kind, payload) {
        (Kind::One(scalar), _) => fits(types, scalar, payload),
        (Kind::Message(_), Payload::Len(_)) => true,
        (Kind::Message(_), _) => false,
    }
}

/// The default of a scalar kind. Nothing is asked of the types as yet: that of an enum is 0.
fn default_scalar(alloc: Global, types: &Types, scalar: Scalar) -> Item
    ensures { out-Item result ≡ default_of types.now scalar }
{
    match scalar {
        Scalar::Bool => Item::Truth(false),
        Scalar::Text => Item::Text(Text::new(alloc)),
        Scalar::Bytes => Item::Bytes(Blob::new(alloc)),
        _ => Item::Number(0),
    }
}

/// The default of a kind: of a message the empty one.
pub(crate) fn default_item(alloc: Global, types: &Types, kind: Kind) -> Item
    ensures { out-Item result ≡ default_layer types.now kind }
{
    match kind {
        Kind::One(scalar) => default_scalar(alloc, types, scalar),
        Kind::Message(_) => Item::Message(Value::new(alloc)),
    }
}

/// An item as a key.
pub(crate) fn key_of(item: Item) -> Key
    ensures { result ≡ key_of_item (out-Item item) }
{
    match item {
        Item::Number(number) => Key::Number(number),
        Item::Truth(truth) => Key::Truth(truth),
        Item::Text(text) => Key::Text(text),
        _ => Key::Number(0),
    }
}

/// The slot of an item: none for the default of a field with implicit presence.
pub(crate) fn stored(presence: Presence, item: Item) -> Option<Slot>
    ensures { result ≡ stored_slot presence (out-Item item) }
{
    match presence {
        Presence::Explicit => Some(Slot::One(item)),
        Presence::Implicit => {
            if is_default(&item) {
                return None;
            }
            Some(Slot::One(item))
        }
    }
}
