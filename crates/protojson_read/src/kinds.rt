//! Tokens without brackets as values of a kind, and the objects that a bracket opens as one.
ghost use Rattle.std.specs.Prelude.{◌≡◌, Result, option_copied};
ghost use Rattle.json_events.specs.ReaderAnswers.{mark_seen};
ghost use Rattle.json_meanings.specs.SpotTables.{as_message, in_levels, kind_as, known_as, known_of, message_as, object_by, wrapped, wrapped_scalar, wrapper_as};
ghost use Rattle.json_meanings.specs.declared.fault.FieldKind.{FieldKind as KindOf};
ghost use Rattle.message_types.specs.Types.{field_in, fields_of};
ghost use Rattle.message_types.specs.declared.messages.Types.{Types as TypesOf};
ghost use Rattle.json_meanings.specs.KnownReadings.{json_known, schema_of};
ghost use Rattle.protojson_read.specs.TokenAnswers.{Gives, GivesObject, GivesValue};
ghost use Rattle.schema.specs.Layers.{ItemLayer};
ghost use Rattle.schema.specs.declared.value.Value.{Value as ValueOf};

use crate::partial_message::{PartialMessage, form_of};
use crate::refusal::Refusal;
use crate::scalar_tokens::scalar_as;
use crate::spots::{Filled, OpenObject, slot_of};
use field_index::IndexedTypes;
use json_events::Token;
use json_meanings::FieldKind;
use known_types::{TextFault, read_known};
use schema::{Field, Item, Kind, Known, Scalar, TypeId, Types, Value};
use std::alloc::Global;

/// Which well-known type a message type is.
fn known_of(types: &Types, id: TypeId) -> Known
    ensures { result ≡ known_of types.now id }
{
    match types.messages.get(id.0 as usize) {
        Some(message) => message.known,
        None => Known::Plain,
    }
}

/// The kind of a wrapper's value.
fn wrapped_scalar(field: Option<&Field>) -> Scalar
    ensures { result ≡ wrapped_scalar (option_copied field.entry) }
{
    match field {
        Some(field) => match field.kind {
            Kind::One(scalar) => scalar,
            Kind::Message(_) => Scalar::Bool,
        },
        None => Scalar::Bool,
    }
}

/// The message of a wrapper's value.
fn wrapped(
    alloc: Global,
    field: Option<&Field>,
    read: Result<Item, Refusal>,
) -> Result<Value, Refusal>
    ensures { (r : Result ItemLayer KindOf) → Gives read r → GivesValue result (wrapped (option_copied field.entry) r) }
{
    match (read, field) {
        (Err(refusal), _) => Err(refusal),
        (Ok(_), None) => Err(Refusal::Fault(FieldKind::WrongShape)),
        (Ok(item), Some(field)) => {
            let form = form_of(field);
            let mut message = PartialMessage::new(alloc);
            message.put(form, slot_of(form, Filled::Single(item)))?;
            Ok(message.into_value())
        }
    }
}

/// A token as a wrapper, which is written as its value.
fn wrapper_as(
    alloc: Global,
    types: &IndexedTypes<'_>,
    id: TypeId,
    token: Token,
) -> Result<Value, Refusal>
    ensures { GivesValue result
        (wrapper_as (schema_of types.now) (field_in (fields_of types.now id) 1) (mark_seen token)) }
{
    let field = types.field_by_number(id, 1);
    wrapped(
        alloc,
        field,
        scalar_as(alloc, types, wrapped_scalar(field), token),
    )
}

/// The message that the text of a well-known type means.
fn text_message(alloc: Global, known: Known, text: &[u8]) -> Result<Value, Refusal>
    ensures { GivesValue result (json_known known text.now) }
{
    match read_known(alloc, known, text) {
        Ok(value) => Ok(value),
        Err(TextFault::BadText) => Err(Refusal::Fault(FieldKind::BadText)),
        Err(TextFault::OutOfRange) => Err(Refusal::Fault(FieldKind::OutOfRange)),
        Err(TextFault::NoMemory) => Err(Refusal::NoMemory),
    }
}

/// A token as a well-known type that is written as a text.
fn text_type_as(alloc: Global, known: Known, token: &Token) -> Result<Value, Refusal>
    ensures { (types : TypesOf) → GivesValue result (known_as (schema_of types) known (mark_seen token.now)) }
{
    match token {
        Token::Text(text) => text_message(alloc, known, text.as_str().as_bytes()),
        _ => Err(Refusal::Fault(FieldKind::WrongShape)),
    }
}

/// A message where so many levels are left: its own token is of a wrong kind, or it is too deep, or it is read.
fn in_levels(levels: u8, read: Result<Value, Refusal>) -> Result<Item, Refusal>
    ensures { (r : Result ValueOf KindOf) → GivesValue read r → Gives result (as_message (in_levels levels r)) }
{
    match read {
        Err(Refusal::NoMemory) => Err(Refusal::NoMemory),
        Err(Refusal::Fault(FieldKind::WrongShape)) => Err(Refusal::Fault(FieldKind::WrongShape)),
        _ if levels == 0 => Err(Refusal::Fault(FieldKind::TooDeep)),
        Err(Refusal::Fault(kind)) => Err(Refusal::Fault(kind)),
        Ok(value) => Ok(Item::Message(value)),
    }
}

/// A token without brackets as a message.
fn message_as(
    alloc: Global,
    types: &IndexedTypes<'_>,
    levels: u8,
    id: TypeId,
    token: Token,
) -> Result<Item, Refusal>
    ensures { Gives result
        (message_as (schema_of types.now) levels (known_of types.now id) (fields_of types.now id) (mark_seen token)) }
{
    match known_of(types.types(), id) {
        Known::Plain => Err(Refusal::Fault(FieldKind::WrongShape)),
        Known::Wrapper => in_levels(levels, wrapper_as(alloc, types, id, token)),
        known @ (Known::Timestamp | Known::Duration | Known::FieldMask) => {
            in_levels(levels, text_type_as(alloc, known, &token))
        }
    }
}

/// A token without brackets as a value of a kind.
pub(crate) fn kind_as(
    alloc: Global,
    types: &IndexedTypes<'_>,
    levels: u8,
    kind: Kind,
    token: Token,
) -> Result<Item, Refusal>
    ensures { Gives result (kind_as (schema_of types.now) levels kind (mark_seen token)) }
{
    match kind {
        Kind::One(scalar) => scalar_as(alloc, types, scalar, token),
        Kind::Message(id) => message_as(alloc, types, levels, id, token),
    }
}

/// The object that a bracket opens as a value of a kind.
pub(crate) fn object_by(
    alloc: Global,
    types: &IndexedTypes<'_>,
    levels: u8,
    kind: Kind,
) -> Result<OpenObject, Refusal>
    ensures { GivesObject result (object_by (schema_of types.now) levels kind) }
{
    match kind {
        Kind::One(_) => Err(Refusal::Fault(FieldKind::WrongShape)),
        Kind::Message(id) => match known_of(types.types(), id) {
            Known::Plain if levels == 0 => Err(Refusal::Fault(FieldKind::TooDeep)),
            Known::Plain => Ok(OpenObject::Message(levels - 1, id, PartialMessage::new(alloc))),
            _ => Err(Refusal::Fault(FieldKind::WrongShape)),
        },
    }
}
