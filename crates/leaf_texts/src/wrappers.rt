//! Which message types are wrappers, and the messages of their values (wrappers.proto).
ghost use Rattle.std.specs.Prelude.{◌≡◌, IfOk};
ghost use Rattle.std.specs.Option.{option_copied};
ghost use Rattle.json_meanings.specs.SpotTables.{known_of, wrapped_scalar};
ghost use Rattle.leaf_texts.specs.LeafTexts.{wrapper_of};

use schema::{Field, Item, Kind, Known, NoMemory, Scalar, Slot, TypeId, Types, Value, is_default};
use std::alloc::Global;

/// Which well-known type a message type is; a type that is not there is plain.
pub(crate) fn known_of(types: &Types, id: TypeId) -> Known
    ensures { result ≡ known_of types.now id }
{
    match types.messages.get(id.0 as usize) {
        Some(message) => message.known,
        None => Known::Plain,
    }
}

/// The kind of a wrapper's value, by the field that holds it.
pub(crate) fn wrapped_scalar(field: Option<&Field>) -> Scalar
    ensures { result ≡ wrapped_scalar (option_copied field.entry) }
{
    match field {
        Some(field) => match field.kind {
            Kind::One(scalar) => scalar,
            Kind::Message(_) => Scalar::Bool,
        },
        None => Scalar::Bool,
    }
}

/// The message of a wrapper's value.
pub(crate) fn wrapper_of(alloc: Global, item: Item) -> Result<Value, NoMemory>
    ensures { IfOk result (λ value. value ≡ wrapper_of item) }
{
    let mut value = Value::new(alloc);
    if !is_default(&item) {
        value.set(1, Slot::One(item))?;
    }
    Ok(value)
}
