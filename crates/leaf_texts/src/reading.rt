//! Reading the text of a leaf.
ghost use Rattle.leaf_texts.specs.LeafReadings.{IsKnownItem, IsMessageItem, IsWrapperItem};
ghost use Rattle.leaf_texts.specs.LeafTexts.{IsLeafReading, scalar_of_wrapper};

use crate::wrappers::{known_of, wrapped_scalar, wrapper_of};
use field_index::IndexedTypes;
use known_types::{TextFault, read_known};
use scalar_texts::{ScalarFault, read_indexed};
use schema::{Item, Kind, Known, TypeId};
use std::alloc::Global;

/// The item that a text means as a timestamp, a duration or a field mask.
fn known_item(alloc: Global, known: Known, text: &[u8]) -> Result<Item, ScalarFault>
    ensures { IsKnownItem known text.now result }
{
    match read_known(alloc, known, text) {
        Ok(value) => Ok(Item::Message(value)),
        Err(TextFault::BadText) => Err(ScalarFault::BadText),
        Err(TextFault::OutOfRange) => Err(ScalarFault::OutOfRange),
        Err(TextFault::NoMemory) => Err(ScalarFault::NoMemory),
    }
}

/// The item that a text means as a wrapper.
fn wrapper_item(
    alloc: Global,
    types: &IndexedTypes<'_>,
    id: TypeId,
    text: &[u8],
) -> Result<Item, ScalarFault>
    ensures { IsWrapperItem types.now (scalar_of_wrapper types.now id) text.now result }
{
    let scalar = wrapped_scalar(types.field_by_number(id, 1));
    let inner = read_indexed(alloc, types, scalar, text)?;
    match wrapper_of(alloc, inner) {
        Ok(value) => Ok(Item::Message(value)),
        Err(_) => Err(ScalarFault::NoMemory),
    }
}

/// The item that a text means as a message that is this well-known type.
fn message_item(
    alloc: Global,
    types: &IndexedTypes<'_>,
    id: TypeId,
    known: Known,
    text: &[u8],
) -> Result<Item, ScalarFault>
    ensures { IsMessageItem types.now id known text.now result }
{
    match known {
        Known::Wrapper => wrapper_item(alloc, types, id, text),
        Known::Plain | Known::Timestamp | Known::Duration | Known::FieldMask => {
            known_item(alloc, known, text)
        }
    }
}

/// The item that the text of a leaf means: of a scalar or an enum as `read_indexed` reads it; of a timestamp, a
/// duration or a field mask its message, as `read_known` reads it; of a wrapper the message of the value that the text
/// means, in which a default is absent. A message that is none of these is no leaf, and each text of it is BadText.
/// Time goes by the length of the text, and by the logarithm of the number of fields and of enum values.
pub fn read_leaf(
    alloc: Global,
    types: &IndexedTypes<'_>,
    kind: Kind,
    text: &[u8],
) -> Result<Item, ScalarFault>
    ensures { IsLeafReading types.now kind text.now result }
{
    match kind {
        Kind::One(scalar) => read_indexed(alloc, types, scalar, text),
        Kind::Message(id) => message_item(alloc, types, id, known_of(types.types(), id), text),
    }
}
