//! Texts of scalars (the ProtoJSON guide, "Representation of each type").
ghost use Rattle.std.specs.Prelude.{◌≢◌};
ghost use Rattle.message_types.specs.declared.fields.Scalar.TheVariants.{Bytes, Bytes as bytes_kind, Enumeration};
ghost use Rattle.message_types.specs.declared.messages.Types.{Types as TypesOf};
ghost use Rattle.scalar_texts.specs.ScalarTexts.{IsScalarReading};

use crate::fault::ScalarFault;
use crate::meanings::{Meaning, meaning_of};
use crate::numbers::enum_meant;
use field_index::IndexedTypes;
use known_types::{TextFault, read_bytes};
use schema::{EnumId, Item, Scalar, Text, Types};
use std::alloc::Global;

/// The bytes that a text spells.
fn bytes_item(alloc: Global, text: &[u8]) -> Result<Item, ScalarFault>
    ensures { (types : TypesOf) → IsScalarReading types bytes_kind text.now result }
{
    match read_bytes(alloc, text) {
        Ok(bytes) => Ok(Item::Bytes(bytes)),
        Err(TextFault::BadText) => Err(ScalarFault::BadText),
        Err(TextFault::OutOfRange) => unreachable!(),
        Err(TextFault::NoMemory) => Err(ScalarFault::NoMemory),
    }
}

/// The item that the text of a scalar which is no bytes means.
#[tactic(auto, using(crate::proofs::ReadingLemmas::fault_reading, crate::proofs::ReadingLemmas::no_room))]
fn item_of(alloc: Global, types: &Types, scalar: Scalar, text: &[u8]) -> Result<Item, ScalarFault>
    requires { scalar ≢ Bytes }
    ensures { IsScalarReading types.now scalar text.now result }
{
    match meaning_of(types, scalar, text)? {
        Meaning::Number(number) => Ok(Item::Number(number)),
        Meaning::Truth(truth) => Ok(Item::Truth(truth)),
        Meaning::Text(text) => match Text::copy_of(alloc, text) {
            Ok(text) => Ok(Item::Text(text)),
            Err(_) => Err(ScalarFault::NoMemory),
        },
    }
}

/// The item that the text of a scalar means. A number's text has JSON's grammar and nothing around it, and counts by
/// its exact value; that of bytes is base64 in any lawful spelling. Time goes by the length of the text and of the
/// enum's names.
pub fn read_scalar(
    alloc: Global,
    types: &Types,
    scalar: Scalar,
    text: &[u8],
) -> Result<Item, ScalarFault>
    ensures { IsScalarReading types.now scalar text.now result }
{
    match scalar {
        Scalar::Bytes => bytes_item(alloc, text),
        _ => item_of(alloc, types, scalar, text),
    }
}

/// The item that a text of an enum means.
#[tactic(auto, using(crate::proofs::ReadingLemmas::fault_reading))]
fn enum_item(types: &IndexedTypes<'_>, id: EnumId, text: &[u8]) -> Result<Item, ScalarFault>
    ensures { IsScalarReading types.now (Enumeration id) text.now result }
{
    Ok(Item::Number(enum_meant(types, id, text)?))
}

/// The item that the text of a scalar means, as `read_scalar` gives it. An enum's name is found in the logarithm of
/// their number.
pub fn read_indexed(
    alloc: Global,
    types: &IndexedTypes<'_>,
    scalar: Scalar,
    text: &[u8],
) -> Result<Item, ScalarFault>
    ensures { IsScalarReading types.now scalar text.now result }
{
    match scalar {
        Scalar::Enumeration(id) => enum_item(types, id, text),
        _ => read_scalar(alloc, types.types(), scalar, text),
    }
}
