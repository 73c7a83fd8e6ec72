//! Numbers that texts name or are.
ghost use Rattle.std.specs.Prelude.{◌≡◌, ◌↔◌, IsTrue, IfSome};
ghost use Rattle.message_types.specs.declared.fields.Scalar.TheVariants.{Enumeration};
ghost use Rattle.schema.specs.Validity.{IsScalarItem};
ghost use Rattle.schema.specs.declared.value.Item.TheOpen.{Number};
ghost use Rattle.scalar_texts.specs.ScalarMeanings.{IsNumberReading, IsNumberMeaning};
ghost use Rattle.json_meanings.specs.EnumNames.{values_of, number_named};
ghost use Rattle.json_meanings.specs.JsonScalars.{IsNumberKind};
ghost use Rattle.scalar_texts.specs.ScalarTexts.{named_number, IsEnumKind};

use crate::fault::ScalarFault;
use field_index::IndexedTypes;
use json_integers::{IntegerText, read_integer};
use schema::{EnumId, EnumValue, Scalar, Types};

/// Whether a number is one of the scalar kind.
fn has_number(scalar: Scalar, number: i128) -> bool
    ensures { IsTrue result ↔ IsScalarItem scalar (Number number) }
{
    match scalar {
        Scalar::Int32 | Scalar::Sint32 | Scalar::Sfixed32 | Scalar::Enumeration(_) => {
            -(1 << 31) <= number && number < 1 << 31
        }
        Scalar::Int64 | Scalar::Sint64 | Scalar::Sfixed64 => {
            -(1 << 63) <= number && number < 1 << 63
        }
        Scalar::Uint32 | Scalar::Fixed32 => 0 <= number && number < 1 << 32,
        Scalar::Uint64 | Scalar::Fixed64 => 0 <= number && number < 1 << 64,
        Scalar::Bool | Scalar::Text | Scalar::Bytes => false,
    }
}

/// Whether the values of the scalar kind are those of an enum.
fn is_enum(scalar: Scalar) -> bool
    ensures { IsTrue result ↔ IsEnumKind scalar }
{
    match scalar {
        Scalar::Enumeration(_) => true,
        _ => false,
    }
}

/// The number of the scalar kind that a text is, or what is wrong with it.
#[tactic(auto, using(crate::proofs::ReadingLemmas::past_range, crate::proofs::ReadingLemmas::no_number))]
pub fn number_of(scalar: Scalar, text: &[u8]) -> Result<i128, ScalarFault>
    ensures { IsNumberReading scalar text.now result }
{
    match read_integer(text) {
        IntegerText::NotANumber => if is_enum(scalar) {
            Err(ScalarFault::BadEnum)
        } else {
            Err(ScalarFault::BadNumber)
        },
        IntegerText::NotAnInteger => Err(ScalarFault::BadNumber),
        IntegerText::PastRange => Err(ScalarFault::OutOfRange),
        IntegerText::Integer(number) => if has_number(scalar, number) {
            Ok(number)
        } else {
            Err(ScalarFault::OutOfRange)
        },
    }
}

/// The values of an enum, in declared order; none where there is no such enum.
fn values_of(types: &Types, id: EnumId) -> &[EnumValue]
    ensures { result.now ≡ values_of types.now id }
{
    match types.enums.get(id.0 as usize) {
        Some(declared) => declared.values.as_slice(),
        None => &[],
    }
}

/// The number of the first value that has the name.
fn number_named(values: &[EnumValue], name: &[u8]) -> Option<i32>
    ensures { result ≡ number_named values.now name.now }
{
    for value in values {
        if value.name.as_str().as_bytes() == name {
            return Some(value.number);
        }
    }
    None
}

/// The number that a text names.
fn named_number(types: &Types, scalar: Scalar, text: &[u8]) -> Option<i32>
    ensures value { result ≡ named_number types.now scalar text.now }
    ensures range { IfSome result (λ n. IsScalarItem scalar (Number n)) }
{
    match scalar {
        Scalar::Enumeration(id) => number_named(values_of(types, id), text),
        _ => None,
    }
}

/// The number that a text means, or what is wrong with it.
#[tactic(auto, using(crate::proofs::ReadingLemmas::named, crate::proofs::ReadingLemmas::unnamed))]
pub(crate) fn number_meant(types: &Types, scalar: Scalar, text: &[u8]) -> Result<i128, ScalarFault>
    requires { IsNumberKind scalar }
    ensures { IsNumberMeaning types.now scalar text.now result }
{
    match named_number(types, scalar, text) {
        Some(number) => Ok(number as i128),
        None => number_of(scalar, text),
    }
}

/// The number of an enum that a text names.
fn enum_named(types: &IndexedTypes<'_>, id: EnumId, text: &[u8]) -> Option<i32>
    ensures value { result ≡ named_number types.now (Enumeration id) text.now }
    ensures range { IfSome result (λ n. IsScalarItem (Enumeration id) (Number n)) }
{
    types.values(id).number_named(text)
}

/// The number of an enum that a text means, or what is wrong with it.
#[tactic(auto, using(crate::proofs::ReadingLemmas::named, crate::proofs::ReadingLemmas::unnamed))]
pub(crate) fn enum_meant(
    types: &IndexedTypes<'_>,
    id: EnumId,
    text: &[u8],
) -> Result<i128, ScalarFault>
    ensures { IsNumberMeaning types.now (Enumeration id) text.now result }
{
    match enum_named(types, id, text) {
        Some(number) => Ok(number as i128),
        None => number_of(Scalar::Enumeration(id), text),
    }
}
