//! Tokens without brackets as scalars (the ProtoJSON guide, "Representation of each type").
ghost use Rattle.std.specs.Prelude.{◌≡◌};
ghost use Rattle.std.specs.Str.{IsUtf8};
ghost use Rattle.json_events.specs.ReaderAnswers.{mark_seen};
ghost use Rattle.json_meanings.specs.JsonScalars.{IsNumberKind, digits_as, number_as, scalar_as, string_as, text_as};
ghost use Rattle.protojson_read.specs.TokenAnswers.{Gives, number_fault, text_refusal};
ghost use Rattle.schema.specs.declared.value.Item.TheOpen.{Number};
ghost use Rattle.schema.specs.declared.value.Item.{out-Item};

use crate::refusal::Refusal;
use base::Text;
use field_index::IndexedTypes;
use json_events::Token;
use json_meanings::FieldKind;
use json_meanings::laws::numbers_are_read_exactly;
use scalar_texts::laws::keys_are_read_as_texts;
use scalar_texts::{ScalarFault, number_of, read_indexed};
use schema::{Item, Scalar};
use std::alloc::Global;

/// Why a token with such a text is refused. The strings of JSON are UTF-8.
fn text_refusal(fault: ScalarFault) -> Refusal
    ensures { result ≡ text_refusal fault }
{
    match fault {
        ScalarFault::BadText | ScalarFault::NotUtf8 => Refusal::Fault(FieldKind::BadText),
        ScalarFault::BadNumber => Refusal::Fault(FieldKind::BadNumber),
        ScalarFault::OutOfRange => Refusal::Fault(FieldKind::OutOfRange),
        ScalarFault::BadEnum => Refusal::Fault(FieldKind::BadEnum),
        ScalarFault::NoMemory => Refusal::NoMemory,
    }
}

/// Why a number's text is no number of the kind. It is never an enum's name.
fn number_fault(fault: ScalarFault) -> FieldKind
    ensures { result ≡ number_fault fault }
{
    match fault {
        ScalarFault::OutOfRange => FieldKind::OutOfRange,
        _ => FieldKind::BadNumber,
    }
}

/// A text of a kind other than strings as a scalar.
#[tactic(auto, using(crate::proofs::TokenLemmas::key_read, crate::proofs::TokenLemmas::key_refused))]
fn spelled_as(
    alloc: Global,
    types: &IndexedTypes<'_>,
    scalar: Scalar,
    text: &str,
) -> Result<Item, Refusal>
    requires { IsUtf8 text.now }
    ensures { Gives result (text_as types.now scalar text.now) }
{
    keys_are_read_as_texts();
    match read_indexed(alloc, types, scalar, text.as_bytes()) {
        Ok(item) => Ok(item),
        Err(fault) => Err(text_refusal(fault)),
    }
}

/// A text as a scalar: so is a map's key read.
pub(crate) fn text_as(
    alloc: Global,
    types: &IndexedTypes<'_>,
    scalar: Scalar,
    text: Text,
) -> Result<Item, Refusal>
    ensures { Gives result (text_as types.now scalar text) }
{
    match scalar {
        Scalar::Text => Ok(Item::Text(text)),
        _ => spelled_as(alloc, types, scalar, text.as_str()),
    }
}

/// A JSON string as a scalar: as its text, but a bool is no string.
fn string_as(
    alloc: Global,
    types: &IndexedTypes<'_>,
    scalar: Scalar,
    text: Text,
) -> Result<Item, Refusal>
    ensures { Gives result (string_as types.now scalar text) }
{
    match scalar {
        Scalar::Bool => Err(Refusal::Fault(FieldKind::WrongShape)),
        _ => text_as(alloc, types, scalar, text),
    }
}

/// A number as an item.
fn number_item(number: i128) -> Item
    ensures { out-Item result ≡ Number number }
{
    Item::Number(number)
}

/// The text of a number as a number of the kind.
#[tactic(auto, using(crate::proofs::TokenLemmas::digits_refused))]
fn number_as(scalar: Scalar, text: &[u8]) -> Result<Item, Refusal>
    requires { IsNumberKind scalar }
    ensures { Gives result (number_as scalar text.now) }
{
    numbers_are_read_exactly();
    match number_of(scalar, text) {
        Ok(number) => Ok(number_item(number)),
        Err(fault) => Err(Refusal::Fault(number_fault(fault))),
    }
}

/// A JSON number as a scalar.
fn digits_as(scalar: Scalar, text: &[u8]) -> Result<Item, Refusal>
    ensures { Gives result (digits_as scalar text.now) }
{
    match scalar {
        Scalar::Bool | Scalar::Text | Scalar::Bytes => Err(Refusal::Fault(FieldKind::WrongShape)),
        _ => number_as(scalar, text),
    }
}

/// A token without brackets as a scalar.
pub(crate) fn scalar_as(
    alloc: Global,
    types: &IndexedTypes<'_>,
    scalar: Scalar,
    token: Token,
) -> Result<Item, Refusal>
    ensures { Gives result (scalar_as types.now scalar (mark_seen token)) }
{
    match (token, scalar) {
        (Token::Text(text), _) => string_as(alloc, types, scalar, text),
        (Token::Number(text), _) => digits_as(scalar, text.as_str().as_bytes()),
        (Token::True, Scalar::Bool) => Ok(Item::Truth(true)),
        (Token::False, Scalar::Bool) => Ok(Item::Truth(false)),
        _ => Err(Refusal::Fault(FieldKind::WrongShape)),
    }
}
