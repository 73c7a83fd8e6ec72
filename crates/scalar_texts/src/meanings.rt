//! What texts of scalars mean, before an item is made of it.
ghost use Rattle.std.specs.Prelude.{◌≡◌, ◌≢◌, Bool, MatchOption};
ghost use Rattle.std.specs.Str.{IsUtf8};
ghost use Rattle.message_types.specs.declared.fields.Scalar.TheVariants.{Bytes as BytesOf};
ghost use Rattle.scalar_texts.specs.ScalarMeanings.{IsMeaning};
ghost use Rattle.json_meanings.specs.JsonScalars.{truth_text};

use crate::fault::ScalarFault;
use crate::numbers::number_meant;
use schema::{Scalar, Types};
use std::str;

/// What a text means.
#[derive(Debug, Clone, Copy)]
pub(crate) enum Meaning<'a> {
    /// A number.
    Number(i128),
    /// A truth value.
    Truth(bool),
    /// The text itself.
    Text(&'a str),
}

/// The truth value that a text is.
fn truth_of(text: &[u8]) -> Option<bool>
    ensures { MatchOption result ((b : Bool) → text.now ≢ truth_text b) (λ b. text.now ≡ truth_text b) }
{
    if text == b"true".as_slice() {
        Some(true)
    } else if text == b"false".as_slice() {
        Some(false)
    } else {
        None
    }
}

/// What a text means, or what is wrong with it.
#[tactic(auto, using(crate::proofs::ReadingLemmas::other_kind))]
pub(crate) fn meaning_of<'a>(
    types: &Types,
    scalar: Scalar,
    text: &'a [u8],
) -> Result<Meaning<'a>, ScalarFault>
    requires { scalar ≢ BytesOf }
    ensures { IsMeaning types.now scalar text.now result }
{
    match scalar {
        Scalar::Bool => match truth_of(text) {
            Some(truth) => Ok(Meaning::Truth(truth)),
            None => Err(ScalarFault::BadText),
        },
        Scalar::Text => match str::from_utf8(text) {
            Ok(text) => Ok(Meaning::Text(text)),
            Err(_) => Err(ScalarFault::NotUtf8),
        },
        Scalar::Bytes => unreachable!(),
        _ => Ok(Meaning::Number(number_meant(types, scalar, text)?)),
    }
}
