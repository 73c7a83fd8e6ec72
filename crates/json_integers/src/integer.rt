//! Integers of numbers' texts.
ghost use Rattle.std.specs.Prelude.{◌≡◌, ◌^◌, ◌<◌, drop};
ghost use Rattle.json_events.specs.JsonNumbers.{AreNumberParts, with_minus};
ghost use Rattle.json_integers.specs.IntegerTexts.{IsIntegerText};
ghost use Rattle.json_integers.specs.PartsSeen.{parts_seen};
ghost use Rattle.json_integers.specs.WholeNumbers.{parts_text, told};

use crate::digits::magnitude_of;
use crate::integer_text::IntegerText;
use crate::parts::{Parts, are_parts, cut};
use crate::places::places_of;

/// The first magnitude that is not told.
const PAST: u128 = 18_446_744_073_709_551_616;

/// The integer of a minus, or none, and a magnitude.
fn signed(minus: &[u8], magnitude: u128) -> i128
    requires { magnitude < 2 ^ 64 }
    ensures { result ≡ with_minus minus.now magnitude }
{
    match minus {
        [] => magnitude as i128,
        _ => -(magnitude as i128),
    }
}

/// The answer for a magnitude.
fn told(minus: &[u8], magnitude: Option<u128>) -> IntegerText
    ensures { result ≡ told minus.now magnitude }
{
    match magnitude {
        None => IntegerText::NotAnInteger,
        Some(magnitude) => if magnitude < PAST {
            IntegerText::Integer(signed(minus, magnitude))
        } else {
            IntegerText::PastRange
        },
    }
}

/// The digits behind the point.
fn behind_point(fraction: &[u8]) -> &[u8]
    ensures { result.now ≡ drop 1 fraction.now }
{
    match fraction {
        [] => fraction,
        [_, digits @ ..] => digits,
    }
}

/// The answer for the parts of a number.
fn parts_text(parts: &Parts<'_>) -> IntegerText
    requires { AreNumberParts (parts_seen parts.now) }
    ensures { result ≡ parts_text (parts_seen parts.now) }
{
    let digits = behind_point(parts.fraction);
    let places = places_of(digits.len(), parts.exponent);
    told(parts.minus, magnitude_of(parts.int, digits, places))
}

/// The integer that the text of a JSON number is. Takes no memory, and time by the length of the text.
pub fn read_integer(text: &[u8]) -> IntegerText
    ensures { IsIntegerText text.now result }
{
    let parts = cut(text);
    if are_parts(&parts) {
        parts_text(&parts)
    } else {
        IntegerText::NotANumber
    }
}
