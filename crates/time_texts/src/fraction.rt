//! A fraction of a second, in billionths: a point with digits behind it (RFC 3339, section 5.6, time-secfrac).
ghost use Rattle.std.specs.Prelude.{◌≡◌, ◌+◌, ◌*◌, ◌-◌, ◌^◌, ◌<◌, ◌≤◌, ◌++◌, true, drop, length, OnOk, OnErr};
ghost use Rattle.base.specs.Extends.{Extends};
ghost use Rattle.time_texts.specs.Fractions.{fraction_len, is_fraction, nanos_of, fraction_text};

use crate::digits::{all_digits, digits_len, put_padded, value};
use base::NoMemory;

/// The length of a point and the digits behind it at the front.
pub(crate) fn fraction_len(text: &[u8]) -> usize
    ensures value { result ≡ fraction_len text.now }
    ensures within { result ≤ length text.now }
{
    match text {
        [b'.', digits @ ..] => digits_len(digits) + 1,
        _ => 0,
    }
}

/// Whether a text is a fraction: nothing, or a point and one to nine digits.
pub(crate) fn is_fraction(text: &[u8]) -> bool
    ensures { result ≡ is_fraction text.now }
{
    match text {
        [] => true,
        [point, digits @ ..] => *point == b'.'
            && !digits.is_empty()
            && digits.len() <= 9
            && all_digits(digits),
    }
}

/// A number with zeros behind its digits, up to nine places.
#[tactic(auto, using(crate::proofs::DigitLemmas::scale_steps))]
fn scaled(value: u32, places: usize) -> u32
    requires places { places ≤ 9 }
    requires below { value < 10 ^ places }
    ensures value { result ≡ value * 10 ^ (9 - places) }
    ensures below { result < 10 ^ 9 }
{
    if places == 9 {
        return value;
    }
    scaled(value * 10, places + 1)
}

/// The billionths of a second that a fraction is.
pub(crate) fn nanos_of(fraction: &[u8]) -> u32
    requires { is_fraction fraction.now ≡ true }
    ensures value { result ≡ nanos_of fraction.now }
    ensures below { result < 10 ^ 9 }
{
    match fraction {
        [] => 0,
        [_, digits @ ..] => scaled(value(digits), digits.len()),
    }
}

/// Appends the fraction of so many billionths, in 0, 3, 6 or 9 digits: as few as tell it whole. A part may stand where
/// memory is not found.
pub(crate) fn put_fraction(out: &mut Vec<u8>, nanos: u32) -> Result<(), NoMemory>
    ensures ok { OnOk result (out.new.items ≡ out.old.items ++ fraction_text nanos) }
    ensures err { OnErr result (Extends out.old.items out.new.items) }
{
    if nanos == 0 {
        return Ok(());
    }
    out.push(b'.')?;
    if nanos % 1_000_000 == 0 {
        put_padded(out, 3, nanos / 1_000_000)
    } else if nanos % 1_000 == 0 {
        put_padded(out, 6, nanos / 1_000)
    } else {
        put_padded(out, 9, nanos)
    }
}
