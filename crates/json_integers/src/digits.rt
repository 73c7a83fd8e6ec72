//! Numbers that digits write, as far as they are told.
ghost use Rattle.std.specs.Prelude.{◌≡◌, ◌^◌, ◌*◌, ◌++◌, ◌-◌, ◌<◌, ◌≤◌, length};
ghost use Rattle.std.specs.Str.Parse.{AllDigits, digits_value, digits_value_after};
ghost use Rattle.json_integers.specs.WholeNumbers.{capped, kept, dropped, are_zeros, magnitude_of};
ghost use Rattle.json_integers.specs.declared.places.Places.TheVariants.{Dropped};

use crate::places::Places;

/// Where numbers stand still: past every size of a text, and past the integers that are told.
const CAP: u128 = 36_893_488_147_419_103_232;

/// The number that digits write behind a number.
#[tactic(auto, using(crate::proofs::DigitLemmas::capped_steps))]
pub(crate) fn capped_value(before: u128, digits: &[u8]) -> u128
    requires capped { before ≤ 2 ^ 65 }
    requires digits { AllDigits 10 digits.now }
    ensures { result ≡ capped (digits_value_after 10 before digits.now) }
{
    let mut value = before;
    for digit in digits {
        value = (value * 10 + (*digit - b'0') as u128).min(CAP);
    }
    value
}

/// A number with zeros behind it.
#[tactic(auto, using(crate::proofs::DigitLemmas::zero_steps))]
fn with_zeros(value: u128, zeros: u128) -> u128
    requires { value ≤ 2 ^ 65 }
    ensures { result ≡ capped (value * 10 ^ zeros) }
{
    if value == 0 || value == CAP || zeros == 0 {
        return value;
    }
    with_zeros((value * 10).min(CAP), zeros - 1)
}

/// The digits without the last ones, and the last ones.
fn split_last(digits: &[u8], count: u128) -> (&[u8], &[u8])
    ensures kept { result.0.now ≡ kept digits.now count }
    ensures dropped { result.1.now ≡ dropped digits.now count }
{
    let count = count.min(digits.len() as u128) as usize;
    digits.split_at(digits.len() - count)
}

/// Whether each digit is 0.
fn are_zeros(digits: &[u8]) -> bool
    ensures { result ≡ are_zeros digits.now }
{
    digits.iter().all(|digit| *digit == b'0')
}

/// The number that digits before and behind the point write, without the point.
#[tactic(auto, using(crate::proofs::DigitLemmas::joined))]
fn joined_value(int: &[u8], digits: &[u8]) -> u128
    requires int { AllDigits 10 int.now }
    requires digits { AllDigits 10 digits.now }
    ensures value { result ≡ capped (digits_value 10 (int.now ++ digits.now)) }
    ensures capped { result ≤ 2 ^ 65 }
{
    capped_value(capped_value(0, int), digits)
}

/// The number that is left where so many digits are dropped, if they are all 0.
#[tactic(auto, using(crate::proofs::DigitLemmas::split_steps))]
fn without_last(int: &[u8], digits: &[u8], count: u128) -> Option<u128>
    requires int { AllDigits 10 int.now }
    requires digits { AllDigits 10 digits.now }
    ensures { result ≡ magnitude_of int.now digits.now (Dropped count) }
{
    let (int, no_int) = split_last(int, count.saturating_sub(digits.len() as u128));
    let (digits, no_digits) = split_last(digits, count);
    if are_zeros(no_int) && are_zeros(no_digits) {
        Some(joined_value(int, digits))
    } else {
        None
    }
}

/// The magnitude of the digits before and behind the point, where it is whole.
#[tactic(auto, using(crate::proofs::DigitLemmas::capped_mul))]
pub(crate) fn magnitude_of(int: &[u8], digits: &[u8], places: Places) -> Option<u128>
    requires int { AllDigits 10 int.now }
    requires digits { AllDigits 10 digits.now }
    ensures { result ≡ magnitude_of int.now digits.now places }
{
    match places {
        Places::Added(zeros) => Some(with_zeros(joined_value(int, digits), zeros)),
        Places::Dropped(count) => without_last(int, digits, count),
    }
}
