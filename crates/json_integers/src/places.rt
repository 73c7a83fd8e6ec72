//! Where the point of a number comes to stand.
ghost use Rattle.std.specs.Prelude.{◌≡◌, ◌^◌, ◌<◌, ◌≤◌};
ghost use Rattle.std.specs.Str.Parse.{starts_with_minus};
ghost use Rattle.json_events.specs.JsonNumbers.{IsExponent};
ghost use Rattle.json_integers.specs.WholeNumbers.{exponent_size, is_negative, places_of};

use crate::digits::capped_value;
use crate::parts::sign_len;

/// What is done to the digits of a number, which are read without the point.
#[derive(Debug, Clone, Copy, PartialEq, Eq)]
pub(crate) enum Places {
    /// So many zeros are added.
    Added(u128),
    /// So many digits are dropped.
    Dropped(u128),
}

/// The size of an exponent, which stands still at 2^65.
fn exponent_size(exponent: &[u8]) -> u128
    requires { IsExponent exponent.now }
    ensures { result ≡ exponent_size exponent.now }
{
    match exponent {
        [] => 0,
        [_, power @ ..] => capped_value(0, power.split_at(sign_len(power)).1),
    }
}

/// Whether an exponent begins with a minus.
fn is_negative(exponent: &[u8]) -> bool
    ensures { result ≡ is_negative exponent.now }
{
    match exponent {
        [_, b'-', ..] => true,
        _ => false,
    }
}

/// What is done to the digits, of which so many stand behind the point.
pub(crate) fn places_of(behind: usize, exponent: &[u8]) -> Places
    requires { IsExponent exponent.now }
    ensures { result ≡ places_of behind exponent.now }
{
    let size = exponent_size(exponent);
    let behind = behind as u128;
    if is_negative(exponent) {
        Places::Dropped(behind + size)
    } else if behind <= size {
        Places::Added(size - behind)
    } else {
        Places::Dropped(behind - size)
    }
}
