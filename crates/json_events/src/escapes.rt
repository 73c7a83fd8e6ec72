//! The inside of a string, byte by byte (RFC 8259, section 7; for the bytes of characters the Unicode
//! Standard, table 3-7).

ghost use Rattle.std.specs.Prelude.{◌≡◌, ℕ, ◌+◌, ◌*◌, ◌<◌, ◌≤◌, length, take, IsTrue, Some, None, if◌then◌else◌};
ghost use Rattle.std.specs.List.{list_all};
ghost use Rattle.std.specs.Char.{digit_value};
ghost use Rattle.json_events.specs.declared.state.StringState.TheVariants.{Plain, Escape};
ghost use Rattle.json_events.specs.JsonStrings.{escaped_character, is_high_surrogate};
ghost use Rattle.json_events.specs.StringSteps.{within, is_plain, lead, led_to, tail_to, is_hex, is_low_front, more_hex, more_low, more_string};
ghost use Rattle.json_events.specs.WordStates.{IsUnitFront, IsLowFront, IsOpenString};

use crate::state::StringState;

fn is_within(low: u8, high: u8, b: u8) -> bool
    ensures { result ≡ within low high b }
{
    low <= b && b <= high
}

/// The bytes of ASCII that stand for themselves.
fn is_plain(b: u8) -> bool
    ensures { result ≡ is_plain b }
{
    is_within(32, 127, b) && (b != b'"' && b != b'\\')
}

/// How many bytes at the front stand for themselves.
pub(crate) fn plain_len(bytes: &[u8]) -> usize
    ensures within { result ≤ length bytes.now }
    ensures plain { IsTrue (list_all is_plain (take result bytes.now)) }
{
    for (i, byte) in bytes.iter().enumerate() {
        if !is_plain(*byte) {
            return i;
        }
    }
    bytes.len()
}

/// Behind the first byte of a character of two to four bytes.
fn led(b: u8) -> Option<StringState>
    ensures { result ≡ led_to (lead b) }
{
    if is_within(194, 223, b) {
        Some(StringState::Continuation(128, 191, 0))
    } else if b == 224 {
        Some(StringState::Continuation(160, 191, 1))
    } else if b == 237 {
        Some(StringState::Continuation(128, 159, 1))
    } else if is_within(225, 239, b) {
        Some(StringState::Continuation(128, 191, 1))
    } else if b == 240 {
        Some(StringState::Continuation(144, 191, 2))
    } else if is_within(241, 243, b) {
        Some(StringState::Continuation(128, 191, 2))
    } else if b == 244 {
        Some(StringState::Continuation(128, 143, 2))
    } else {
        None
    }
}

/// Behind a further byte, of which so many more follow.
fn tail(n: u8) -> StringState
    ensures { result ≡ tail_to n }
{
    match n {
        0 => StringState::Plain,
        _ => StringState::Continuation(128, 191, n - 1),
    }
}

/// The character for which a letter behind a reverse solidus stands.
pub(crate) fn escaped_character(letter: u8) -> Option<u8>
    ensures { result ≡ escaped_character letter }
{
    if letter == b'"' {
        Some(b'"')
    } else if letter == b'\\' {
        Some(b'\\')
    } else if letter == b'/' {
        Some(b'/')
    } else if letter == b'b' {
        Some(8)
    } else if letter == b'f' {
        Some(12)
    } else if letter == b'n' {
        Some(10)
    } else if letter == b'r' {
        Some(13)
    } else if letter == b't' {
        Some(9)
    } else {
        None
    }
}

fn digit_value(b: u8) -> u32
    ensures { result ≡ digit_value b }
{
    if b < 48 {
        36
    } else if b < 58 {
        (b - 48) as u32
    } else if b < 65 {
        36
    } else if b < 91 {
        (b - 55) as u32
    } else if b < 97 {
        36
    } else if b < 123 {
        (b - 87) as u32
    } else {
        36
    }
}

/// The number with one hexadecimal digit more.
pub(crate) fn with_digit(v: u32, b: u8) -> Option<u32>
    requires { v < 4096 }
    ensures { result ≡ (if is_hex b then Some (v * 16 + digit_value b) else None) }
{
    let d = digit_value(b);
    if d < 16 { Some(v * 16 + d) } else { None }
}

/// The first half of a surrogate pair.
pub(crate) fn is_high_surrogate(unit: u32) -> bool
    ensures { result ≡ is_high_surrogate unit }
{
    55296 <= unit && unit <= 56319
}

/// Two digits that begin the second half of one.
fn is_low_front(v: u32) -> bool
    ensures { result ≡ is_low_front v }
{
    220 <= v && v <= 223
}

/// The last digit behind `\u`.
fn last_digit(v: u32, b: u8) -> Option<StringState>
    requires { v < 4096 }
    ensures { result ≡ more_hex 1 v b }
{
    match with_digit(v, b) {
        None => None,
        Some(unit) => if is_high_surrogate(unit) {
            Some(StringState::LowSolidus(unit))
        } else {
            Some(StringState::Plain)
        },
    }
}

/// One byte of the digits behind `\u`.
#[tactic(auto, using(crate::proofs::strings::StringFronts::other_unit))]
fn more_hex(k: u8, v: u32, b: u8) -> Option<StringState>
    requires { IsUnitFront k v }
    ensures { result ≡ more_hex k v b }
{
    match k {
        1 => last_digit(v, b),
        2 => match with_digit(v, b) {
            None => None,
            Some(unit) => Some(StringState::Hex(1, unit)),
        },
        3 => match with_digit(v, b) {
            None => None,
            Some(unit) => if is_low_front(unit) {
                None
            } else {
                Some(StringState::Hex(2, unit))
            },
        },
        4 => match with_digit(v, b) {
            None => None,
            Some(unit) => Some(StringState::Hex(3, unit)),
        },
        _ => None,
    }
}

/// The second digit of the second half of a pair.
fn second_digit(high: u32, v: u32, b: u8) -> Option<StringState>
    requires { v < 4096 }
    ensures { result ≡ more_low high 3 v b }
{
    match with_digit(v, b) {
        None => None,
        Some(unit) => if is_low_front(unit) {
            Some(StringState::Low(high, 2, unit))
        } else {
            None
        },
    }
}

/// One byte of the digits of the second half of a pair.
#[tactic(auto, using(crate::proofs::strings::StringFronts::other_low, crate::proofs::strings::StringFronts::low_front_small))]
fn more_low(high: u32, k: u8, v: u32, b: u8) -> Option<StringState>
    requires { IsLowFront k v }
    ensures { result ≡ more_low high k v b }
{
    match k {
        1 => match with_digit(v, b) {
            None => None,
            Some(_) => Some(StringState::Plain),
        },
        2 => match with_digit(v, b) {
            None => None,
            Some(unit) => Some(StringState::Low(high, 1, unit)),
        },
        3 => second_digit(high, v, b),
        4 => match with_digit(v, b) {
            None => None,
            Some(unit) => if unit == 13 {
                Some(StringState::Low(high, 3, unit))
            } else {
                None
            },
        },
        _ => None,
    }
}

/// One byte between two characters.
fn more_plain(b: u8) -> Option<StringState>
    ensures { result ≡ more_string Plain b }
{
    if b == b'"' {
        Some(StringState::Closed)
    } else if b == b'\\' {
        Some(StringState::Escape)
    } else if is_plain(b) {
        Some(StringState::Plain)
    } else {
        led(b)
    }
}

/// One byte behind a reverse solidus.
fn more_escape(b: u8) -> Option<StringState>
    ensures { result ≡ more_string Escape b }
{
    if b == b'u' {
        return Some(StringState::Hex(4, 0));
    }
    match escaped_character(b) {
        None => None,
        Some(_) => Some(StringState::Plain),
    }
}

/// The state behind one more byte, where the string may have it.
pub(crate) fn more_string(s: StringState, b: u8) -> Option<StringState>
    requires { IsOpenString s }
    ensures { result ≡ more_string s b }
{
    match s {
        StringState::Plain => more_plain(b),
        StringState::Continuation(low, high, n) => if is_within(low, high, b) {
            Some(tail(n))
        } else {
            None
        },
        StringState::Escape => more_escape(b),
        StringState::Hex(k, v) => more_hex(k, v, b),
        StringState::LowSolidus(high) => if b == b'\\' {
            Some(StringState::LowU(high))
        } else {
            None
        },
        StringState::LowU(high) => if b == b'u' {
            Some(StringState::Low(high, 4, 0))
        } else {
            None
        },
        StringState::Low(high, k, v) => more_low(high, k, v, b),
        StringState::Closed => None,
    }
}
