//! The words of a text, byte by byte: signs, literal names and numbers (RFC 8259, sections 2, 3 and 6).

ghost use Rattle.std.specs.Prelude.{◌≡◌, [], option_map};
ghost use Rattle.std.specs.Prelude.{◌<◌, slice_get, OnOk, List, ℕ, Bool, true, Some, None, if◌then◌else◌};
ghost use Rattle.json_events.specs.WordSteps.{begin, first_held, after_int, some_digit, letter, is_digit, is_e, is_sign, more_state, is_number, mark_of, kind_state};
ghost use Rattle.json_events.specs.WordStates.{IsOpen};
ghost use Rattle.json_events.specs.JsonTree.{digits};
ghost use Rattle.json_events.specs.declared.state.WordState.TheVariants.{Inside, Fraction, Exponent};
ghost use Rattle.json_events.specs.declared.state.StringState.TheVariants.{Plain};
ghost use Rattle.json_events.specs.JsonText.{spelling, is_blank};

use crate::escapes::more_string;
use crate::state::{Bracket, Kind, Name, StringState, WordState};
use std::alloc::AllocError;

/// Space, tab, line feed or carriage return.
pub(crate) fn is_blank(b: u8) -> bool
    ensures { result ≡ is_blank b }
{
    b == b' ' || (b == b'\t' || (b == b'\n' || b == b'\r'))
}

fn is_digit(b: u8) -> bool
    ensures { result ≡ is_digit b }
{
    b'0' <= b && b <= b'9'
}

fn is_e(b: u8) -> bool
    ensures { result ≡ is_e b }
{
    b == b'e' || b == b'E'
}

fn is_sign(b: u8) -> bool
    ensures { result ≡ is_sign b }
{
    b == b'+' || b == b'-'
}

/// The word that a byte begins.
pub(crate) fn begin(is_key: bool, b: u8) -> Option<WordState>
    ensures { option_map (λ l. record { state = l; is_key = is_key; held = first_held l b }) result ≡ begin is_key b }
{
    match b {
        b'"' => Some(WordState::Inside(StringState::Plain)),
        b'[' => Some(WordState::Open(Bracket::Array)),
        b']' => Some(WordState::Close(Bracket::Array)),
        b'{' => Some(WordState::Open(Bracket::Object)),
        b'}' => Some(WordState::Close(Bracket::Object)),
        b',' => Some(WordState::Comma),
        b':' => Some(WordState::Colon),
        b'-' => Some(WordState::Minus),
        b'0' => Some(WordState::Zero),
        b'1'..=b'9' => Some(WordState::Whole),
        b't' => Some(WordState::Literal(Name::True, 1)),
        b'f' => Some(WordState::Literal(Name::False, 1)),
        b'n' => Some(WordState::Literal(Name::Null, 1)),
        _ => None,
    }
}

fn after_int(b: u8) -> Option<WordState>
    ensures { result ≡ after_int b }
{
    if b == b'.' {
        Some(WordState::Point)
    } else if is_e(b) {
        Some(WordState::Exponent)
    } else {
        None
    }
}

fn some_digit(l: WordState, b: u8) -> Option<WordState>
    ensures { result ≡ some_digit l b }
{
    if is_digit(b) { Some(l) } else { None }
}

/// Whether the word ends only where something else follows.
pub(crate) fn is_number(l: WordState) -> bool
    ensures { result ≡ is_number l }
{
    match l {
        WordState::Open(_)
        | WordState::Close(_)
        | WordState::Comma
        | WordState::Colon
        | WordState::Literal(_, _)
        | WordState::Inside(_) => false,
        WordState::Minus
        | WordState::Zero
        | WordState::Whole
        | WordState::Point
        | WordState::Fraction
        | WordState::Exponent
        | WordState::Sign
        | WordState::Power => true,
    }
}

/// What kind of a mark the word becomes.
pub(crate) fn kind(l: WordState, is_key: bool) -> Kind
    ensures { result ≡ kind_state l is_key }
{
    match l {
        WordState::Open(b) => Kind::Opening(b),
        WordState::Close(b) => Kind::Closing(b),
        WordState::Comma => Kind::Separator,
        WordState::Colon => Kind::Between,
        WordState::Inside(_) => if is_key { Kind::Naming } else { Kind::Scalar },
        WordState::Literal(_, _)
        | WordState::Minus
        | WordState::Zero
        | WordState::Whole
        | WordState::Point
        | WordState::Fraction
        | WordState::Exponent
        | WordState::Sign
        | WordState::Power => Kind::Scalar,
    }
}

fn spelling(n: Name) -> &'static [u8]
    ensures { result.now ≡ spelling n }
{
    match n {
        Name::True => b"true",
        Name::False => b"false",
        Name::Null => b"null",
    }
}

fn letter(n: Name, k: u8, b: u8) -> Option<WordState>
    requires { k < 5 }
    ensures { result ≡ letter n k (slice_get (spelling n) k) b }
{
    match spelling(n).get(k as usize) {
        None => None,
        Some(&c) => if b == c {
            Some(WordState::Literal(n, k + 1))
        } else {
            None
        },
    }
}

/// A byte behind digits behind the point.
fn more_fraction(b: u8) -> Option<WordState>
    ensures { result ≡ more_state Fraction b }
{
    if is_digit(b) {
        Some(WordState::Fraction)
    } else if is_e(b) {
        Some(WordState::Exponent)
    } else {
        None
    }
}

/// A byte behind the letter of an exponent.
fn more_exponent(b: u8) -> Option<WordState>
    ensures { result ≡ more_state Exponent b }
{
    if is_sign(b) {
        Some(WordState::Sign)
    } else {
        some_digit(WordState::Power, b)
    }
}

/// The word with one more byte, where it may have it.
pub(crate) fn more(l: WordState, b: u8) -> Option<WordState>
    requires { IsOpen l }
    ensures { result ≡ more_state l b }
{
    match l {
        WordState::Open(_) | WordState::Close(_) | WordState::Comma | WordState::Colon => None,
        WordState::Literal(n, k) => letter(n, k, b),
        WordState::Inside(s) => match more_string(s, b) {
            None => None,
            Some(next) => Some(WordState::Inside(next)),
        },
        WordState::Minus => if b == b'0' {
            Some(WordState::Zero)
        } else {
            some_digit(WordState::Whole, b)
        },
        WordState::Zero => after_int(b),
        WordState::Whole => if is_digit(b) {
            Some(WordState::Whole)
        } else {
            after_int(b)
        },
        WordState::Point => some_digit(WordState::Fraction, b),
        WordState::Fraction => more_fraction(b),
        WordState::Exponent => more_exponent(b),
        WordState::Sign => some_digit(WordState::Power, b),
        WordState::Power => some_digit(WordState::Power, b),
    }
}

/// Keeps the first byte of a word, where it is kept.
pub(crate) fn hold_first(held: &mut Vec<u8>, l: WordState, b: u8) -> Result<(), AllocError>
    requires { held.old.items ≡ [] }
    ensures { OnOk result (held.new.items ≡ first_held l b) }
{
    if is_number(l) {
        held.push(b)?;
    }
    Ok(())
}

/// Whether a word that has not ended by itself may end here.
pub(crate) fn is_whole(l: WordState) -> bool
    requires { IsOpen l }
    ensures { (in_key : Bool) (held : List ℕ) → mark_of l in_key held ≡ (if result then Some (digits held) else None) }
{
    match l {
        WordState::Open(_)
        | WordState::Close(_)
        | WordState::Comma
        | WordState::Colon
        | WordState::Literal(_, _)
        | WordState::Inside(_) => false,
        WordState::Minus | WordState::Point | WordState::Exponent | WordState::Sign => false,
        WordState::Zero | WordState::Whole | WordState::Fraction | WordState::Power => true,
    }
}

/// Whether a string has begun and stands between two characters.
pub(crate) fn is_plain_string(word: WordState) -> bool
    ensures { result ≡ true → word ≡ Inside Plain }
{
    match word {
        WordState::Inside(StringState::Plain) => true,
        _ => false,
    }
}
