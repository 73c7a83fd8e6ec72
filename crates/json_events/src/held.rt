//! What is kept of a word that has not ended: the bytes of a number, the text of a string.

ghost use Rattle.std.specs.Prelude.{◌≡◌, ◌≢◌, ℕ, ◌+◌, ◌*◌, ◌≤◌, ◌++◌, true, None, OnOk};
ghost use Rattle.std.specs.Char.{digit_value, encode_utf8, IsScalar};
ghost use Rattle.json_events.specs.declared.state.StringState.TheVariants.{Escape};
ghost use Rattle.json_events.specs.JsonStrings.{is_high_surrogate, paired};
ghost use Rattle.json_events.specs.StringSteps.{is_hex, hex_held, low_held, more_string, string_adds};
ghost use Rattle.json_events.specs.WordStates.{IsUnitFront, IsLowFront, IsOpenString, IsOpen};
ghost use Rattle.json_events.specs.WordSteps.{more_state, held_on};

use crate::escapes::{escaped_character, is_high_surrogate, with_digit};
use crate::state::{StringState, WordState};
use std::alloc::AllocError;

/// Appends a character.
fn push_character(held: &mut Vec<u8>, code: u32) -> Result<(), AllocError>
    requires { IsScalar code }
    ensures { OnOk result (held.new.items ≡ held.old.items ++ encode_utf8 code) }
{
    match char::from_u32(code) {
        None => Ok(()),
        Some(c) => {
            let mut buffer = [0; 4];
            held.extend_from_slice(c.encode_utf8(&mut buffer).as_bytes())?;
            Ok(())
        }
    }
}

/// The last digit behind `\u`: the first half of a pair adds nothing yet.
#[tactic(auto, using(crate::proofs::strings::StringFronts::unit_is_scalar))]
fn hold_unit(held: &mut Vec<u8>, v: u32, b: u8) -> Result<(), AllocError>
    requires front { IsUnitFront 1 v }
    requires digit { is_hex b ≡ true }
    ensures { OnOk result (held.new.items ≡ held.old.items ++ hex_held 0 (v * 16 + digit_value b)) }
{
    match with_digit(v, b) {
        None => Ok(()),
        Some(unit) => if is_high_surrogate(unit) {
            Ok(())
        } else {
            push_character(held, unit)
        },
    }
}

/// The character of a surrogate pair.
fn paired(high: u32, low: u32) -> u32
    requires high { 55296 ≤ high }
    requires high_end { high ≤ 56319 }
    requires low { 56320 ≤ low }
    requires low_end { low ≤ 57343 }
    ensures { result ≡ paired high low }
{
    65536 + (high - 55296) * 1024 + (low - 56320)
}

/// The last digit of the second half of a pair: it adds the character of the pair.
#[tactic(auto, using(crate::proofs::strings::LowHalves::low_is_scalar, crate::proofs::strings::LowHalves::low_ends, crate::proofs::strings::StringFronts::high_ends))]
fn hold_low(held: &mut Vec<u8>, high: u32, v: u32, b: u8) -> Result<(), AllocError>
    requires high { is_high_surrogate high ≡ true }
    requires front { IsLowFront 1 v }
    requires digit { is_hex b ≡ true }
    ensures { OnOk result (held.new.items ≡ held.old.items ++ low_held high 0 (v * 16 + digit_value b)) }
{
    match with_digit(v, b) {
        None => Ok(()),
        Some(unit) => push_character(held, paired(high, unit)),
    }
}

/// The letter of an escape: it adds its character.
fn hold_escape(held: &mut Vec<u8>, b: u8) -> Result<(), AllocError>
    ensures { OnOk result (held.new.items ≡ held.old.items ++ string_adds Escape b) }
{
    if b == b'u' {
        return Ok(());
    }
    match escaped_character(b) {
        None => Ok(()),
        Some(c) => {
            held.push(c)?;
            Ok(())
        }
    }
}

/// Keeps what a byte adds to the text of a string, which may have that byte.
#[tactic(auto, using(crate::proofs::strings::StringFronts::needed_digit, crate::proofs::strings::StringFronts::needed_low, crate::proofs::strings::StringFronts::other_digit, crate::proofs::strings::StringFronts::other_low_digit))]
fn hold_text(held: &mut Vec<u8>, s: StringState, b: u8) -> Result<(), AllocError>
    requires open { IsOpenString s }
    requires goes_on { more_string s b ≢ None }
    ensures { OnOk result (held.new.items ≡ held.old.items ++ string_adds s b) }
{
    match s {
        StringState::Plain => if b == b'"' || b == b'\\' {
            Ok(())
        } else {
            held.push(b)?;
            Ok(())
        },
        StringState::Continuation(_, _, _) => {
            held.push(b)?;
            Ok(())
        }
        StringState::Escape => hold_escape(held, b),
        StringState::Hex(k, v) => if k == 1 {
            hold_unit(held, v, b)
        } else {
            Ok(())
        },
        StringState::Low(high, k, v) => if k == 1 {
            hold_low(held, high, v, b)
        } else {
            Ok(())
        },
        StringState::LowSolidus(_) | StringState::LowU(_) | StringState::Closed => Ok(()),
    }
}

/// Keeps a further byte of a word, which may have it, where it is kept.
#[tactic(auto, using(crate::proofs::strings::StringFronts::inside_goes_on))]
pub(crate) fn hold_more(held: &mut Vec<u8>, word: WordState, b: u8) -> Result<(), AllocError>
    requires open { IsOpen word }
    requires goes_on { more_state word b ≢ None }
    ensures { OnOk result (held.new.items ≡ held_on word held.old.items b) }
{
    match word {
        WordState::Inside(s) => hold_text(held, s, b),
        WordState::Minus
        | WordState::Zero
        | WordState::Whole
        | WordState::Point
        | WordState::Fraction
        | WordState::Exponent
        | WordState::Sign
        | WordState::Power => {
            held.push(b)?;
            Ok(())
        }
        WordState::Open(_)
        | WordState::Close(_)
        | WordState::Comma
        | WordState::Colon
        | WordState::Literal(_, _) => Ok(()),
    }
}
