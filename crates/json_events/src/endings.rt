//! What a word becomes where it ends.

ghost use Rattle.std.specs.Prelude.{◌≡◌, ℕ, [], List, Bool, Some, None, IsUtf8, option_map, if◌then◌else◌};
ghost use Rattle.json_events.specs.JsonText.{with_token};
ghost use Rattle.json_events.specs.WordSteps.{is_number, mark_of, text_mark};
ghost use Rattle.json_events.specs.declared.state.WordState.TheVariants.{Literal, Inside};
ghost use Rattle.json_events.specs.ReaderAnswers.{mark_seen};
ghost use Rattle.json_events.specs.ProgressSeen.{ended_seen, IsEndOf};

use crate::state::{Bracket, Name, StringState, WordState};
use crate::step::Ended;
use crate::token::Token;
use base::Text;
use std::alloc::Global;
use std::mem;

/// Whether a word that has taken a byte has ended by itself.
pub(crate) fn ended(l: WordState) -> Ended
    ensures text { IsEndOf result l }
    ensures seen { (in_key : Bool) (held : List ℕ) (from to : ℕ) → ended_seen result in_key held from to ≡ option_map (λ m. with_token m from to []) (if is_number l then None else mark_of l in_key held) }
{
    match l {
        WordState::Open(Bracket::Array) => Ended::Gives(Token::BeginArray),
        WordState::Open(Bracket::Object) => Ended::Gives(Token::BeginObject),
        WordState::Close(Bracket::Array) => Ended::Gives(Token::EndArray),
        WordState::Close(Bracket::Object) => Ended::Gives(Token::EndObject),
        WordState::Comma | WordState::Colon => Ended::Quiet,
        WordState::Literal(n, k) => name_ended(n, k),
        WordState::Inside(s) => string_ended(s),
        WordState::Minus
        | WordState::Zero
        | WordState::Whole
        | WordState::Point
        | WordState::Fraction
        | WordState::Exponent
        | WordState::Sign
        | WordState::Power => Ended::No,
    }
}

/// A literal name of which so many bytes came.
fn name_ended(n: Name, k: u8) -> Ended
    ensures text { IsEndOf result (Literal n k) }
    ensures seen { (in_key : Bool) (held : List ℕ) (from to : ℕ) → ended_seen result in_key held from to ≡ option_map (λ m. with_token m from to []) (mark_of (Literal n k) in_key held) }
{
    match n {
        Name::True => if k == 4 {
            Ended::Gives(Token::True)
        } else {
            Ended::No
        },
        Name::False => if k == 5 {
            Ended::Gives(Token::False)
        } else {
            Ended::No
        },
        Name::Null => if k == 4 {
            Ended::Gives(Token::Null)
        } else {
            Ended::No
        },
    }
}

fn string_ended(s: StringState) -> Ended
    ensures text { IsEndOf result (Inside s) }
    ensures seen { (in_key : Bool) (held : List ℕ) (from to : ℕ) → ended_seen result in_key held from to ≡ option_map (λ m. with_token m from to []) (mark_of (Inside s) in_key held) }
{
    match s {
        StringState::Closed => Ended::Text,
        StringState::Plain
        | StringState::Continuation(_, _, _)
        | StringState::Escape
        | StringState::Hex(_, _)
        | StringState::LowSolidus(_)
        | StringState::LowU(_)
        | StringState::Low(_, _, _) => Ended::No,
    }
}

/// Takes the bytes out as a text, in the block that they have.
pub(crate) fn take_text(alloc: Global, held: &mut Vec<u8>) -> Text
    requires { IsUtf8 held.old.items }
    ensures text { result ≡ held.old.items }
    ensures empty { held.new.items ≡ [] }
{
    match String::from_utf8(mem::replace(held, Vec::new(alloc))) {
        Ok(text) => Text::from_string(text),
        Err(_) => Text::new(alloc),
    }
}

/// The token of a string.
pub(crate) fn string_token(is_key: bool, text: Text) -> Token
    ensures { mark_seen result ≡ text_mark is_key text }
{
    if is_key {
        Token::Key(text)
    } else {
        Token::Text(text)
    }
}
