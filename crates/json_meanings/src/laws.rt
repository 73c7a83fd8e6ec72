//! Laws of the definitions. Each is the contract of an empty function.
ghost use Rattle.std.specs.Prelude.{◌≡◌, ◌↔◌, ◌⊎◌, Option, Some, ℕ, ℤ, List, take};
ghost use Rattle.std.specs.List.{AllByRecursion};
ghost use Rattle.base64.specs.GeneralPurpose.{IsBytes};
ghost use Rattle.message_types.specs.Types.{fields_of};
ghost use Rattle.message_types.specs.declared.fields.Scalar.{Scalar};
ghost use Rattle.message_types.specs.declared.messages.TypeId.{TypeId};
ghost use Rattle.message_types.specs.declared.messages.Types.{Types};
ghost use Rattle.schema.specs.Soundness.{HasKnownFields, IsSound};
ghost use Rattle.schema.specs.Validity.{IsValid};
ghost use Rattle.schema.specs.declared.value.Value.{Value};
ghost use Rattle.json_events.specs.JsonTree.{Json, Mark};
ghost use Rattle.json_events.specs.JsonText.{HasWord, Span, IsTextWith, marks_of};
ghost use Rattle.json_events.specs.JsonTokens.{BeginsWith};
ghost use Rattle.known_types.specs.BytesTexts.{IsBytesText};
ghost use Rattle.json_meanings.specs.FaultPlaces.{Fault};
ghost use Rattle.json_meanings.specs.FieldFaults.{BeginsTree, BeginsValue, IsFirstFault, tree_tokens};
ghost use Rattle.json_meanings.specs.FirstLaws.{BeginsValueText, HasTexts, IsAtFirstToken};
ghost use Rattle.json_meanings.specs.JsonScalars.{IsNumberKind, Schema};
ghost use Rattle.json_meanings.specs.KnownReadings.{schema_of};
ghost use Rattle.json_meanings.specs.ReadingLaws.{ReadingLawsHold};
ghost use Rattle.json_meanings.specs.JsonDenotes.{Denotes};
ghost use Rattle.json_meanings.specs.ScalarLaws.{NumberLawsHold, RangeLawsHold};
ghost use Rattle.json_meanings.specs.SpelledBytes.{spelled_bytes};
ghost use Rattle.json_meanings.specs.SpotTables.{known_of};
ghost use Rattle.json_meanings.specs.TextTypes.{AreByFields, IsTextType};
ghost use Rattle.json_meanings.specs.TokenNesting.{NestingLawsHold};
ghost use Rattle.json_meanings.specs.ValidLaws.{GivesValid, HasUtf8, MarkIsUtf8};

use json_events::laws::{
    texts_have_one_tree, texts_mean_one_value, written_texts_mean_their_values,
};
use json_integers::laws::integers_are_computed;
use known_types::laws::{known_values_are_valid, one_meaning_of_a_text};

/// A tree means at most one value, or its tokens have one first fault, which stays whatever follows; and reading them one
/// after another finds it at its token.
pub fn readings_hold()
    ensures { (c : Schema) (id : TypeId) (n : Option ℕ) → ReadingLawsHold c id n }
{}

/// A text is read as a number exactly where it denotes an integer that the kind has. Where it denotes none it is BadNumber,
/// and where it denotes one that the kind does not have it is OutOfRange.
pub fn numbers_are_read_exactly()
    ensures texts { (s : Scalar) (text : List ℕ) → IsNumberKind s → NumberLawsHold s text }
    ensures ranges { (s : Scalar) (z : ℤ) → IsNumberKind s → RangeLawsHold s z }
{
    integers_are_computed();
}

/// The token with the first fault is the first such that the tokens up to it begin no accepted value: those before it
/// begin one.
pub fn faults_are_at_the_first_token()
    ensures { (c : Schema) (id : TypeId) (n : Option ℕ) (ts : List Mark) (f : Fault) → IsSound c.types → HasTexts c
        → IsFirstFault c id n ts f → IsAtFirstToken c id n ts f }
{
    readings_hold();
}

/// Tokens that begin a tree's begin an accepted value's, or have a first fault.
pub fn tokens_begin_a_value_or_have_a_fault()
    ensures { (c : Schema) (id : TypeId) (n : Option ℕ) (ts : List Mark) → IsSound c.types → HasTexts c
        → BeginsTree ts → BeginsValue c id n ts ⊎ ((f : Fault) × IsFirstFault c id n ts f) }
{
    readings_hold();
}

/// Where the tokens before the first fault have a text, as those of bytes that begin one have, some text begins with them
/// whose tree means a value.
pub fn faults_are_at_the_first_token_of_texts()
    ensures words { (c : Schema) (id : TypeId) (n : Option ℕ) (ts : List Mark) (f : Fault) → IsSound c.types → HasTexts c
        → IsFirstFault c id n ts f → AllByRecursion HasWord (take f.0 ts) → BeginsValueText c id n (take f.0 ts) }
    ensures texts { (c : Schema) (id : TypeId) (n : Option ℕ) (bytes : List ℕ) (ts : List Span) (f : Fault)
        → IsSound c.types → HasTexts c → BeginsWith bytes ts → IsFirstFault c id n (marks_of ts) f
        → BeginsValueText c id n (take f.0 (marks_of ts)) }
{
    texts_mean_one_value();
    written_texts_mean_their_values();
    texts_have_one_tree();
}

/// The brackets of tokens that begin an accepted value nest at most 200 deep, and as many are open as there are spots
/// around.
pub fn brackets_nest_within_a_limit()
    ensures { (c : Schema) (id : TypeId) (n : Option ℕ) → NestingLawsHold c id n }
{}

/// A text spells bytes in base64 exactly where these are computed of it.
pub fn spelled_bytes_are_computed()
    ensures { (text bytes : List ℕ) → IsBytes text → (IsBytesText text bytes ↔ (spelled_bytes text ≡ Some bytes)) }
{
    one_meaning_of_a_text();
}

/// The tokens of a text are those of its tree, and the tokens with which a text's begin are those with which a tree's do.
pub fn texts_have_the_tokens_of_trees()
    ensures tree { (j : Json) (s : List ℕ) (ts : List Span) → IsTextWith j s ts → marks_of ts ≡ tree_tokens j }
    ensures begins { (bytes : List ℕ) (ts : List Span) → BeginsWith bytes ts → BeginsTree (marks_of ts) }
{
    texts_have_one_tree();
}

/// A value that a tree means is valid, where the strings of the tree are UTF-8, as those of a text are, and those of
/// tokens whose texts are UTF-8.
pub fn read_values_are_valid()
    ensures values { (c : Schema) (id : TypeId) (n : Option ℕ) (j : Json) (v : Value) → IsSound c.types → GivesValid c
        → HasUtf8 j → Denotes c id n j v → IsValid c.types id v }
    ensures strings { (j : Json) (s : List ℕ) (ts : List Span) → IsTextWith j s ts → HasUtf8 j }
    ensures tokens { (j : Json) → AllByRecursion MarkIsUtf8 (tree_tokens j) → HasUtf8 j }
{
    numbers_are_read_exactly();
    texts_mean_one_value();
}

/// Types are written by their fields alone exactly where none of them is written as a text.
pub fn types_by_fields_have_no_texts()
    ensures { (types : Types) → AreByFields types ↔ ((id : TypeId) → IsTextType (known_of types id) → ⊥) }
{}

/// A sound type has exactly the fields of the well-known type that it is.
pub fn sound_types_have_known_fields()
    ensures { (types : Types) (id : TypeId) → IsSound types
        → HasKnownFields (known_of types id) (fields_of types id) }
{}

/// What the texts of timestamps, durations and field masks mean is valid, where the types are sound: JSON that is read by
/// the types gives valid values.
pub fn readings_of_types_give_valid_values()
    ensures { (types : Types) → IsSound types → GivesValid (schema_of types) }
{
    known_values_are_valid();
}
