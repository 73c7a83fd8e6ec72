//! Laws of the definitions. Each is the contract of an empty function.
ghost use Rattle.std.specs.Prelude.{◌≡◌, ℕ, List, Option};
ghost use Rattle.message_types.specs.declared.messages.TypeId.{TypeId as TypeIdOf};
ghost use Rattle.message_types.specs.declared.messages.Types.{Types};
ghost use Rattle.schema.specs.Soundness.{IsSound};
ghost use Rattle.schema.specs.Validity.{IsValid};
ghost use Rattle.schema.specs.declared.value.Value.{Value as ValueOf};
ghost use Rattle.json_events.specs.JsonText.{Span};
ghost use Rattle.json_events.specs.JsonTokens.{AreTokensOf};
ghost use Rattle.json_meanings.specs.JsonScalars.{Schema};
ghost use Rattle.json_meanings.specs.KnownReadings.{schema_of};
ghost use Rattle.json_meanings.specs.TextMeanings.{BytesMean};
ghost use Rattle.json_bodies.specs.FrontFaults.{FaultStays, IsFrontFault, ShowsFaultOrNone, ShowsNoFault};
ghost use Rattle.json_bodies.specs.WholeMessages.{HasNoFault, HasOneOutcome, HasOutcome};
ghost use Rattle.json_bodies.specs.declared.fault.BodyFault.{BodyFault as BodyFaultOf};

use json_events::Reader;
use json_events::laws::{
    bytes_have_one_list_of_tokens, fronts_have_one_list_of_tokens, texts_have_one_tree,
};
use json_meanings::laws::{
    read_values_are_valid, readings_hold, readings_of_types_give_valid_values,
    texts_have_the_tokens_of_trees,
};
use std::alloc::Global;

/// Bytes mean at most one value as a message of a type, or as its one field, or have one fault, and not both.
pub fn one_outcome_of_a_text()
    ensures { (c : Schema) (id : TypeIdOf) (n : Option ℕ) (place : ℕ) (bytes : List ℕ)
        → HasOneOutcome c id n place bytes }
{
    readings_hold();
    texts_have_one_tree();
    texts_have_the_tokens_of_trees();
    fronts_have_one_list_of_tokens();
    bytes_have_one_list_of_tokens();
}

/// Any bytes mean a value, or have a fault. The reader that tells whether they are a text takes no memory.
pub fn every_text_has_an_outcome(alloc: Global)
    ensures { (c : Schema) (id : TypeIdOf) (n : Option ℕ) (place : ℕ) (bytes : List ℕ) → HasOutcome c id n place bytes }
{
    readings_hold();
    texts_have_one_tree();
    texts_have_the_tokens_of_trees();
    fronts_have_one_list_of_tokens();
    bytes_have_one_list_of_tokens();
    let _reader = Reader::new(alloc);
}

/// Bytes show at most one first fault before they end.
pub fn one_front_fault()
    ensures { (c : Schema) (id : TypeIdOf) (n : Option ℕ) (place : ℕ) (bytes : List ℕ) (f g : BodyFaultOf)
        → IsFrontFault c id n place bytes f → IsFrontFault c id n place bytes g → f ≡ g }
{
    one_outcome_of_a_text();
}

/// A fault that bytes show before they end is shown by all bytes that begin with them, and is the fault of these as a
/// whole body.
pub fn front_faults_stay()
    ensures { (c : Schema) (id : TypeIdOf) (n : Option ℕ) (place : ℕ) (bytes more : List ℕ) (f : BodyFaultOf)
        → IsFrontFault c id n place bytes f → FaultStays c id n place bytes more f }
{
    fronts_have_one_list_of_tokens();
}

/// Bytes that begin a text whose ended tokens have no fault show none.
pub(crate) fn sound_fronts_show_no_fault()
    ensures { (c : Schema) (id : TypeIdOf) (n : Option ℕ) (place : ℕ) (bytes : List ℕ) (ts : List Span)
        → AreTokensOf bytes ts → HasNoFault c id n ts → ShowsNoFault c id n place bytes }
{
    readings_hold();
    texts_have_the_tokens_of_trees();
    fronts_have_one_list_of_tokens();
    bytes_have_one_list_of_tokens();
}

/// Any bytes show a fault before they end, or none.
pub fn fronts_are_decided()
    ensures { (c : Schema) (id : TypeIdOf) (n : Option ℕ) (place : ℕ) (bytes : List ℕ)
        → ShowsFaultOrNone c id n place bytes }
{
    readings_hold();
    texts_have_the_tokens_of_trees();
    fronts_have_one_list_of_tokens();
    bytes_have_one_list_of_tokens();
    sound_fronts_show_no_fault();
}

/// What bytes mean is a valid message of the type, where the types are sound.
pub fn bodies_are_valid()
    ensures { (types : Types) (id : TypeIdOf) (n : Option ℕ) (bytes : List ℕ) (v : ValueOf) → IsSound types
        → BytesMean (schema_of types) id n bytes v → IsValid types id v }
{
    read_values_are_valid();
    readings_of_types_give_valid_values();
}
