//! Laws of the definitions.
ghost use Rattle.std.specs.Prelude.{◌≡◌, ◌≤◌, ℕ, List, Option};
ghost use Rattle.message_types.specs.declared.messages.TypeId.{TypeId as TypeIdOf};
ghost use Rattle.message_types.specs.declared.messages.Types.{Types as AllTypes};
ghost use Rattle.schema.specs.Soundness.{IsSound};
ghost use Rattle.schema.specs.Validity.{IsValid};
ghost use Rattle.schema.specs.declared.value.Value.{Value as ValueOf};
ghost use Rattle.json_events.specs.JsonTree.{Json, Mark};
ghost use Rattle.json_meanings.specs.FaultPlaces.{Fault};
ghost use Rattle.json_meanings.specs.FieldFaults.{IsFirstFault, tree_tokens};
ghost use Rattle.json_meanings.specs.JsonDenotes.{Denotes};
ghost use Rattle.json_meanings.specs.JsonScalars.{Schema};
ghost use Rattle.json_meanings.specs.ValidLaws.{HasUtf8};
ghost use Rattle.json_meanings.specs.TokenNesting.{nesting, nesting_limit};
ghost use Rattle.protojson_read.specs.BuilderReads.{HasEnded, Reads};
ghost use Rattle.json_meanings.specs.KnownReadings.{schema_of};
ghost use Rattle.protojson_read.specs.declared.builder.Builder.{Builder as BuilderOf};

use json_meanings::laws::{
    brackets_nest_within_a_limit, read_values_are_valid, readings_hold,
    readings_of_types_give_valid_values,
};

/// Tokens that a builder has taken have no fault.
pub fn taken_tokens_have_no_fault()
    ensures { (b : BuilderOf) (c : Schema) (id : TypeIdOf) (n : Option ℕ) (place : ℕ) (ts : List Mark) (f : Fault)
        → Reads b c id n place ts → IsFirstFault c id n ts f → ⊥ }
{
    readings_hold();
}

/// The brackets of tokens that a builder has taken nest at most 200 deep.
pub fn taken_brackets_nest_within_a_limit()
    ensures { (b : BuilderOf) (c : Schema) (id : TypeIdOf) (n : Option ℕ) (place : ℕ) (ts : List Mark)
        → Reads b c id n place ts → nesting ts ≤ nesting_limit }
{
    brackets_nest_within_a_limit();
}

/// A builder that has taken all tokens of a tree holds its value.
pub fn taken_trees_have_ended()
    ensures { (b : BuilderOf) (c : Schema) (id : TypeIdOf) (n : Option ℕ) (place : ℕ) (j : Json)
        → Reads b c id n place (tree_tokens j) → HasEnded b }
{
    readings_hold();
}

/// The value of a tree is valid, where the types are sound and the strings of the tree are UTF-8, as those of a text
/// are.
pub fn built_values_are_valid()
    ensures { (types : AllTypes) (id : TypeIdOf) (n : Option ℕ) (j : Json) (v : ValueOf) → IsSound types → HasUtf8 j
        → Denotes (schema_of types) id n j v → IsValid types id v }
{
    read_values_are_valid();
    readings_of_types_give_valid_values();
}
