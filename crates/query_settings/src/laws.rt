//! Laws of the definitions that the calls' contracts cite. Each is the contract of an empty function.
ghost use Rattle.std.specs.Prelude.{◌≡◌, ◌≢◌, ℕ, List, Result, Ok, Err};
ghost use Rattle.std.specs.List.{AllByRecursion};
ghost use Rattle.field_settings.specs.AppliedSettings.{FitsSetting};
ghost use Rattle.field_settings.specs.declared.setting.Setting.{Setting};
ghost use Rattle.query_settings.specs.ParameterFaults.{QueryScope};
ghost use Rattle.query_settings.specs.QueryLaws.{FailsFirst, HasReading, setting_at, setting_made};
ghost use Rattle.query_settings.specs.QuerySettings.{Assignment, IsQueryReading, counted, settings_of};
ghost use Rattle.query_settings.specs.declared.fault.ParameterKind.{ParameterKind};
ghost use Rattle.query_settings.specs.declared.fault.QueryFault.{QueryFault};
ghost use Rattle.query_settings.specs.declared.fault.QueryFault.TheVariants.{NoMemory as no_memory, Parameter};
ghost use Rattle.schema.specs.Soundness.{IsSound};

use leaf_texts::laws::{every_leaf_text_is_read, items_and_faults_are_apart, leaves_are_valid};

/// What is read of a query is one thing, but for out of memory.
pub fn one_reading_of_a_query()
    ensures { (s : QueryScope) (ignore : List (List ℕ)) (query : List ℕ) (r t : Result (List Setting) QueryFault)
        → IsQueryReading s ignore query r → IsQueryReading s ignore query t
        → r ≢ Err no_memory → t ≢ Err no_memory → r ≡ t }
{
    items_and_faults_are_apart();
}

/// Each query sets something, or nothing, or has a parameter at fault.
pub fn every_query_is_read()
    ensures { (s : QueryScope) (ignore : List (List ℕ)) (query : List ℕ) → HasReading s ignore query }
{
    every_leaf_text_is_read();
}

/// The parameter that is at fault is the first: each before it that counts sets its field.
pub fn the_first_fault_counts()
    ensures { (s : QueryScope) (ignore : List (List ℕ)) (query : List ℕ) (n : ℕ) (k : ParameterKind)
        → IsQueryReading s ignore query (Err (Parameter n k)) → FailsFirst s (counted ignore query) n k }
{}

/// However a field's assignments lie among the others, its setting is by the first of them and all that come after.
pub fn each_field_has_one_setting()
    ensures { (made : List Assignment) (path : List ℕ) → setting_at (settings_of made) path ≡ setting_made made path }
{}

/// The settings that a query makes fit the type of the message, so that they can be applied.
pub fn settings_fit()
    ensures { (s : QueryScope) (ignore : List (List ℕ)) (query : List ℕ) (settings : List Setting)
        → IsSound s.types → IsQueryReading s ignore query (Ok settings)
        → AllByRecursion (FitsSetting s.types s.input) settings }
{
    leaves_are_valid();
}
