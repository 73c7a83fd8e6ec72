//! The law, as the contract of an empty function.
ghost use Rattle.std.specs.Prelude.{◌≡◌, ℕ, List, Option, Some, Result, Ok};
ghost use Rattle.json_bodies.specs.WholeMessages.{IsBodyAnswer};
ghost use Rattle.json_bodies.specs.declared.fault.BodyFault.{BodyFault};
ghost use Rattle.json_meanings.specs.KnownReadings.{schema_of};
ghost use Rattle.message_types.specs.declared.messages.TypeId.{TypeId};
ghost use Rattle.message_types.specs.declared.messages.Types.{Types};
ghost use Rattle.protojson_write.specs.JsonOutput.{text_of};
ghost use Rattle.protojson_write.specs.ShownMeans.{HasUtf8Names, IsShowable, shown_part};
ghost use Rattle.schema.specs.Soundness.{IsSound};
ghost use Rattle.schema.specs.declared.value.Value.{Value};

use protojson_write::laws::shown_texts_mean_their_values;

/// What `read_body` answers of the text that `show` writes, unless memory was not found, is the value that was shown, or,
/// of one field alone, the message that has that field and no other; wherever the text stands. It rests on sound types
/// with names in UTF-8, and on a valid value whose bytes are bytes.
pub fn what_is_shown_is_read_again()
    ensures { (types : Types) (id : TypeId) (part : Option ℕ) (v : Value) (text : List ℕ) (place : ℕ)
        (r : Result Value BodyFault) → IsSound types → HasUtf8Names types → IsShowable types id v
        → text_of types id part v ≡ Some text → IsBodyAnswer (schema_of types) id part place text r
        → r ≡ Ok (shown_part part v) }
{
    shown_texts_mean_their_values();
}
