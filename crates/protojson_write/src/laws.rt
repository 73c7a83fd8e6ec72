//! Laws of the definitions that the calls' contracts cite. Each is the contract of an empty function.
ghost use Rattle.std.specs.Prelude.{◌≡◌, ℕ, false, List, Option, Some, None};
ghost use Rattle.std.specs.List.{list_any};
ghost use Rattle.std.specs.Str.{IsUtf8};
ghost use Rattle.json_events.specs.JsonStrings.{IsString};
ghost use Rattle.json_events.specs.StringOutput.{must_escape};
ghost use Rattle.json_meanings.specs.JsonScalars.{Schema};
ghost use Rattle.json_meanings.specs.KnownReadings.{schema_of};
ghost use Rattle.known_types.specs.KnownTexts.{known_text};
ghost use Rattle.message_types.specs.Types.{field_of};
ghost use Rattle.message_types.specs.declared.fields.Field.{Field};
ghost use Rattle.message_types.specs.declared.messages.TypeId.{TypeId as TypeIdOf};
ghost use Rattle.message_types.specs.declared.messages.Types.{Types as TypesOf};
ghost use Rattle.json_meanings.specs.TextMeanings.{BytesMean};
ghost use Rattle.json_meanings.specs.TextTypes.{AreByFields};
ghost use Rattle.protojson_write.specs.JsonOutput.{json_text, text_of};
ghost use Rattle.protojson_write.specs.KnownParts.{KnownTexts};
ghost use Rattle.protojson_write.specs.ScalarOutput.{quoted};
ghost use Rattle.protojson_write.specs.ShownMeans.{AreReadBack, HasUtf8Names, IsReadBack, IsShowable, shown_part};
ghost use Rattle.schema.specs.Soundness.{IsSound};
ghost use Rattle.schema.specs.Value.{slot_at};
ghost use Rattle.schema.specs.declared.value.Value.{Value as ValueOf};

use json_events::laws::{texts_have_one_tree, written_texts_mean_their_values};
use json_meanings::laws::{
    numbers_are_read_exactly, readings_hold, sound_types_have_known_fields,
    spelled_bytes_are_computed,
};
use known_types::laws::{
    known_texts_are_plain, written_bytes_are_read_back, written_bytes_are_symbols,
};

/// Where no type is a timestamp, a duration or a field mask, each value has a text, and so has each field of its type.
pub fn values_have_texts()
    ensures whole { (types : TypesOf) (id : TypeIdOf) (v : ValueOf) → AreByFields types
        → (text : List ℕ) × (text_of types id None v ≡ Some text) }
    ensures part { (types : TypesOf) (id : TypeIdOf) (n : ℕ) (v : ValueOf) (f : Field) → AreByFields types
        → field_of types id n ≡ Some f → (text : List ℕ) × (text_of types id (Some n) v ≡ Some text) }
{}

/// A text of which no byte must be escaped is in quotes, as it is, a JSON string that stands for it (RFC 8259, section 7):
/// so are the texts of well-known types written.
pub fn unescaped_texts_stand_in_quotes()
    ensures { (text : List ℕ) → IsUtf8 text → list_any must_escape text ≡ false → IsString text (quoted text) }
{
    written_texts_mean_their_values();
}

/// The texts of valid timestamps, durations and field masks are read back where JSON is read by the types, which are sound:
/// each in quotes is a JSON string that stands for it, and means the message.
pub fn known_texts_are_read_back()
    ensures { (types : TypesOf) → IsSound types → AreReadBack known_text (schema_of types) }
{
    written_texts_mean_their_values();
    sound_types_have_known_fields();
    known_types::laws::known_texts_are_read_back();
    known_texts_are_plain();
}

/// Where texts of well-known types are read back, whatever these are, what is shown means the value, and no other: the
/// text of a value, or of one field of it, is a text of a tree that means the value, or the message that has that field
/// alone. Where one text is shown of two values, they are one, and where it is shown of one field of each, the fields
/// are. It rests on sound types with names in UTF-8.
pub fn texts_that_are_read_back_mean_their_values()
    ensures means { (texts : KnownTexts) (c : Schema) (id : TypeIdOf) (part : Option ℕ) (v : ValueOf) (text : List ℕ)
        → IsReadBack texts c → IsShowable c.types id v → json_text texts c.types id part v ≡ Some text
        → BytesMean c id part text (shown_part part v) }
    ensures alone { (texts : KnownTexts) (c : Schema) (id : TypeIdOf) (part : Option ℕ) (v w : ValueOf) (text : List ℕ)
        → IsReadBack texts c → IsShowable c.types id v → json_text texts c.types id part v ≡ Some text
        → BytesMean c id part text w → w ≡ shown_part part v }
    ensures once { (texts : KnownTexts) (c : Schema) (id : TypeIdOf) (v w : ValueOf) (text : List ℕ)
        → IsReadBack texts c → IsShowable c.types id v → IsShowable c.types id w
        → json_text texts c.types id None v ≡ Some text → json_text texts c.types id None w ≡ Some text → v ≡ w }
    ensures field_once { (texts : KnownTexts) (c : Schema) (id : TypeIdOf) (n : ℕ) (v w : ValueOf) (text : List ℕ)
        → IsReadBack texts c → IsShowable c.types id v → IsShowable c.types id w
        → json_text texts c.types id (Some n) v ≡ Some text → json_text texts c.types id (Some n) w ≡ Some text
        → slot_at v n ≡ slot_at w n }
{
    texts_have_one_tree();
    written_texts_mean_their_values();
    numbers_are_read_exactly();
    readings_hold();
    spelled_bytes_are_computed();
    written_bytes_are_read_back();
    written_bytes_are_symbols();
}

/// What is shown means the value, and no other, where JSON is read by the types: the text of a value, or of one field of
/// it, is a text of a tree that means the value, or the message that has that field alone. Where one text is shown of two
/// values, they are one, and where it is shown of one field of each, the fields are. It rests on sound types with names
/// in UTF-8.
pub fn shown_texts_mean_their_values()
    ensures means { (types : TypesOf) (id : TypeIdOf) (part : Option ℕ) (v : ValueOf) (text : List ℕ)
        → IsSound types → HasUtf8Names types → IsShowable types id v → text_of types id part v ≡ Some text
        → BytesMean (schema_of types) id part text (shown_part part v) }
    ensures alone { (types : TypesOf) (id : TypeIdOf) (part : Option ℕ) (v w : ValueOf) (text : List ℕ)
        → IsSound types → HasUtf8Names types → IsShowable types id v → text_of types id part v ≡ Some text
        → BytesMean (schema_of types) id part text w → w ≡ shown_part part v }
    ensures once { (types : TypesOf) (id : TypeIdOf) (v w : ValueOf) (text : List ℕ)
        → IsSound types → HasUtf8Names types → IsShowable types id v → IsShowable types id w
        → text_of types id None v ≡ Some text → text_of types id None w ≡ Some text → v ≡ w }
    ensures field_once { (types : TypesOf) (id : TypeIdOf) (n : ℕ) (v w : ValueOf) (text : List ℕ)
        → IsSound types → HasUtf8Names types → IsShowable types id v → IsShowable types id w
        → text_of types id (Some n) v ≡ Some text → text_of types id (Some n) w ≡ Some text
        → slot_at v n ≡ slot_at w n }
{
    known_texts_are_read_back();
    texts_that_are_read_back_mean_their_values();
}
