//! Laws of the definitions.
ghost use Rattle.std.specs.Prelude.{◌≡◌, ◌≢◌, ℕ, List, Result, Err};
ghost use Rattle.std.specs.Str.{IsUtf8};
ghost use Rattle.message_types.specs.declared.fields.Scalar.{Scalar as ScalarKind};
ghost use Rattle.message_types.specs.declared.messages.Types.{Types as AllTypes};
ghost use Rattle.schema.specs.Layers.{ItemLayer};
ghost use Rattle.schema.specs.Validity.{IsScalarItem};
ghost use Rattle.schema.specs.declared.value.Item.{Item};
ghost use Rattle.scalar_texts.specs.KeyTexts.{KeyLawsHold};
ghost use Rattle.scalar_texts.specs.ScalarTexts.{IsScalarText, IsScalarTextFault, IsScalarReading, IsRead};
ghost use Rattle.scalar_texts.specs.declared.fault.ScalarFault.{ScalarFault};
ghost use Rattle.scalar_texts.specs.declared.fault.ScalarFault.TheVariants.{NoMemory};

use json_events::laws::texts_mean_one_value;
use json_integers::laws::{integers_are_computed, one_answer_of_a_text};
use json_meanings::laws::{numbers_are_read_exactly, spelled_bytes_are_computed};
use known_types::laws::one_meaning_of_a_text;

/// Two readings of a text are one, where neither is out of memory.
pub fn one_reading_of_a_text()
    ensures { (types : AllTypes) (scalar : ScalarKind) (text : List ℕ) (r s : Result Item ScalarFault)
        → IsScalarReading types scalar text r → IsScalarReading types scalar text s
        → r ≢ Err NoMemory → s ≢ Err NoMemory → r ≡ s }
{
    texts_mean_one_value();
    one_meaning_of_a_text();
}

/// What a text means is a value of the scalar kind, in its range.
pub fn readings_are_scalars()
    ensures { (types : AllTypes) (scalar : ScalarKind) (text : List ℕ) (i : ItemLayer)
        → IsScalarText types scalar text i → IsScalarItem scalar i }
{}

/// Each text means an item, or there is something wrong with it.
pub fn every_text_is_read()
    ensures { (types : AllTypes) (scalar : ScalarKind) (text : List ℕ) → IsRead types scalar text }
{
    one_answer_of_a_text();
    spelled_bytes_are_computed();
}

/// A text means one item at most, or has one fault, and not both.
pub fn items_and_faults_are_apart()
    ensures item { (types : AllTypes) (scalar : ScalarKind) (text : List ℕ) (i j : ItemLayer)
        → IsScalarText types scalar text i → IsScalarText types scalar text j → i ≡ j }
    ensures apart { (types : AllTypes) (scalar : ScalarKind) (text : List ℕ) (i : ItemLayer) (fault : ScalarFault)
        → IsScalarText types scalar text i → IsScalarTextFault types scalar text fault → ⊥ }
    ensures fault { (types : AllTypes) (scalar : ScalarKind) (text : List ℕ) (f g : ScalarFault)
        → IsScalarTextFault types scalar text f → IsScalarTextFault types scalar text g → f ≡ g }
{
    texts_mean_one_value();
    one_meaning_of_a_text();
}

/// A text is read as the key of a map in a JSON tree exactly as it is by itself, with the same faults.
pub fn keys_are_read_as_texts()
    ensures { (types : AllTypes) (scalar : ScalarKind) (text : List ℕ) → IsUtf8 text
        → KeyLawsHold types scalar text }
{
    texts_mean_one_value();
    one_meaning_of_a_text();
    spelled_bytes_are_computed();
    integers_are_computed();
    numbers_are_read_exactly();
}
