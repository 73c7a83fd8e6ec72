//! Laws of the definitions that the calls' contracts cite. Each is the contract of an empty function.
ghost use Rattle.std.specs.Prelude.{◌≡◌, ◌+◌, ◌*◌, ◌/◌, ℕ, suc, List, length, true, Some, is_some, Ok};
ghost use Rattle.std.specs.List.{list_all};
ghost use Rattle.base64.specs.GeneralPurpose.{IsBytes};
ghost use Rattle.known_types.specs.BytesTexts.{IsBytesText, bytes_text, is_written_byte};
ghost use Rattle.known_types.specs.KnownTexts.{is_plain_byte, known_text, known_value};
ghost use Rattle.message_types.specs.Types.{fields_of};
ghost use Rattle.message_types.specs.declared.messages.Known.{Known as KnownOf};
ghost use Rattle.message_types.specs.declared.messages.TypeId.{TypeId as TypeIdOf};
ghost use Rattle.message_types.specs.declared.messages.Types.{Types as TypesOf};
ghost use Rattle.schema.specs.Soundness.{HasKnownFields};
ghost use Rattle.schema.specs.Validity.{valid_within};
ghost use Rattle.schema.specs.declared.value.Value.{Value as ValueOf};

use mask_texts::laws::{
    items_keep_their_paths, masks_are_plain_text, meanings_are_computed,
    written_masks_are_read_back,
};
use time_texts::laws::{
    printable_instants_have_texts, printable_is_computed, read_times_are_printable,
    readings_are_computed, written_texts_are_read_back,
};

/// A text spells one list of bytes at most.
pub fn one_meaning_of_a_text()
    ensures { (text a b : List ℕ) → IsBytesText text a → IsBytesText text b → a ≡ b }
{}

/// The text that is written for bytes spells them, and is that of no other bytes.
pub fn written_bytes_are_read_back()
    ensures spelled { (bytes : List ℕ) → IsBytes bytes → IsBytesText (bytes_text bytes) bytes }
    ensures apart { (a b : List ℕ) → IsBytes a → IsBytes b → bytes_text a ≡ bytes_text b → a ≡ b }
{}

/// The text that is written has letters, digits, `+`, `/` and `=` alone, so that it can stand between quotes as it is, and
/// four bytes for each three bytes or what is left of three.
pub fn written_bytes_are_symbols()
    ensures symbols { (bytes : List ℕ) → IsBytes bytes → list_all is_written_byte (bytes_text bytes) ≡ true }
    ensures len { (bytes : List ℕ) → length (bytes_text bytes) ≡ 4 * ((length bytes + 2) / 3) }
{}

/// What is read of a text is a valid message of the type, where that has the fields of the well-known type.
pub fn known_values_are_valid()
    ensures { (types : TypesOf) (id : TypeIdOf) (k : ℕ) (known : KnownOf) (text : List ℕ) (v : ValueOf)
        → HasKnownFields known (fields_of types id) → known_value known text ≡ Ok v
        → (valid_within (suc k) types).message id v }
{
    readings_are_computed();
    read_times_are_printable();
    meanings_are_computed();
    masks_are_plain_text();
}

/// The text that is written for a valid message is read back as it, so that no two messages have one text.
pub fn known_texts_are_read_back()
    ensures read { (types : TypesOf) (id : TypeIdOf) (k : ℕ) (known : KnownOf) (v : ValueOf) (text : List ℕ)
        → HasKnownFields known (fields_of types id) → (valid_within (suc k) types).message id v
        → known_text known v ≡ Some text → known_value known text ≡ Ok v }
    ensures apart { (types : TypesOf) (id : TypeIdOf) (k : ℕ) (known : KnownOf) (v w : ValueOf) (text : List ℕ)
        → HasKnownFields known (fields_of types id) → (valid_within (suc k) types).message id v
        → (valid_within (suc k) types).message id w
        → known_text known v ≡ Some text → known_text known w ≡ Some text → v ≡ w }
{
    readings_are_computed();
    printable_is_computed();
    printable_instants_have_texts();
    written_texts_are_read_back();
    meanings_are_computed();
    written_masks_are_read_back();
}

/// What is read of a text has a text.
pub fn known_values_have_texts()
    ensures { (known : KnownOf) (text : List ℕ) (v : ValueOf) → known_value known text ≡ Ok v
        → is_some (known_text known v) ≡ true }
{
    readings_are_computed();
    read_times_are_printable();
    printable_is_computed();
    meanings_are_computed();
    written_masks_are_read_back();
    items_keep_their_paths();
}

/// Each byte of a text that is written may stand in a JSON string as it is (RFC 8259, section 7).
pub fn known_texts_are_plain()
    ensures { (known : KnownOf) (v : ValueOf) (text : List ℕ) → known_text known v ≡ Some text
        → list_all is_plain_byte text ≡ true }
{
    masks_are_plain_text();
}
