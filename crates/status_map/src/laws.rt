//! Laws of the definitions.

ghost use Rattle.std.specs.Prelude.{◌≡◌, ◌<◌, ◌≤◌, ◌^◌, ℕ, List};
ghost use Rattle.std.specs.List.{AllByRecursion};
ghost use Rattle.std.specs.Str.Lossy.{utf8_lossy};
ghost use Rattle.base.specs.Bytes.{AreBytes};
ghost use Rattle.status_map.specs.ErrorBody.{error_body, IsErrorBody};
ghost use Rattle.status_map.specs.ErrorText.{IsErrorText};
ghost use Rattle.status_map.specs.GrpcMessage.{encoded_message, decoded_message};

use json_events::laws::{
    texts_have_one_tree, texts_mean_one_value, written_texts_mean_their_values,
};

/// What is put for a text is read as the text.
pub fn sent_messages_are_read_back()
    ensures { (text : List ℕ) → AreBytes text → decoded_message (encoded_message text) ≡ text }
{}

/// What is put for a text has no byte but spaces and the visible characters of ASCII (gRPC over HTTP/2,
/// "Percent-Encoded"), which a field value may have (RFC 9110, section 5.5).
pub fn sent_messages_are_visible_characters()
    ensures { (text : List ℕ) → AreBytes text
        → AllByRecursion (λ (b : ℕ). (32 ≤ b) × (b ≤ 126)) (encoded_message text) }
{}

/// The body of an error is a JSON text of an object with two members: "code", a number that is the code,
/// and "message", a string that stands for the message.
pub fn error_bodies_are_texts_of_an_object()
    ensures { (code : ℕ) (message bytes : List ℕ) → IsErrorBody code message bytes → IsErrorText code message bytes }
{
    written_texts_mean_their_values();
}

/// The body that is written for a code and any bytes is such a text, of the code and of what stands for the bytes: the
/// bytes themselves where they are UTF-8, and U+FFFD for each sequence of them that is not.
pub fn error_bodies_tell_the_code_and_the_text()
    ensures { (code : ℕ) (text : List ℕ) → code < 2 ^ 64
        → IsErrorText code (utf8_lossy text) (error_body code (utf8_lossy text)) }
{
    written_texts_mean_their_values();
    error_bodies_are_texts_of_an_object();
}

/// A JSON text of such an object has one code and one message: so two bodies that are equal tell the same.
pub fn error_texts_have_one_code_and_one_message()
    ensures code { (code other : ℕ) (message text bytes : List ℕ)
        → IsErrorText code message bytes → IsErrorText other text bytes → code ≡ other }
    ensures message { (code other : ℕ) (message text bytes : List ℕ)
        → IsErrorText code message bytes → IsErrorText other text bytes → message ≡ text }
{
    texts_have_one_tree();
    texts_mean_one_value();
}
