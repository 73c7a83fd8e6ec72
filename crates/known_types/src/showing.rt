//! Messages that are timestamps, durations and field masks as texts (the ProtoJSON guide).
ghost use Rattle.std.specs.Prelude.{◌≡◌, ◌↔◌, Err, None, is_some, option_and_then, OnOk, OnErr};
ghost use Rattle.known_types.specs.KnownAnswers.{IsKnownShown};
ghost use Rattle.known_types.specs.KnownTexts.{instant_text, known_text, length_text, mask_items, moment_of, paths_text};

use crate::fault::KnownFault;
use crate::masks::mask_items;
use crate::moments::moment_of;
use mask_texts::{is_printable_mask, show_mask};
use schema::{Known, Value};
use time_texts::laws::{one_text_of_an_instant, printable_is_computed};
use time_texts::{is_printable_duration, is_printable_timestamp, show_duration, show_timestamp};

/// Appends the text of an instant.
fn show_instant(value: &Value, out: &mut Vec<u8>) -> Result<(), KnownFault>
    ensures ok { OnOk result (IsKnownShown (instant_text (moment_of value.now)) out.old.items out.new.items) }
    ensures unprintable { result ≡ Err KnownFault.Unprintable ↔ instant_text (moment_of value.now) ≡ None }
    ensures err { OnErr result (out.new.items ≡ out.old.items) }
{
    printable_is_computed();
    one_text_of_an_instant();
    let Some(moment) = moment_of(value) else {
        return Err(KnownFault::Unprintable);
    };
    show_timestamp(moment, out)?;
    Ok(())
}

/// Appends the text of a duration.
fn show_length(value: &Value, out: &mut Vec<u8>) -> Result<(), KnownFault>
    ensures ok { OnOk result (IsKnownShown (length_text (moment_of value.now)) out.old.items out.new.items) }
    ensures unprintable { result ≡ Err KnownFault.Unprintable ↔ length_text (moment_of value.now) ≡ None }
    ensures err { OnErr result (out.new.items ≡ out.old.items) }
{
    printable_is_computed();
    let Some(moment) = moment_of(value) else {
        return Err(KnownFault::Unprintable);
    };
    show_duration(moment, out)?;
    Ok(())
}

/// Appends the text of a field mask.
fn show_paths(value: &Value, out: &mut Vec<u8>) -> Result<(), KnownFault>
    ensures ok { OnOk result
        (IsKnownShown (option_and_then paths_text (mask_items value.now)) out.old.items out.new.items) }
    ensures unprintable { result ≡ Err KnownFault.Unprintable
        ↔ option_and_then paths_text (mask_items value.now) ≡ None }
    ensures err { OnErr result (out.new.items ≡ out.old.items) }
{
    let Some(paths) = mask_items(value) else {
        return Err(KnownFault::Unprintable);
    };
    show_mask(paths, out)?;
    Ok(())
}

/// Appends the text of a message of the type, without quotes; each byte of it may stand in a JSON string as it is. It
/// is Unprintable exactly where a time is out of range, the signs of a duration differ, a path of a mask has no text,
/// or the type is none of these three. After an error `out` is as before.
pub fn show_known(known: Known, value: &Value, out: &mut Vec<u8>) -> Result<(), KnownFault>
    ensures ok { OnOk result (IsKnownShown (known_text known value.now) out.old.items out.new.items) }
    ensures unprintable { result ≡ Err KnownFault.Unprintable ↔ known_text known value.now ≡ None }
    ensures err { OnErr result (out.new.items ≡ out.old.items) }
{
    match known {
        Known::Timestamp => show_instant(value, out),
        Known::Duration => show_length(value, out),
        Known::FieldMask => show_paths(value, out),
        Known::Plain | Known::Wrapper => Err(KnownFault::Unprintable),
    }
}

/// Whether an instant has a text.
fn is_printable_instant(value: &Value) -> bool
    ensures { result ≡ is_some (instant_text (moment_of value.now)) }
{
    printable_is_computed();
    match moment_of(value) {
        Some(moment) => is_printable_timestamp(moment),
        None => false,
    }
}

/// Whether a duration has a text.
fn is_printable_length(value: &Value) -> bool
    ensures { result ≡ is_some (length_text (moment_of value.now)) }
{
    printable_is_computed();
    match moment_of(value) {
        Some(moment) => is_printable_duration(moment),
        None => false,
    }
}

/// Whether a field mask has a text.
fn are_printable_paths(value: &Value) -> bool
    ensures { result ≡ is_some (option_and_then paths_text (mask_items value.now)) }
{
    match mask_items(value) {
        Some(paths) => is_printable_mask(paths),
        None => false,
    }
}

/// Whether a message of the type has a text: exactly where `show_known` does not answer Unprintable. Takes no memory.
pub fn is_printable(known: Known, value: &Value) -> bool
    ensures { result ≡ is_some (known_text known value.now) }
{
    match known {
        Known::Timestamp => is_printable_instant(value),
        Known::Duration => is_printable_length(value),
        Known::FieldMask => are_printable_paths(value),
        Known::Plain | Known::Wrapper => false,
    }
}
