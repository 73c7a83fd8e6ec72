//! The JSON body of an error.
ghost use Rattle.std.specs.Prelude.{◌≡◌, ◌++◌, OnOk, OnErr, IsUtf8};
ghost use Rattle.std.specs.Str.Lossy.{utf8_lossy};
ghost use Rattle.base.specs.Extends.{Extends};
ghost use Rattle.json_events.specs.AppendedBytes.{Appends};
ghost use Rattle.json_events.specs.StringOutput.{escaped};
ghost use Rattle.status_map.specs.ErrorBody.{error_body, replacement_for, IsErrorBody};
ghost use Rattle.status_map.specs.ErrorText.{IsErrorText};

use crate::laws::error_bodies_are_texts_of_an_object;
use base::{NoMemory, cut_back};
use json_events::laws::written_texts_mean_their_values;
use json_events::{put_characters, put_u64};

/// Appends `{"code":N,"message":"T"}`, where T is the text in JSON, with U+FFFD for each sequence of
/// bytes that is not UTF-8, as std's `from_utf8_lossy` puts it. Where memory is not found, `out` is as
/// before.
pub fn put_error(out: &mut Vec<u8>, code: u8, text: &[u8]) -> Result<(), NoMemory>
    ensures ok { OnOk result (out.new.items ≡ out.old.items ++ error_body code (utf8_lossy text.now)) }
    ensures means { OnOk result (Appends (IsErrorBody code (utf8_lossy text.now)) out.old.items out.new.items) }
    ensures object { OnOk result (Appends (IsErrorText code (utf8_lossy text.now)) out.old.items out.new.items) }
    ensures err { OnErr result (out.new.items ≡ out.old.items) }
{
    let len = out.len();
    let done = write_error(out, code, text);
    cut_back(out, len, done)
}

/// The same as `put_error`, but that a part may stand where memory is not found.
fn write_error(out: &mut Vec<u8>, code: u8, text: &[u8]) -> Result<(), NoMemory>
    ensures ok { OnOk result (out.new.items ≡ out.old.items ++ error_body code (utf8_lossy text.now)) }
    ensures means { OnOk result (Appends (IsErrorBody code (utf8_lossy text.now)) out.old.items out.new.items) }
    ensures object { OnOk result (Appends (IsErrorText code (utf8_lossy text.now)) out.old.items out.new.items) }
    ensures err { OnErr result (Extends out.old.items out.new.items) }
{
    written_texts_mean_their_values();
    error_bodies_are_texts_of_an_object();
    out.extend_from_slice(b"{\"code\":")?;
    put_u64(out, u64::from(code))?;
    out.extend_from_slice(b",\"message\":\"")?;
    write_lossy(out, text)?;
    out.extend_from_slice(b"\"}")?;
    Ok(())
}

/// Appends the characters of the text as they stand in a JSON string, with U+FFFD for what is not
/// UTF-8. A part may stand where memory is not found.
fn write_lossy(out: &mut Vec<u8>, text: &[u8]) -> Result<(), NoMemory>
    ensures ok { OnOk result (out.new.items ≡ out.old.items ++ escaped (utf8_lossy text.now)) }
    ensures utf8 { OnOk result (IsUtf8 (utf8_lossy text.now)) }
    ensures err { OnErr result (Extends out.old.items out.new.items) }
{
    for chunk in text.utf8_chunks() {
        write_chunk(out, chunk.valid(), chunk.invalid())?;
    }
    Ok(())
}

/// Appends the characters of a text, and U+FFFD where bytes that are no text follow it. A part may
/// stand where memory is not found.
fn write_chunk(out: &mut Vec<u8>, text: &str, invalid: &[u8]) -> Result<(), NoMemory>
    ensures ok { OnOk result (out.new.items ≡ out.old.items ++ escaped (text.now ++ replacement_for invalid.now)) }
    ensures err { OnErr result (Extends out.old.items out.new.items) }
{
    put_characters(out, text)?;
    if invalid.is_empty() {
        return Ok(());
    }
    put_characters(out, "\u{FFFD}")
}
