//! Appending strings and numbers (RFC 8259, sections 6 and 7).
ghost use Rattle.std.specs.Prelude.{◌≡◌, ◌++◌, ◌≤◌, ◌<◌, pos, slice_index, IsTrue, length, take, decimal, IsUtf8, OnOk, OnErr};
ghost use Rattle.std.specs.Char.{digit_char};
ghost use Rattle.std.specs.Fmt.{signed_decimal};
ghost use Rattle.json_events.specs.JsonNumbers.{DenotesInteger};
ghost use Rattle.json_events.specs.JsonStrings.{AreCharacters, IsString};
ghost use Rattle.base.specs.Extends.{Extends};
ghost use Rattle.json_events.specs.AppendedBytes.{Appends};
ghost use Rattle.json_events.specs.StringOutput.{must_escape, escape_of, escaped, json_string};

use base::{NoMemory, Text, cut_back};
use itoa::Buffer;

/// Appends the text as a string. Where memory is not found, `out` is as before.
pub fn put_string(out: &mut Vec<u8>, text: &Text) -> Result<(), NoMemory>
    ensures ok { OnOk result (out.new.items ≡ out.old.items ++ json_string text.now) }
    ensures means { OnOk result (Appends (IsString text.now) out.old.items out.new.items) }
    ensures err { OnErr result (out.new.items ≡ out.old.items) }
{
    let len = out.len();
    let done = write_string(out, text.as_str());
    cut_back(out, len, done)
}

/// Appends the characters of the text as they stand in a string, without the quotation marks around
/// them. Where memory is not found, `out` is as before.
pub fn put_characters(out: &mut Vec<u8>, text: &str) -> Result<(), NoMemory>
    ensures ok { OnOk result (out.new.items ≡ out.old.items ++ escaped text.now) }
    ensures means { OnOk result (Appends (AreCharacters text.now) out.old.items out.new.items) }
    ensures err { OnErr result (out.new.items ≡ out.old.items) }
{
    let len = out.len();
    let done = write_escaped(out, text);
    cut_back(out, len, done)
}

/// Appends a number. Where memory is not found, `out` is as before.
pub fn put_u64(out: &mut Vec<u8>, n: u64) -> Result<(), NoMemory>
    ensures ok { OnOk result (out.new.items ≡ out.old.items ++ decimal n) }
    ensures means { OnOk result (Appends (DenotesInteger (pos n)) out.old.items out.new.items) }
    ensures err { OnErr result (out.new.items ≡ out.old.items) }
{
    out.extend_from_slice(Buffer::new().format(n).as_bytes())?;
    Ok(())
}

/// Appends a number. Where memory is not found, `out` is as before.
pub fn put_i64(out: &mut Vec<u8>, n: i64) -> Result<(), NoMemory>
    ensures ok { OnOk result (out.new.items ≡ out.old.items ++ signed_decimal n) }
    ensures means { OnOk result (Appends (DenotesInteger n) out.old.items out.new.items) }
    ensures err { OnErr result (out.new.items ≡ out.old.items) }
{
    out.extend_from_slice(Buffer::new().format(n).as_bytes())?;
    Ok(())
}

/// The same as `put_string`, but that a part may stand where memory is not found.
fn write_string(out: &mut Vec<u8>, text: &str) -> Result<(), NoMemory>
    ensures ok { OnOk result (out.new.items ≡ out.old.items ++ json_string text.now) }
    ensures means { OnOk result (Appends (IsString text.now) out.old.items out.new.items) }
    ensures err { OnErr result (Extends out.old.items out.new.items) }
{
    out.push(b'"')?;
    write_escaped(out, text)?;
    out.push(b'"')?;
    Ok(())
}

/// The same as `put_characters`, but that a part may stand where memory is not found.
fn write_escaped(out: &mut Vec<u8>, text: &str) -> Result<(), NoMemory>
    ensures ok { OnOk result (out.new.items ≡ out.old.items ++ escaped text.now) }
    ensures means { OnOk result (Appends (AreCharacters text.now) out.old.items out.new.items) }
    ensures err { OnErr result (Extends out.old.items out.new.items) }
{
    let mut rest = text.as_bytes();
    'pieces: loop {
        let (plain, behind) = rest.split_at(unescaped_len(rest));
        out.extend_from_slice(plain)?;
        match behind.split_first() {
            None => return Ok(()),
            Some((byte, after)) => {
                write_escape(out, *byte)?;
                rest = after;
            }
        }
    }
}

/// How many bytes at the front need no escape.
fn unescaped_len(text: &[u8]) -> usize
    ensures within { result ≤ length text.now }
    ensures same { escaped (take result text.now) ≡ take result text.now }
    ensures stops { result < length text.now → IsTrue (must_escape (slice_index text.now result)) }
{
    for (i, byte) in text.iter().enumerate() {
        if needs_escape(*byte) {
            return i;
        }
    }
    text.len()
}

/// Whether a byte may not stand for itself.
fn needs_escape(byte: u8) -> bool
    ensures { result ≡ must_escape byte }
{
    byte < 0x20 || byte == b'"' || byte == b'\\'
}

/// Appends one byte that is escaped.
fn write_escape(out: &mut Vec<u8>, byte: u8) -> Result<(), NoMemory>
    ensures ok { OnOk result (out.new.items ≡ out.old.items ++ escape_of byte) }
    ensures err { OnErr result (out.new.items ≡ out.old.items) }
{
    match byte {
        b'"' => out.extend_from_slice(b"\\\"")?,
        b'\\' => out.extend_from_slice(b"\\\\")?,
        8 => out.extend_from_slice(b"\\b")?,
        b'\t' => out.extend_from_slice(b"\\t")?,
        b'\n' => out.extend_from_slice(b"\\n")?,
        12 => out.extend_from_slice(b"\\f")?,
        b'\r' => out.extend_from_slice(b"\\r")?,
        _ => out.extend_from_slice(&[
            b'\\',
            b'u',
            b'0',
            b'0',
            hex_digit(byte >> 4),
            hex_digit(byte & 15),
        ])?,
    }
    Ok(())
}

/// The lower-case hexadecimal digit of a number below 16.
fn hex_digit(n: u8) -> u8
    requires { n < 16 }
    ensures { result ≡ digit_char n }
{
    if n < 10 { b'0' + n } else { b'a' + (n - 10) }
}
