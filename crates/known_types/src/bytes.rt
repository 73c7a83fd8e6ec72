//! Bytes as text (RFC 4648, sections 4 and 5).
ghost use Rattle.std.specs.Prelude.{◌≡◌, ◌++◌, ◌%◌, length, OnOk, OnErr};
ghost use Rattle.base64.specs.Engines.{standard, standard_no_pad};
ghost use Rattle.base64.specs.GeneralPurpose.{encode_of};
ghost use Rattle.known_types.specs.BytesTexts.{IsBytesReading, IsReadingBy, IsStandardReading, bytes_text, has_symbols_for_urls};

use crate::fault::TextFault;
use crate::symbols::standard_symbols;
use base::{Blob, NoMemory};
use base64::engine::general_purpose::{STANDARD, STANDARD_NO_PAD};
use base64::{DecodeAllocError, encoded_len};
use std::alloc::Global;

/// The bytes that a padded text spells by the standard alphabet.
fn read_padded(alloc: Global, text: &[u8]) -> Result<Blob, TextFault>
    ensures { IsReadingBy standard text.now result }
{
    match STANDARD.decode(alloc, text) {
        Ok(bytes) => Ok(Blob::from_vec(bytes)),
        Err(DecodeAllocError::OutOfMemory) => Err(TextFault::NoMemory),
        Err(DecodeAllocError::DecodeError(_)) => Err(TextFault::BadText),
    }
}

/// The bytes that a text without padding spells by the standard alphabet.
fn read_unpadded(alloc: Global, text: &[u8]) -> Result<Blob, TextFault>
    ensures { IsReadingBy standard_no_pad text.now result }
{
    match STANDARD_NO_PAD.decode(alloc, text) {
        Ok(bytes) => Ok(Blob::from_vec(bytes)),
        Err(DecodeAllocError::OutOfMemory) => Err(TextFault::NoMemory),
        Err(DecodeAllocError::DecodeError(_)) => Err(TextFault::BadText),
    }
}

/// The bytes that a text spells by the standard alphabet, padded or not: padding makes whole groups of four.
fn read_standard(alloc: Global, text: &[u8]) -> Result<Blob, TextFault>
    ensures { IsStandardReading text.now result }
{
    if text.len() % 4 == 0 {
        read_padded(alloc, text)
    } else {
        read_unpadded(alloc, text)
    }
}

/// True where the text has a symbol of the alphabet for URLs that the standard one lacks.
fn has_url_symbols(text: &[u8]) -> bool
    ensures { result ≡ has_symbols_for_urls text.now }
{
    text.contains(&b'-') || text.contains(&b'_')
}

/// The bytes that a text spells in base64: by the standard alphabet or by that for URLs, also mixed, with the padding
/// whole or left out, and with unused bits zero. Any other text is BadText.
pub fn read_bytes(alloc: Global, text: &[u8]) -> Result<Blob, TextFault>
    ensures { IsBytesReading text.now result }
{
    if !has_url_symbols(text) {
        return read_standard(alloc, text);
    }
    let symbols = standard_symbols(alloc, text)?;
    read_standard(alloc, symbols.as_slice())
}

/// Appends the base64 of bytes: by the standard alphabet, with padding. Where memory is not found, `out` is as before.
pub fn show_bytes(bytes: &[u8], out: &mut Vec<u8>) -> Result<(), NoMemory>
    ensures ok { OnOk result (out.new.items ≡ out.old.items ++ bytes_text bytes.now) }
    ensures err { OnErr result (out.new.items ≡ out.old.items) }
{
    let len = out.len();
    let Some(size) = encoded_len(bytes.len(), true) else {
        return Err(NoMemory);
    };
    let Some(end) = len.checked_add(size) else {
        return Err(NoMemory);
    };
    out.resize(end, 0)?;
    match STANDARD.encode_slice(bytes, &mut out.as_mut_slice()[len..]) {
        Ok(_) => Ok(()),
        Err(_) => unreachable!(),
    }
}
