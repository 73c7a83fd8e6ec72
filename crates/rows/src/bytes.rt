//! Bytes as words.
//!
//! A word is `-` for no bytes, or parts between bars: `'` and then text as it stands, or hexadecimal
//! digits. A part may stand behind a number and a star, which say how often it comes: `'ab|00|16*ff`.

use std::alloc::Global;
use std::io;

/// From how many bytes on those that are alike are written once, behind their number.
const LONG_RUN: usize = 16;

/// The value, or the failure of a row for which no memory was found.
pub fn kept<T, E: Drop>(told: Result<T, E>) -> io::Result<T> {
    match told {
        Ok(value) => Ok(value),
        Err(_) => Err(io::Error::from(io::ErrorKind::OutOfMemory)),
    }
}

/// Appends the bytes that a part without a number spells, so many times.
fn put_times(alloc: Global, out: &mut Vec<u8>, part: &str, times: u64) -> io::Result<()> {
    if let Some(text) = part.strip_prefix('\'') {
        for _ in 0..times {
            out.extend_from_slice(text.as_bytes())?;
        }
        return Ok(());
    }
    match hex::decode(alloc, part) {
        Ok(bytes) => {
            for _ in 0..times {
                out.extend_from_slice(bytes.as_slice())?;
            }
            Ok(())
        }
        Err(_) => Err(io::Error::from(io::ErrorKind::InvalidData)),
    }
}

/// Appends the bytes that a part spells.
fn put_part(alloc: Global, out: &mut Vec<u8>, part: &str) -> io::Result<()> {
    if part.starts_with('\'') {
        return put_times(alloc, out, part, 1);
    }
    match part.split_once('*') {
        None => put_times(alloc, out, part, 1),
        Some((times, part)) => match times.parse() {
            Ok(times) => put_times(alloc, out, part, times),
            Err(_) => Err(io::Error::from(io::ErrorKind::InvalidData)),
        },
    }
}

/// The bytes that a word spells.
pub fn bytes_of(alloc: Global, word: &str) -> io::Result<Vec<u8>> {
    let mut out = Vec::new(alloc);
    if word == "-" {
        return Ok(out);
    }
    for part in word.split('|') {
        put_part(alloc, &mut out, part)?;
    }
    Ok(out)
}

/// True where bytes are text of visible ASCII characters and blanks.
fn is_text(bytes: &[u8]) -> bool {
    for byte in bytes {
        if !byte.is_ascii_graphic() && *byte != b' ' {
            return false;
        }
    }
    true
}

/// Appends text, with a blank or a bar as a part of its own.
fn put_text(out: &mut String, bytes: &[u8]) -> io::Result<()> {
    out.push_str("'")?;
    for byte in bytes {
        match *byte {
            b' ' => out.push_str("|20|'")?,
            b'|' => out.push_str("|7c|'")?,
            _ => out.push(char::from(*byte))?,
        }
    }
    Ok(())
}

/// How many bytes at the front are alike.
fn run_len(bytes: &[u8]) -> usize {
    let Some(first) = bytes.first() else {
        return 0;
    };
    for (i, byte) in bytes.iter().enumerate() {
        if byte != first {
            return i;
        }
    }
    bytes.len()
}

/// Appends bytes in digits, and a number and a star before a byte that comes so often.
fn put_digits(alloc: Global, out: &mut String, bytes: &[u8]) -> io::Result<()> {
    let mut rest = bytes;
    let mut bar = "";
    for _ in 0..bytes.len() {
        let len = run_len(rest);
        if len == 0 {
            break;
        }
        let (run, behind) = rest.split_at(len.min(rest.len()));
        if len < LONG_RUN {
            out.push_str(hex::encode(alloc, run)?.as_str())?;
        } else {
            let byte = hex::encode(alloc, &run[..1.min(run.len())])?;
            out.push_str(format!(in alloc; "{bar}{len}*{byte}|")?.as_str())?;
        }
        bar = if len < LONG_RUN { "|" } else { "" };
        rest = behind;
    }
    if out.as_str().ends_with('|') {
        let _ = out.pop();
    }
    Ok(())
}

/// The word that spells bytes: text where all are visible or blanks, and else hexadecimal digits.
pub fn shown(alloc: Global, bytes: &[u8]) -> io::Result<String> {
    let mut out = String::new(alloc);
    if bytes.is_empty() {
        out.push_str("-")?;
    } else if is_text(bytes) {
        put_text(&mut out, bytes)?;
    } else {
        put_digits(alloc, &mut out, bytes)?;
    }
    Ok(out)
}
