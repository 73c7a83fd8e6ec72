//! Strings and numbers that are written, behind a byte that stays.

use base::Text;
use json_events::{put_characters, put_i64, put_string, put_u64};
use rows::{Row, behind_front, front, kept};
use std::alloc::Global;
use std::io;

/// The text that a word spells.
fn text_of(alloc: Global, row: &mut Row) -> io::Result<String> {
    match String::from_utf8(row.bytes(alloc)?) {
        Ok(text) => Ok(text),
        Err(_) => Err(io::Error::from(io::ErrorKind::InvalidData)),
    }
}

/// A string.
pub(crate) fn string(alloc: Global, row: &mut Row) -> io::Result<String> {
    let mut out = front(alloc)?;
    let text = Text::from_string(text_of(alloc, row)?);
    kept(put_string(&mut out, &text))?;
    behind_front(alloc, out.as_slice())
}

/// A string without its quotation marks.
pub(crate) fn characters(alloc: Global, row: &mut Row) -> io::Result<String> {
    let mut out = front(alloc)?;
    let text = text_of(alloc, row)?;
    kept(put_characters(&mut out, text.as_str()))?;
    behind_front(alloc, out.as_slice())
}

/// A number.
pub(crate) fn unsigned(alloc: Global, row: &mut Row) -> io::Result<String> {
    let mut out = front(alloc)?;
    kept(put_u64(&mut out, row.number()?))?;
    behind_front(alloc, out.as_slice())
}

/// A number that may be negative.
pub(crate) fn signed(alloc: Global, row: &mut Row) -> io::Result<String> {
    let mut out = front(alloc)?;
    match row.word().parse() {
        Ok(number) => kept(put_i64(&mut out, number))?,
        Err(_) => return Err(io::Error::from(io::ErrorKind::InvalidData)),
    }
    behind_front(alloc, out.as_slice())
}
