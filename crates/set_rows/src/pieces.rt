//! The bytes of a set.

use rows::bytes_of;
use std::alloc::Global;
use std::io;

/// Appends bytes so many times, each time with its number behind them.
fn put_counted(alloc: Global, out: &mut Vec<u8>, unit: &[u8], count: u32) -> io::Result<()> {
    for at in 0..count {
        out.extend_from_slice(unit)?;
        out.extend_from_slice(format!(in alloc; "{at:04}")?.as_bytes())?;
    }
    Ok(())
}

/// The bytes that a word spells.
pub(crate) fn set_bytes(alloc: Global, word: &str) -> io::Result<Vec<u8>> {
    let mut out = Vec::new(alloc);
    for part in word.split('|') {
        match part.split_once('#') {
            Some((count, digits)) => {
                let unit = bytes_of(alloc, digits)?;
                put_counted(alloc, &mut out, unit.as_slice(), count.parse().unwrap_or(0))?;
            }
            None => out.extend_from_slice(bytes_of(alloc, part)?.as_slice())?,
        }
    }
    Ok(out)
}

/// A name, or a dash for none.
pub(crate) fn or_dash(name: &str) -> &str {
    if name.is_empty() { "-" } else { name }
}
