//! Evictions at every size of the table (RFC 7541, sections 4.2 to 4.4).

use crate::table::{all_indexed, put_names};
use hpack_codec::{Decoder, Fields};
use rows::{Row, kept};
use std::alloc::Global;
use std::io;

/// The largest size of a table.
const MOST_BYTES: usize = 4_096;

/// Appends an integer behind a prefix whose bits are all set, for what is left of it.
fn put_groups(out: &mut Vec<u8>, n: usize) -> io::Result<()> {
    let mut left = n;
    for _ in 0..5 {
        if left < 128 {
            break;
        }
        out.push((left % 128) as u8 | 128)?;
        left /= 128;
    }
    out.push((left % 128) as u8)?;
    Ok(())
}

/// A change of the table's size to this (RFC 7541, section 6.3).
fn size_update(alloc: Global, size: usize) -> io::Result<Vec<u8>> {
    let mut block = Vec::new(alloc);
    if size < 31 {
        block.push(32 | size as u8)?;
    } else {
        block.push(63)?;
        put_groups(&mut block, size - 31)?;
    }
    Ok(block)
}

/// The name of a field that is added: letters in turn.
fn letter(i: usize) -> u8 {
    (i % 26) as u8 + b'a'
}

/// So many added fields, whose values have so many bytes (RFC 7541, section 6.2.1).
fn added(alloc: Global, count: usize, value: usize) -> io::Result<Vec<u8>> {
    let mut block = Vec::new(alloc);
    for i in 0..count {
        block.extend_from_slice(&[64, 1, letter(i)])?;
        if value < 127 {
            block.push(value as u8)?;
        } else {
            block.push(127)?;
            put_groups(&mut block, value - 127)?;
        }
        for _ in 0..value {
            block.push(b'.')?;
        }
    }
    Ok(block)
}

/// What is used again for each size: the blocks that ask for the fields of a table, and room for answers.
#[derive(Drop)]
struct Room {
    indexed: Vec<Vec<u8>>,
    fields: Fields,
    names: Vec<u8>,
}

impl Room {
    /// How many of so many fields a decoder has after two blocks. They must be the newest in order.
    fn kept_after(
        &mut self,
        alloc: Global,
        blocks: (&[u8], &[u8]),
        count: usize,
    ) -> io::Result<usize> {
        let mut decoder = kept(Decoder::new(alloc))?;
        kept(decoder.decode(blocks.0, &mut self.fields))?;
        kept(decoder.decode(blocks.1, &mut self.fields))?;
        let indexed = self.indexed.as_slice();
        put_names(indexed, &mut decoder, &mut self.fields, &mut self.names)?;
        for (age, name) in self.names.as_slice().iter().enumerate() {
            if *name != letter(count.saturating_sub(age.saturating_add(1))) {
                return Err(io::Error::from(io::ErrorKind::InvalidData));
            }
        }
        Ok(self.names.len())
    }
}

/// How many of the fields are kept from each size on, where the size is set before the fields come or after.
fn kept_from(alloc: Global, value: usize, before: bool) -> io::Result<String> {
    let count = MOST_BYTES / value.min(MOST_BYTES).saturating_add(33) + 2;
    let block = added(alloc, count, value)?;
    let mut room = Room {
        indexed: all_indexed(alloc)?,
        fields: kept(Fields::new(alloc))?,
        names: Vec::new(alloc),
    };
    let mut out = String::new(alloc);
    let mut last = None;
    for size in 0..=MOST_BYTES {
        let update = size_update(alloc, size)?;
        let blocks = if before {
            (block.as_slice(), update.as_slice())
        } else {
            (update.as_slice(), block.as_slice())
        };
        let kept = room.kept_after(alloc, blocks, count)?;
        if last != Some(kept) {
            out.push_str(format!(in alloc; "{kept} from {size}, ")?.as_str())?;
        }
        last = Some(kept);
    }
    out.push_str("end")?;
    Ok(out)
}

/// How many fields with values of a length are kept where the size is set before they come.
pub(crate) fn behind_size(alloc: Global, row: &mut Row) -> io::Result<String> {
    let value = row.number()? as usize;
    kept_from(alloc, value, false)
}

/// How many fields with values of a length are kept where the size is set after they came.
pub(crate) fn before_size(alloc: Global, row: &mut Row) -> io::Result<String> {
    let value = row.number()? as usize;
    kept_from(alloc, value, true)
}
