//! What the dynamic table has.

use crate::decoded::MOST_BLOCKS;
use hpack_codec::{Decoder, Fields};
use rows::{Row, kept, shown};
use std::alloc::Global;
use std::io;

/// The index of the newest field of the dynamic table.
const FIRST_INDEX: usize = 62;

/// The most fields that a table of 4,096 bytes has.
const MOST_FIELDS: usize = 128;

/// The block of one indexed field (RFC 7541, section 6.1).
fn indexed(alloc: Global, index: usize) -> io::Result<Vec<u8>> {
    let mut block = Vec::new(alloc);
    if index < 127 {
        block.push(128 | index as u8)?;
    } else {
        block.push(255)?;
        let mut left = index - 127;
        for _ in 0..5 {
            if left < 128 {
                break;
            }
            block.push((left % 128) as u8 | 128)?;
            left /= 128;
        }
        block.push((left % 128) as u8)?;
    }
    Ok(block)
}

/// The blocks of the indexes that a table may have, the newest first, and of one behind them.
pub(crate) fn all_indexed(alloc: Global) -> io::Result<Vec<Vec<u8>>> {
    let mut blocks = Vec::new(alloc);
    for age in 0..=MOST_FIELDS {
        blocks.push(indexed(alloc, FIRST_INDEX + age)?)?;
    }
    Ok(blocks)
}

/// Replaces names by those of the fields in the table, the newest first, one behind another. The decoder refuses
/// the index behind them, and is lost.
pub(crate) fn put_names(
    blocks: &[Vec<u8>],
    decoder: &mut Decoder,
    fields: &mut Fields,
    names: &mut Vec<u8>,
) -> io::Result<()> {
    names.clear();
    for block in blocks {
        if decoder.decode(block.as_slice(), fields).is_err() {
            break;
        }
        for i in 0..fields.len() {
            names.extend_from_slice(fields.name(i))?;
        }
    }
    Ok(())
}

/// Appends each field of a block: its name and the length of its value.
fn put_lengths(alloc: Global, out: &mut String, fields: &Fields) -> io::Result<()> {
    for i in 0..fields.len() {
        let name = shown(alloc, fields.name(i))?;
        let len = fields.value(i).len();
        out.push_str(format!(in alloc; "{name}={len} ")?.as_str())?;
    }
    Ok(())
}

/// The fields of blocks of one connection, and then the names of those in the table.
pub(crate) fn of_blocks(alloc: Global, row: &mut Row) -> io::Result<String> {
    let mut out = String::new(alloc);
    let mut decoder = kept(Decoder::new(alloc))?;
    let mut fields = kept(Fields::new(alloc))?;
    for _ in 0..MOST_BLOCKS {
        if row.is_empty() {
            break;
        }
        let block = row.bytes(alloc)?;
        if let Err(fault) = decoder.decode(block.as_slice(), &mut fields) {
            out.push_str(format!(in alloc; "{fault} ")?.as_str())?;
        }
        put_lengths(alloc, &mut out, &fields)?;
        out.push_str("; ")?;
    }
    let mut names = Vec::new(alloc);
    let blocks = all_indexed(alloc)?;
    put_names(blocks.as_slice(), &mut decoder, &mut fields, &mut names)?;
    out.push_str("table ")?;
    out.push_str(shown(alloc, names.as_slice())?.as_str())?;
    Ok(out)
}
