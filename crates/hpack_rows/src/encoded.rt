//! Blocks that are written.

use crate::decoded::{MOST_BLOCKS, put_fields};
use base::{Blob, FieldPair, List};
use hpack_codec::{Decoder, Fields, encode};
use rows::{Row, kept, shown};
use std::alloc::Global;
use std::io;

/// The fields that the words of a row are: names and values in turn.
fn pairs_of(alloc: Global, row: &mut Row) -> io::Result<List<FieldPair>> {
    let mut pairs = List::new(alloc);
    for _ in 0..MOST_BLOCKS {
        if row.is_empty() {
            break;
        }
        let name = Blob::from_vec(row.bytes(alloc)?);
        let value = Blob::from_vec(row.bytes(alloc)?);
        kept(pairs.push(FieldPair { name, value }))?;
    }
    Ok(pairs)
}

/// What stands there after a block of fields was written behind a byte.
pub(crate) fn block(alloc: Global, row: &mut Row) -> io::Result<String> {
    let first = row.word() == "first";
    let pairs = pairs_of(alloc, row)?;
    let mut out = Vec::new(alloc);
    out.push(255)?;
    kept(encode(first, &pairs, &mut out))?;
    shown(alloc, out.as_slice())
}

/// The fields that a decoder reads from the first block that is written, and from two later ones.
pub(crate) fn read_back(alloc: Global, row: &mut Row) -> io::Result<String> {
    let pairs = pairs_of(alloc, row)?;
    let mut out = String::new(alloc);
    let mut decoder = kept(Decoder::new(alloc))?;
    let mut fields = kept(Fields::new(alloc))?;
    for first in [true, false, false] {
        let mut block = Vec::new(alloc);
        kept(encode(first, &pairs, &mut block))?;
        kept(decoder.decode(block.as_slice(), &mut fields))?;
        put_fields(alloc, &mut out, &fields)?;
        out.push(';')?;
    }
    Ok(out)
}
