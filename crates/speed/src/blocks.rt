//! Header blocks.

use base::NoMemory;
use hpack_codec::{Decoder, Fields};
use std::alloc::Global;

/// `grpc-status: www.example.com`, ten times, as literals with Huffman-coded values of RFC 7541, appendix C.4.1.
const HUFFMAN: &[u8] =
    b"\x0f\x20\x8c\xf1\xe3\xc2\xe5\xf2\x3a\x6b\xa0\xab\x90\xf4\xff\x0f\x20\x8c\xf1\xe3\xc2\xe5\xf2\x3a\x6b\xa0\xab\x90\xf4\xff\x0f\x20\x8c\xf1\xe3\xc2\xe5\xf2\x3a\x6b\xa0\xab\x90\xf4\xff\x0f\x20\x8c\xf1\xe3\xc2\xe5\xf2\x3a\x6b\xa0\xab\x90\xf4\xff";

/// Fields of the static table.
const INDEXED: &[u8] =
    b"\x82\x86\x84\x88\x8f\x90\x9f\x82\x86\x84\x88\x8f\x90\x9f\x82\x86\x84\x88\x8f\x90\x9f\x82\x86\x84\x88\x8f\x90\x9f";

/// How many fields so many MiB of blocks have, of one block at least; 0 where one is refused.
fn field_count(alloc: Global, block: &[u8], size: usize) -> Result<u64, NoMemory> {
    let mut decoder = Decoder::new(alloc)?;
    let mut fields = Fields::new(alloc)?;
    let mut count = 0u64;
    for _ in 0..size.saturating_mul(1_048_576) / 32 + 1 {
        match decoder.decode(block, &mut fields) {
            Err(_) => return Ok(0),
            Ok(()) => count = count.saturating_add(fields.len() as u64),
        }
    }
    Ok(count)
}

/// As `field_count`, for Huffman-coded literals or for indexed fields; 0 without memory.
pub fn block_rounds(alloc: Global, huffman: bool, size: usize) -> u64 {
    let block = if huffman { HUFFMAN } else { INDEXED };
    field_count(alloc, block, size).unwrap_or(0)
}
