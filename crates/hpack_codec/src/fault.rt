//! What is wrong with a header block.

use std::error::Error;
use std::fmt;

/// The first fault of a header block. It ends the connection: the table is lost.
#[derive(Debug, Clone, Copy, PartialEq, Eq)]
pub enum BlockFault {
    /// The representation whose first byte stands at this offset of the block is none: an index of 0 or
    /// past the table, an integer over 4,294,967,295 or of more than five bytes behind its prefix, a part
    /// past the block's end, a size over 4,096 or behind a field, or a string that is not Huffman-coded.
    Bad(u64),
    /// The sizes of the fields pass 65,536 together, where a field's size is its name, its value and 32
    /// (RFC 9113, section 6.5.2).
    TooLong,
}

impl fmt::Display for BlockFault {
    ghost use Rattle.std.specs.Prelude.{Some};
    ghost use Rattle.hpack_codec.specs.BlockFaultTexts.{block_fault_text};

    ghost output = { λ fault. Some (block_fault_text fault) };

    fn fmt<W: fmt::Write>(&self, f: &mut fmt::Formatter<W>) -> fmt::Result {
        match self {
            BlockFault::Bad(offset) => write!(f, "bad header field at byte {offset}"),
            BlockFault::TooLong => write!(f, "header list too long"),
        }
    }
}

impl Error for BlockFault {}

/// Why a representation is not read.
#[derive(Clone, Copy)]
pub(crate) enum ReadFault {
    /// There is none.
    Bad,
    /// Its field makes the fields too long.
    TooLong,
}
