//! Decoding the header blocks of a connection (RFC 7541, section 3).
ghost use Rattle.std.specs.Prelude.{◌≡◌, ◌≤◌, ◌↔◌, ◌++◌, ℕ, List, [], ◌∷◌, None, Err, vec_capacity, IfOk};
ghost use Rattle.hpack_codec.specs.BlockRepresentations.{IsBadAt, PassesLimit};
ghost use Rattle.hpack_codec.specs.ConnectionBlocks.{header_blocks, IsNextAnswer, StandsForBlocks};
ghost use Rattle.hpack_codec.specs.DecoderState.{first_decoder, next_block, IsDecoded};
ghost use Rattle.hpack_codec.specs.DynamicTable.{first_table, HeaderTable};
ghost use Rattle.hpack_codec.specs.BlockReads.{IsBlockRead};
ghost use Rattle.hpack_codec.specs.HeaderBlock.{header_block};

use crate::dynamic_table::DynamicTable;
use crate::fault::{BlockFault, ReadFault};
use crate::fields::{Fields, MAX_LIST_SIZE};
use crate::laws::{
    bad_exactly_where_no_representation_begins, decoders_stand_for_their_blocks,
    too_long_exactly_where_the_list_passes_the_limit,
};
use crate::representation::read_representation;
use base::NoMemory;
use std::alloc::Global;
use std::marker::Model;

/// Room for the bytes of the largest field, and for two that a Huffman-coded string may have beyond
/// it before it is found too long.
const SCRATCH_BYTES: usize = MAX_LIST_SIZE + 2;

/// Decodes the header blocks of one direction of a connection, in their order, over one dynamic
/// table. After a refusal the table is lost, and it answers the same to every later block. Between
/// blocks it keeps the fields of the table and nothing of the blocks.
#[derive(Drop)]
pub struct Decoder {
    table: DynamicTable,
    scratch: Vec<u8>,
    refused: Option<BlockFault>,
}

impl Model for Decoder {
    ghost use Rattle.std.specs.Prelude.{◌≡◌, ◌≤◌, [], vec_capacity};
    ghost use Rattle.hpack_codec.specs.DecoderState.{DecoderState};

    ghost Value = { DecoderState };

    ghost view = { λ d. record { table = d.table; refused = d.refused } };

    ghost invariant = { λ d. (65538 ≤ vec_capacity d.scratch) × (d.scratch.items ≡ []) };
}

impl Decoder {
    /// A decoder of a new connection, with an empty table of 4,096 bytes and all room reserved.
    pub fn new(alloc: Global) -> Result<Decoder, NoMemory>
        ensures fresh { IfOk result (λ d. d ≡ first_decoder) }
        ensures stands { IfOk result (λ d. StandsForBlocks first_table d []) }
    {
        decoders_stand_for_their_blocks();
        Ok(Decoder {
            table: DynamicTable::new(alloc)?,
            scratch: Vec::with_capacity(alloc, SCRATCH_BYTES)?,
            refused: None,
        })
    }

    /// Replaces the fields by those of the next block. After a refusal there are none. Takes no
    /// memory.
    pub fn decode(&mut self, block: &[u8], fields: &mut Fields) -> Result<(), BlockFault>
        ensures decoded { IsDecoded (next_block self.old.refused self.old.table block.now) result fields.new self.new }
        ensures bad { (offset : ℕ) → self.old.refused ≡ None
            → (result ≡ Err (BlockFault.Bad offset)) ↔ IsBadAt 65536 self.old.table block.now offset }
        ensures too_long { self.old.refused ≡ None
            → (result ≡ Err BlockFault.TooLong) ↔ PassesLimit 65536 self.old.table block.now }
        ensures stands { (t : HeaderTable) (blocks : List (List ℕ)) → StandsForBlocks t self.old blocks
            → StandsForBlocks t self.new (blocks ++ block.now ∷ []) }
        ensures answers { (t : HeaderTable) (blocks : List (List ℕ)) → StandsForBlocks t self.old blocks
            → IsNextAnswer (header_blocks t blocks) (header_blocks t (blocks ++ block.now ∷ [])) result fields.new }
    {
        bad_exactly_where_no_representation_begins();
        too_long_exactly_where_the_list_passes_the_limit();
        decoders_stand_for_their_blocks();
        self.decode_next(block, fields)
    }

    /// What `decode` answers, and what it leaves.
    fn decode_next(&mut self, block: &[u8], fields: &mut Fields) -> Result<(), BlockFault>
        ensures { IsDecoded (next_block self.old.refused self.old.table block.now) result fields.new self.new }
    {
        fields.clear();
        if let Some(fault) = self.refused {
            return Err(fault);
        }
        let read = read_block(block, &mut self.table, &mut self.scratch, fields);
        self.scratch.clear();
        match read {
            Ok(()) => Ok(()),
            Err(fault) => {
                fields.clear();
                self.refused = Some(fault);
                Err(fault)
            }
        }
    }
}

/// Puts the fields of a block, in order, into a list that has none yet, and turns the table into that behind the
/// block. Where the block is refused some of its fields may stand, and the table is of no use.
fn read_block(
    block: &[u8],
    table: &mut DynamicTable,
    scratch: &mut Vec<u8>,
    fields: &mut Fields,
) -> Result<(), BlockFault>
    requires fields { fields.old ≡ [] }
    requires capacity { 65538 ≤ vec_capacity scratch.old }
    ensures read { IsBlockRead (header_block table.old block.now) result fields.new table.new }
    ensures capacity { 65538 ≤ vec_capacity scratch.new }
{
    let mut offset = 0;
    while offset < block.len() {
        match read_representation(&block[offset..], table, scratch, fields) {
            Ok(len) => offset += len,
            Err(ReadFault::Bad) => return Err(BlockFault::Bad(offset as u64)),
            Err(ReadFault::TooLong) => return Err(BlockFault::TooLong),
        }
    }
    Ok(())
}
