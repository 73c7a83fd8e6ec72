//! Laws of the blocks that are written and read.
ghost use Rattle.std.specs.Prelude.{◌≡◌, ◌<◌, ◌≤◌, ◌↔◌, ◌++◌, ℕ, Bool, List, [], ◌∷◌, length, None, Some, Result};
ghost use Rattle.std.specs.List.{AllByRecursion};
ghost use Rattle.base.specs.Bytes.{AreBytes};
ghost use Rattle.base.specs.Extends.{Extends};
ghost use Rattle.hpack_codec.specs.declared.fault.BlockFault.{BlockFault};
ghost use Rattle.hpack_codec.specs.declared.fault.BlockFault.TheVariants.{Bad, TooLong};
ghost use Rattle.hpack_codec.specs.PrefixInteger.{integer_in};
ghost use Rattle.hpack_codec.specs.StaticTable.{HeaderField};
ghost use Rattle.hpack_codec.specs.AddedEntries.{IsAdded, IsEvictedTo, IsResized, IsWithinSize};
ghost use Rattle.hpack_codec.specs.BlockRepresentations.{IsBadAt, IsListOfRepresentations, PassesLimit};
ghost use Rattle.hpack_codec.specs.ConnectionBlocks.{AreToldBy, blocks_given, DecodeCall, go_on_with, header_blocks};
ghost use Rattle.hpack_codec.specs.ConnectionBlocks.{IsDecoderRun, IsNextAnswer, StandsForBlocks};
ghost use Rattle.hpack_codec.specs.DecoderState.{DecoderState, IsDecoded, next_block};
ghost use Rattle.hpack_codec.specs.DynamicTable.{added_to, fields_size, first_table, HeaderTable, kept_within, resized_to};
ghost use Rattle.hpack_codec.specs.FieldRepresentation.{Representation, representation_in};
ghost use Rattle.hpack_codec.specs.Huffman.{huffman_text};
ghost use Rattle.hpack_codec.specs.HuffmanCodes.{code_of, IsHuffmanCoded};
ghost use Rattle.hpack_codec.specs.HeaderBlock.{DecodesBlock, header_block, HeaderBlock};
ghost use Rattle.hpack_codec.specs.EncodedBlock.{encoded_block, table_behind, IsShort};

/// The block that is written for fields spells these fields from every table, where each name and each
/// value is shorter than 2^32 bytes.
pub fn written_blocks_spell_their_fields()
    ensures { (t : HeaderTable) (first : Bool) (fields : List HeaderField) → AllByRecursion IsShort fields →
        DecodesBlock t (encoded_block first fields) fields (table_behind first t) }
{}

/// A block is read exactly where it spells fields whose sizes are 65,536 together at most.
pub fn lists_within_the_limit_are_read()
    ensures { (t : HeaderTable) (block : List ℕ) (r : HeaderBlock) → (header_block t block ≡ Ok r) ↔ (DecodesBlock t block r.fields r.table × (fields_size r.fields ≤ 65536)) }
{}

/// A block that spells fields is refused as too long exactly where their sizes pass 65,536 together.
pub fn blocks_past_the_limit_are_too_long()
    ensures { (t : HeaderTable) (block : List ℕ) (fields : List HeaderField) (after : HeaderTable)
        → DecodesBlock t block fields after → (header_block t block ≡ Err TooLong) ↔ (65536 < fields_size fields) }
{}

/// A block that is refused as bad spells no fields, whatever the limit.
pub fn bad_blocks_spell_no_fields()
    ensures { (t : HeaderTable) (block : List ℕ) (offset : ℕ) (fields : List HeaderField) (after : HeaderTable)
        → header_block t block ≡ Err (Bad offset) → DecodesBlock t block fields after → ⊥ }
{}

/// A block spells fields exactly where it is a list of representations, each in the table that the one
/// before it left, that spell them (RFC 7541, section 3).
pub fn blocks_are_lists_of_representations()
    ensures { (t : HeaderTable) (block : List ℕ) (fields : List HeaderField) (after : HeaderTable)
        → DecodesBlock t block fields after ↔ IsListOfRepresentations t block fields after }
{}

/// A block is refused as bad exactly where its representations, while their fields are within the limit,
/// lead to an offset at which none begins.
pub fn bad_exactly_where_no_representation_begins()
    ensures { (t : HeaderTable) (block : List ℕ) (offset : ℕ)
        → (header_block t block ≡ Err (Bad offset)) ↔ IsBadAt 65536 t block offset }
{}

/// A block is refused as too long exactly where its representations lead to one whose field passes the
/// limit, whatever follows.
pub fn too_long_exactly_where_the_list_passes_the_limit()
    ensures { (t : HeaderTable) (block : List ℕ)
        → (header_block t block ≡ Err TooLong) ↔ PassesLimit 65536 t block }
{}

/// A Huffman-coded string spells a text exactly where its bits are the codes of the text's bytes, one
/// behind the other, and fewer than eight bits with which the code of the end of a string begins (RFC
/// 7541, section 5.2).
pub fn coded_strings_are_codes_and_padding()
    ensures { (coded text : List ℕ) → AreBytes coded
        → (huffman_text coded ≡ Some text) ↔ IsHuffmanCoded text coded }
{}

/// No code of a symbol begins that of another (RFC 7541, appendix B).
pub fn no_code_begins_another()
    ensures { (s t : ℕ) → s < 257 → t < 257 → Extends (code_of s) (code_of t) → s ≡ t }
{}

/// The dynamic table keeps exactly what is left when entries are evicted from the end until they have the
/// size at most (RFC 7541, sections 4.3 and 4.4); a field that is added is the newest, and one that is
/// larger than the table empties it.
pub fn tables_evict_from_the_end()
    ensures evicted { (size : ℕ) (old kept : List HeaderField)
        → IsEvictedTo size old kept ↔ (kept ≡ kept_within size old) }
    ensures added { (old : HeaderTable) (f : HeaderField) (new : HeaderTable)
        → IsAdded old f new ↔ (new ≡ added_to old f) }
    ensures resized { (old : HeaderTable) (size : ℕ) (new : HeaderTable)
        → IsResized old size new ↔ (new ≡ resized_to old size) }
{}

/// A literal with incremental indexing adds its field to the table (RFC 7541, section 6.2.1), a change of
/// the size sets it to the number that it has, 4,096 at most, and has no field (section 6.3), and any other
/// representation has a field and leaves the table as it is.
pub fn first_bytes_tell_what_becomes_of_the_table()
    ensures added { (t : HeaderTable) (late : Bool) (b : ℕ) (bs : List ℕ) (r : Representation) → 64 ≤ b → b < 128
        → representation_in t late (b ∷ bs) ≡ Some r
        → (f : HeaderField) × (r.field ≡ Some f) × IsAdded t f r.table }
    ensures resized { (t : HeaderTable) (late : Bool) (b : ℕ) (bs : List ℕ) (r : Representation) → 32 ≤ b → b < 64
        → representation_in t late (b ∷ bs) ≡ Some r
        → (size : ℕ) × (integer_in 31 (b ∷ bs) ≡ Some (size, r.len)) × (size ≤ 4096) × (r.field ≡ None)
        × IsResized t size r.table }
    ensures alone { (t : HeaderTable) (late : Bool) (b : ℕ) (bs : List ℕ) (r : Representation) → b < 32
        → representation_in t late (b ∷ bs) ≡ Some r
        → (f : HeaderField) × (r.field ≡ Some f) × (r.table ≡ t) }
    ensures indexed { (t : HeaderTable) (late : Bool) (b : ℕ) (bs : List ℕ) (r : Representation) → 128 ≤ b
        → representation_in t late (b ∷ bs) ≡ Some r
        → (f : HeaderField) × (r.field ≡ Some f) × (r.table ≡ t) }
{}

/// All blocks of a connection go through one table: calls of `decode` one after another answer the fields
/// of each block from the table that the blocks before it left, up to the first that is refused; from
/// there on each call answers that fault, and leaves no fields.
pub fn blocks_go_through_one_table()
    ensures { (old new : DecoderState) (calls : List DecodeCall) → old.refused ≡ None → IsDecoderRun old calls new
        → AreToldBy (header_blocks old.table (blocks_given calls)) calls new }
{}

/// More blocks go on from the table that those before them left, unless one was refused. Each block has its list of
/// fields exactly where none was refused.
pub fn connections_go_on()
    ensures joined { (t : HeaderTable) (front more : List (List ℕ))
        → header_blocks t (front ++ more) ≡ go_on_with (header_blocks t front) (header_blocks t front).fault more }
    ensures lists { (t : HeaderTable) (blocks : List (List ℕ))
        → ((header_blocks t blocks).fault ≡ None) ↔ (length (header_blocks t blocks).lists ≡ length blocks) }
{}

/// Blocks keep a table within its size: its fields have the size that is set at most, and that is 4,096 at most (RFC
/// 7541, sections 4.2 to 4.4). The table of a new connection is so.
pub fn tables_stay_within_their_size()
    ensures first { IsWithinSize first_table }
    ensures blocks { (t : HeaderTable) (blocks : List (List ℕ)) → IsWithinSize t
        → IsWithinSize (header_blocks t blocks).table }
{}

/// A decoder stands for the blocks that it was given: each call of `decode` adds one, and answers what that
/// one spells behind the others. What is said of a call is what `decode` promises of it.
pub fn decoders_stand_for_their_blocks()
    ensures fresh { (t : HeaderTable) (d : DecoderState) → d.table ≡ t → d.refused ≡ None → StandsForBlocks t d [] }
    ensures stands { (t : HeaderTable) (old new : DecoderState) (blocks : List (List ℕ)) (block : List ℕ)
        (answer : Result (Unit {0}) BlockFault) (fields : List HeaderField) → StandsForBlocks t old blocks
        → IsDecoded (next_block old.refused old.table block) answer fields new
        → StandsForBlocks t new (blocks ++ block ∷ []) }
    ensures answers { (t : HeaderTable) (old new : DecoderState) (blocks : List (List ℕ)) (block : List ℕ)
        (answer : Result (Unit {0}) BlockFault) (fields : List HeaderField) → StandsForBlocks t old blocks
        → IsDecoded (next_block old.refused old.table block) answer fields new
        → IsNextAnswer (header_blocks t blocks) (header_blocks t (blocks ++ block ∷ [])) answer fields }
{}
