//! Worked examples, as laws: some are those of RFC 7541, appendices B and C, and others are this crate's own.
ghost use Rattle.hpack_codec.specs.HpackExamples.{BlockExamplesHold, CodeExamplesHold, ConnectionExamplesHold};
ghost use Rattle.hpack_codec.specs.HpackExamples.{HuffmanExamplesHold, IntegerExamplesHold, StringExamplesHold};

/// Integers of prefixes of five and eight bits (RFC 7541, appendix C.1), and of this crate's own, of seven bits.
pub fn integer_examples()
    ensures { IntegerExamplesHold }
{}

/// Huffman-coded texts, some of them of RFC 7541, appendix C.4, and rests that are no padding.
pub fn huffman_examples()
    ensures { HuffmanExamplesHold }
{}

/// A string whose length takes all seven bits of its prefix, and one that is Huffman-coded.
pub fn string_examples()
    ensures { StringExamplesHold }
{}

/// Two requests on a connection (RFC 7541, appendices C.4.1 and C.4.2) and the size of the table between them; of this
/// crate's own, responses, a literal that is never indexed, and blocks that are refused.
pub fn block_examples()
    ensures { BlockExamplesHold }
{}

/// Codes of symbols, the shortest and the longest among them (RFC 7541, appendix B).
pub fn code_examples()
    ensures { CodeExamplesHold }
{}

/// Blocks that go through one table: a field that the first adds is the newest for the second, and where the first is
/// skipped the second is refused. The responses of RFC 7541, appendices C.6.1 and C.6.2: in a table of 256 bytes the
/// second evicts a field.
pub fn connection_examples()
    ensures { ConnectionExamplesHold }
{}
