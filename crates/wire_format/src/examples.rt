//! Worked examples of the encoding guide, as laws.
ghost use Rattle.wire_format.specs.WorkedExamples.{CanonicalExamplesHold, DecodingExamplesHold, MapExamplesHold};

/// The canonical bytes of a text, a negative number, a packed list, a map of two entries and a
/// message in a message.
pub fn canonical_examples()
    ensures { CanonicalExamplesHold }
{}

/// What bytes mean: a message in two records, a list packed and not, both orders of a oneof, a zigzag
/// number, and the faults with their places.
pub fn decoding_examples()
    ensures { DecodingExamplesHold }
{}

/// What bytes mean as a map: the last entry of a key, a missing value, and keys in rising order.
pub fn map_examples()
    ensures { MapExamplesHold }
{}
