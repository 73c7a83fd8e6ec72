//! Laws that tie bytes and values together.
ghost use Rattle.wire_format.specs.Laws.{CanonicalBytesDecode, CanonicalBytesMerge, DecodedValuesAreValid, DecodesWithoutFault, HasOneValue, JoinedBytesMerge, ShortCanonicalBytesDecode, SoundTypesHaveSoundFields};

/// Bytes are one value of a message type at most.
pub fn one_value()
    ensures { HasOneValue }
{}

/// What is decoded are exactly the bytes without a fault, and their value is what their records say.
pub fn decodes_without_fault()
    ensures { DecodesWithoutFault }
{}

/// The fields of sound types are sound, which is all that the laws below want of types.
pub fn sound_types_have_sound_fields()
    ensures { SoundTypesHaveSoundFields }
{}

/// What is decoded is valid: in range, in UTF-8, in at most 100 levels, with no default stored where
/// absence says the same, and with one member of a oneof at most.
pub fn decoded_values_are_valid()
    ensures { DecodedValuesAreValid }
{}

/// What is written of a valid value is read as that value. Each length in it must have 64 bits, as it
/// has in whatever is shorter than 2^64 bytes.
pub fn canonical_bytes_decode_to_their_value()
    ensures lengths { CanonicalBytesDecode }
    ensures short { ShortCanonicalBytesDecode }
{}

/// Bytes behind others are merged into their value: scalars of the later ones count, messages merge,
/// lists join, of each key of a map the later entry counts, and of a oneof the later member. The later
/// bytes must undo nothing that they set, as what is written of a valid value does.
pub fn joined_bytes_merge()
    ensures kept { JoinedBytesMerge }
    ensures canonical { CanonicalBytesMerge }
{}
