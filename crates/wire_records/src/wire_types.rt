//! Wire types (the encoding guide, "Message Structure").

/// A varint follows the tag.
pub const VARINT: u8 = 0;

/// Eight bytes follow the tag.
pub const I64: u8 = 1;

/// A length and so many bytes follow the tag.
pub const LEN: u8 = 2;

/// The records of a group follow the tag, up to its end.
pub const START_GROUP: u8 = 3;

/// A group ends; nothing follows the tag.
pub const END_GROUP: u8 = 4;

/// Four bytes follow the tag.
pub const I32: u8 = 5;
