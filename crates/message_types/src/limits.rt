//! The limits that every reader and writer of messages shares.

/// The most levels of messages and groups that a message has, itself counted. An entry of a map is
/// one (ours).
pub const MAX_LEVELS: u32 = 100;

/// The largest number of a field (the encoding guide, "Message Structure": a tag has 32 bits).
pub const MAX_FIELD_NUMBER: u32 = 536_870_911;
