//! What a write rests on: the types, how many levels are left, and where the text is to end.

use field_index::IndexedTypes;

/// The types that are declared, how many levels are left, and the room for the whole text.
#[derive(Clone, Copy)]
pub(crate) struct Within<'a, 'b> {
    /// The types that fields name.
    pub(crate) types: &'a IndexedTypes<'b>,
    /// How many levels of messages are left.
    pub(crate) level: u32,
    /// Where the whole text begins.
    pub(crate) start: usize,
    /// How many bytes the whole text has at most.
    pub(crate) limit: u64,
}
