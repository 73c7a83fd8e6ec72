//! What lies within types, at one level.

use schema::Types;

/// The types that are declared, and how many levels are left.
#[derive(Debug, Clone, Copy)]
pub(crate) struct Within<'a> {
    /// The types that fields name.
    pub(crate) types: &'a Types,
    /// How many levels are left: a message is one, and so is an entry of a map.
    pub(crate) level: u32,
}
