//! What is wrong with a token.

use json_meanings::FieldKind;

/// Why a token is refused.
#[derive(Debug, Clone, Copy, PartialEq, Eq)]
pub enum FieldFault {
    /// The token that begins at this place, from which on the JSON is no value of the type, and why.
    At(u64, FieldKind),
    /// Out of memory. Whether the token has a fault is not told.
    NoMemory,
}
