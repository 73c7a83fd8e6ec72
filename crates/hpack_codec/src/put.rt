//! What becomes of a text that is to be appended.

/// What became of a text that was to be appended where so many bytes may be.
#[derive(Clone, Copy, Debug, PartialEq, Eq)]
pub(crate) enum Put {
    /// It was appended.
    Whole,
    /// It is longer than the room, and nothing is said of what was appended.
    Over,
    /// There is no text: the bytes spell none.
    Bad,
}
