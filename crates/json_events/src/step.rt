//! What a byte does to a reader.

use crate::token::{Spanned, Token};

/// Whether a word has ended by itself.
#[derive(Debug, Drop)]
pub(crate) enum Ended {
    /// It goes on, or it is a number, which ends only where something else follows.
    No,
    /// It is no token.
    Quiet,
    /// It is a string.
    Text,
    /// It is another token.
    Gives(Token),
}

/// What one byte does.
#[derive(Debug, Drop)]
pub(crate) enum Step {
    /// It is taken.
    Takes,
    /// It is taken and ends the token.
    Gives(Spanned),
    /// The number ends before it, and it is not taken.
    Before(Spanned),
}
