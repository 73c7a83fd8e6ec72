//! What the reader gives.

use base::Text;

/// A token of a JSON text (RFC 8259, sections 2 to 7). Commas and colons are none.
#[derive(Debug, Drop)]
pub enum Token {
    /// `{`
    BeginObject,
    /// `}`
    EndObject,
    /// `[`
    BeginArray,
    /// `]`
    EndArray,
    /// The text for which the name of a member stands.
    Key(Text),
    /// The text for which another string stands.
    Text(Text),
    /// A number as it is spelled.
    Number(Text),
    /// `true`
    True,
    /// `false`
    False,
    /// `null`
    Null,
}

/// A token, with the offsets in bytes where it begins and ends.
#[derive(Debug, Drop)]
pub struct Spanned {
    /// The token.
    pub token: Token,
    /// The offset of its first byte.
    pub from: u64,
    /// The offset behind its last byte.
    pub to: u64,
}

/// What a call took.
#[derive(Debug, Drop)]
pub struct Fed {
    /// How many of the bytes were taken; with no token, all of them.
    pub taken: usize,
    /// The token that ended.
    pub token: Option<Spanned>,
}
