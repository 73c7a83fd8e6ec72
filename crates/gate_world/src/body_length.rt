//! How long the body of a request is, as its head tells it (RFC 9112, section 6).

/// How a request's head tells the length of its body (RFC 9112, section 6.3).
#[derive(Debug, Clone, Copy, PartialEq, Eq)]
pub enum BodyLength {
    /// No field tells a length: there is no body.
    Nothing,
    /// The number of the field Content-Length, in bytes; 0 is a length too, and no body follows.
    Length(u64),
    /// The body comes in chunks, which tell their sizes.
    Chunked,
}
