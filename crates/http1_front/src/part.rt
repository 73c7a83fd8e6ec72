//! The parts of a connection's bytes that have an end of their own (RFC 9112, sections 2.1 and 7.1).

/// A part of a connection's bytes.
#[derive(Debug, Clone, Copy, PartialEq, Eq)]
pub enum Part {
    /// The head of a request, with the empty lines before it and the one that ends it.
    Head,
    /// The size line of a chunk, through its first line feed.
    SizeLine,
    /// The trailer section behind the last chunk, with the empty line that ends it.
    Trailers,
}
