//! What a reader tells of a frame (RFC 9113, section 4.1).

/// A part of a frame. A frame is `Begin`, any number of `Piece`, then `Done`.
#[derive(Debug, Clone, Copy, PartialEq, Eq)]
pub enum Part {
    /// The head is whole with the last byte that was taken.
    Begin {
        /// The payload's length in bytes, at most 16,384.
        length: u32,
        /// The frame type. Types that are not known are told as well.
        kind: u8,
        /// The flags, with those that have no meaning for the type.
        flags: u8,
        /// The stream, without the reserved bit.
        stream: u32,
    },
    /// So many bytes of the payload, at least one: the last that were taken.
    Piece(usize),
    /// The frame has ended. No byte is taken.
    Done,
}

/// The answer to a call of `FrameReader::feed`.
#[derive(Debug, Clone, Copy, PartialEq, Eq)]
pub struct FrameFed {
    /// How many of the given bytes were taken, from the first on.
    pub taken: usize,
    /// The part that is known with the last of them. `None` where all were taken before one was.
    pub part: Option<Part>,
}
