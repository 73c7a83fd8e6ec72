//! Connection errors (RFC 9113, section 5.4.1) that frames alone show.

/// The first rule that a frame breaks. It ends the connection.
#[derive(Debug, Clone, Copy, PartialEq, Eq)]
pub struct H2Fault {
    /// The offset of the frame's first byte in all bytes that were read. It stands still at the
    /// last value of `u64`.
    pub place: u64,
    /// The error code (RFC 9113, section 7): PROTOCOL_ERROR or FRAME_SIZE_ERROR.
    pub code: u32,
}
