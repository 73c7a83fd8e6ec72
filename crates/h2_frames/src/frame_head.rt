//! The numbers of a frame's head (RFC 9113, section 4.1), of which some bytes may not have come.

ghost use Rattle.std.specs.Prelude.{◌≡◌, ◌<◌, ◌^◌, slice_index_or};
ghost use Rattle.h2_frames.specs.FrameHead.{length_with as length_in, stream_with as stream_in, kind_of, flags_of, has_flag as is_set};

/// The byte at an index, or another where it has not come.
pub(crate) fn byte_or(bytes: &[u8], index: usize, byte: u8) -> u8
    ensures { result ≡ slice_index_or bytes.now index byte }
{
    if index < bytes.len() {
        bytes[index]
    } else {
        byte
    }
}

/// The payload's length, with a byte in the place of each that has not come.
pub(crate) fn length_with(byte: u8, bytes: &[u8]) -> u32
    ensures value { result ≡ length_in byte bytes.now }
    ensures bound { result < 2 ^ 24 }
{
    u32::from(byte_or(bytes, 0, byte)) * 65536
        + u32::from(byte_or(bytes, 1, byte)) * 256
        + u32::from(byte_or(bytes, 2, byte))
}

/// The stream without the reserved bit, in the same way.
pub(crate) fn stream_with(byte: u8, bytes: &[u8]) -> u32
    ensures value { result ≡ stream_in byte bytes.now }
    ensures bound { result < 2 ^ 31 }
{
    u32::from(byte_or(bytes, 5, byte) % 128) * 16777216
        + u32::from(byte_or(bytes, 6, byte)) * 65536
        + u32::from(byte_or(bytes, 7, byte)) * 256
        + u32::from(byte_or(bytes, 8, byte))
}

/// The frame type.
pub(crate) fn kind(bytes: &[u8]) -> u8
    ensures { result ≡ kind_of bytes.now }
{
    byte_or(bytes, 3, 0)
}

/// The flags.
pub(crate) fn flags(bytes: &[u8]) -> u8
    ensures { result ≡ flags_of bytes.now }
{
    byte_or(bytes, 4, 0)
}

/// Whether a flag is set.
pub(crate) fn has_flag(flag: u8, flags: u8) -> bool
    ensures { result ≡ is_set flag flags }
{
    flags & flag != 0
}
