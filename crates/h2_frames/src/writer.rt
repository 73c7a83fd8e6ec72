//! Writes frames (RFC 9113, section 4.1).

ghost use Rattle.std.specs.Prelude.{◌≡◌, ◌++◌, ◌+◌, ◌<◌, ◌≤◌, ◌^◌, length, drop};
ghost use Rattle.h2_frames.specs.FrameHead.{frame_bytes, head_bytes};

use crate::codes::MAX_FRAME_SIZE;

/// The nine bytes of a head.
fn head_of(size: u32, kind: u8, flags: u8, stream: u32) -> [u8; 9]
    requires size { size < 2 ^ 24 }
    requires stream { stream < 2 ^ 31 }
    ensures { result ≡ head_bytes size kind flags stream }
{
    [
        (size / 65536) as u8,
        (size / 256 % 256) as u8,
        (size % 256) as u8,
        kind,
        flags,
        (stream / 16777216) as u8,
        (stream / 65536 % 256) as u8,
        (stream / 256 % 256) as u8,
        (stream % 256) as u8,
    ]
}

/// Copies bytes to the front.
fn copy_to_front(bytes: &[u8], into: &mut [u8])
    requires { length bytes.now ≤ length into.old }
    ensures { into.new ≡ bytes.now ++ drop (length bytes.now) into.old }
{
    let n = bytes.len();
    into[..n].copy_from_slice(bytes);
}

/// Writes a frame to the front of `into`, and answers how many bytes it has. The bytes behind it
/// stay, and the reserved bit is unset.
pub fn put_frame(kind: u8, flags: u8, stream: u32, payload: &[u8], into: &mut [u8]) -> usize
    requires room { 9 + length payload.now ≤ length into.old }
    requires size { length payload.now ≤ MAX_FRAME_SIZE }
    requires stream { stream < 2 ^ 31 }
    ensures len { result ≡ 9 + length payload.now }
    ensures bytes { into.new ≡ frame_bytes kind flags stream payload.now
        ++ drop (9 + length payload.now) into.old }
{
    let head = head_of(payload.len() as u32, kind, flags, stream);
    copy_to_front(&head, into);
    copy_to_front(payload, &mut into[9..]);
    9 + payload.len()
}
