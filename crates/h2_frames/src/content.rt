//! Where the content of a frame lies in its payload (RFC 9113, sections 6.1 and 6.2), by numbers of
//! its head and the first byte of its payload.

ghost use Rattle.std.specs.Prelude.{◌≡◌, ◌≤◌, ◌-◌, ℕ, List, length, take, drop};
ghost use Rattle.h2_frames.specs.FrameContent.{is_padded as padded, has_priority as prioritized, bytes_before as before, padding_size as padding, waits_for_padding as waits, content_among};

use crate::codes::{DATA, HEADERS, PADDED, PRIORITY_FLAG};
use crate::frame_head::has_flag;

/// Whether a frame has padding: DATA and HEADERS with PADDED. Then the first byte of its payload
/// is the pad length.
pub fn is_padded(kind: u8, flags: u8) -> bool
    ensures { result ≡ padded kind flags }
{
    (kind == DATA || kind == HEADERS) && has_flag(PADDED, flags)
}

/// Whether a frame has priority fields: HEADERS with PRIORITY.
fn has_priority(kind: u8, flags: u8) -> bool
    ensures { result ≡ prioritized kind flags }
{
    kind == HEADERS && has_flag(PRIORITY_FLAG, flags)
}

/// How many bytes of a payload stand before its content: one of the pad length, and five of the
/// priority fields.
pub fn bytes_before(kind: u8, flags: u8) -> u32
    ensures value { result ≡ before kind flags }
    ensures bound { result ≤ 6 }
{
    let pad_length = if is_padded(kind, flags) { 1 } else { 0 };
    let priority = if has_priority(kind, flags) { 5 } else { 0 };
    pad_length + priority
}

/// How many bytes of padding stand behind the content, where `first` is the first byte of the
/// payload. A frame without padding has none, whatever `first` is.
pub fn padding_size(kind: u8, flags: u8, first: u8) -> u32
    ensures value { result ≡ padding kind flags first }
    ensures bound { result ≤ 255 }
{
    if is_padded(kind, flags) {
        u32::from(first)
    } else {
        0
    }
}

/// Whether a frame that has begun may still break a rule: with the first byte of its payload the
/// padding is judged, and the payload of `length` bytes has no room for every pad length.
pub fn waits_for_padding(kind: u8, flags: u8, length: u32) -> bool
    ensures { result ≡ waits kind flags length }
{
    is_padded(kind, flags) && length < bytes_before(kind, flags) + 255
}

/// Where the content lies among `n` bytes of a payload, the first of which has this offset in it:
/// the index of its first byte and the one behind its last, which are the same where it has none
/// there. The payload has `before` bytes before its content, and the whole content has `size`.
pub fn content_range(before: u32, size: u32, offset: usize, n: usize) -> (usize, usize)
    ensures within { (result.0 ≤ result.1) × (result.1 ≤ n) }
    ensures content { (bytes : List ℕ) → length bytes ≡ n
        → take (result.1 - result.0) (drop result.0 bytes)
        ≡ content_among before size offset bytes }
{
    let skipped = (before as usize).saturating_sub(offset);
    let past = offset.saturating_sub(before as usize);
    let left = (size as usize).saturating_sub(past);
    let from = skipped.min(n);
    let most = left.min(n - from);
    (from, from + most)
}
