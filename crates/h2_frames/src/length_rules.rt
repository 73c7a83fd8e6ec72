//! Rules on the length of a payload and of its padding (RFC 9113, sections 4.2 and 6.1 to 6.9).

ghost use Rattle.std.specs.Prelude.{◌≡◌, ◌≤◌, ◌<◌, ◌^◌};
ghost use Rattle.h2_frames.specs.FrameErrors.{is_within_limit as within_limit, fields_size as size_of_fields, fits_settings as settings_fit, fits_fields as fields_fit, fits_kind as kind_fits, has_size_of_kind as size_of_kind, pads_within as within, pads_fields as fields_pad, pads_kind as kind_pads, has_padding_within as padding_within};
ghost use Rattle.h2_frames.specs.FrameWords.{verdict_of};

use crate::codes::{
    ACK, DATA, GOAWAY, HEADERS, MAX_FRAME_SIZE, PADDED, PING, PRIORITY, PRIORITY_FLAG, RST_STREAM,
    SETTINGS, WINDOW_UPDATE,
};
use crate::frame_head::{byte_or, flags, has_flag, kind, length_with};
use crate::verdict::{Verdict, breaks_if, keeps_if, of_all};

/// A payload has at most 16,384 bytes.
pub(crate) fn is_within_limit(bytes: &[u8]) -> Verdict
    ensures { verdict_of result ≡ within_limit bytes.now }
{
    of_all(
        length_with(255, bytes) <= MAX_FRAME_SIZE,
        MAX_FRAME_SIZE < length_with(0, bytes),
    )
}

/// The bytes of the pad length and the priority fields.
fn fields_size(kind: u8, flags: u8) -> u32
    ensures value { result ≡ size_of_fields kind flags }
    ensures bound { result ≤ 6 }
{
    let pad = if has_flag(PADDED, flags) { 1 } else { 0 };
    let priority = if kind == HEADERS && has_flag(PRIORITY_FLAG, flags) {
        5
    } else {
        0
    };
    pad + priority
}

/// SETTINGS has whole settings, and none with ACK.
fn fits_settings(size: u32, bytes: &[u8]) -> Verdict
    ensures { verdict_of result ≡ settings_fit size bytes.now }
{
    if size == 0 {
        return Verdict::Keeps;
    }
    if size % 6 != 0 {
        return Verdict::Breaks;
    }
    if bytes.len() < 5 {
        return Verdict::Undecided;
    }
    breaks_if(has_flag(ACK, flags(bytes)))
}

/// The pad length and the priority fields of DATA and HEADERS fit.
fn fits_fields(kind: u8, size: u32, bytes: &[u8]) -> Verdict
    ensures { verdict_of result ≡ fields_fit kind size bytes.now }
{
    if fields_size(kind, 255) <= size {
        return Verdict::Keeps;
    }
    if bytes.len() < 5 {
        return Verdict::Undecided;
    }
    keeps_if(fields_size(kind, flags(bytes)) <= size)
}

/// The size that each type asks for.
fn fits_kind(kind: u8, size: u32, bytes: &[u8]) -> Verdict
    ensures { verdict_of result ≡ kind_fits kind size bytes.now }
{
    if kind == DATA || kind == HEADERS {
        fits_fields(kind, size, bytes)
    } else if kind == PRIORITY {
        keeps_if(size == 5)
    } else if kind == RST_STREAM || kind == WINDOW_UPDATE {
        keeps_if(size == 4)
    } else if kind == SETTINGS {
        fits_settings(size, bytes)
    } else if kind == PING {
        keeps_if(size == 8)
    } else if kind == GOAWAY {
        keeps_if(8 <= size)
    } else {
        Verdict::Keeps
    }
}

/// The payload has a size of its type.
pub(crate) fn has_size_of_kind(bytes: &[u8]) -> Verdict
    ensures { verdict_of result ≡ size_of_kind bytes.now }
{
    if bytes.len() < 4 {
        return Verdict::Undecided;
    }
    fits_kind(kind(bytes), length_with(0, bytes), bytes)
}

/// The pad length is at most the room for padding.
fn pads_within(room: u32, bytes: &[u8]) -> Verdict
    ensures { verdict_of result ≡ within room bytes.now }
{
    if 255 <= room {
        return Verdict::Keeps;
    }
    if bytes.len() < 10 {
        return Verdict::Undecided;
    }
    keeps_if(u32::from(byte_or(bytes, 9, 0)) <= room)
}

/// The padding of DATA and HEADERS is within what follows its length and the priority fields.
fn pads_fields(kind: u8, size: u32, bytes: &[u8]) -> Verdict
    requires { size < 2 ^ 24 }
    ensures { verdict_of result ≡ fields_pad kind size bytes.now }
{
    if fields_size(kind, 255) + 255 <= size {
        return Verdict::Keeps;
    }
    if bytes.len() < 5 {
        return Verdict::Undecided;
    }
    if !has_flag(PADDED, flags(bytes)) {
        return Verdict::Keeps;
    }
    pads_within(size.saturating_sub(fields_size(kind, flags(bytes))), bytes)
}

/// The padding that each type has.
fn pads_kind(kind: u8, size: u32, bytes: &[u8]) -> Verdict
    requires { size < 2 ^ 24 }
    ensures { verdict_of result ≡ kind_pads kind size bytes.now }
{
    if kind == DATA || kind == HEADERS {
        pads_fields(kind, size, bytes)
    } else {
        Verdict::Keeps
    }
}

/// The padding of DATA and HEADERS fits into what follows its length byte and the priority
/// fields.
pub(crate) fn has_padding_within(bytes: &[u8]) -> Verdict
    ensures { verdict_of result ≡ padding_within bytes.now }
{
    if 261 <= length_with(0, bytes) {
        return Verdict::Keeps;
    }
    if bytes.len() < 4 {
        return Verdict::Undecided;
    }
    pads_kind(kind(bytes), length_with(0, bytes), bytes)
}
