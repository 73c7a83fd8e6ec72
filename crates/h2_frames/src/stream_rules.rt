//! Rules on the order of frames and on their streams (RFC 9113, sections 3.4, 4.3 and 6.1 to
//! 6.10).

ghost use Rattle.std.specs.Prelude.{◌≡◌};
ghost use Rattle.h2_frames.specs.FrameErrors.{begins_with_settings as begins, continues_block as continues, is_of_stream as of_stream, is_of_connection as of_connection, is_on_its_stream as on_its_stream, is_no_push as no_push};
ghost use Rattle.h2_frames.specs.FrameWords.{verdict_of, context_of};

use crate::codes::{
    ACK, CONTINUATION, DATA, GOAWAY, HEADERS, PING, PRIORITY, PUSH_PROMISE, RST_STREAM, SETTINGS,
};
use crate::context::Context;
use crate::frame_head::{flags, has_flag, kind, stream_with};
use crate::verdict::{Verdict, breaks_if, of_all};

/// The first frame is SETTINGS without ACK.
pub(crate) fn begins_with_settings(at: Context, bytes: &[u8]) -> Verdict
    ensures { verdict_of result ≡ begins (context_of at) bytes.now }
{
    if !at.is_first() {
        return Verdict::Keeps;
    }
    if bytes.len() < 4 {
        return Verdict::Undecided;
    }
    if kind(bytes) != SETTINGS {
        return Verdict::Breaks;
    }
    if bytes.len() < 5 {
        return Verdict::Undecided;
    }
    breaks_if(has_flag(ACK, flags(bytes)))
}

/// An open field block is followed by CONTINUATION of its stream, which stands nowhere else.
pub(crate) fn continues_block(block: Option<u32>, bytes: &[u8]) -> Verdict
    ensures { verdict_of result ≡ continues block bytes.now }
{
    if bytes.len() < 4 {
        return Verdict::Undecided;
    }
    match block {
        None => breaks_if(kind(bytes) == CONTINUATION),
        Some(stream) => {
            if kind(bytes) != CONTINUATION {
                return Verdict::Breaks;
            }
            let low = stream_with(0, bytes);
            let high = stream_with(255, bytes);
            of_all(
                low == stream && high == stream,
                stream < low || high < stream,
            )
        }
    }
}

/// Whether frames of the type are of a stream.
fn is_of_stream(kind: u8) -> bool
    ensures { result ≡ of_stream kind }
{
    kind == DATA
        || kind == HEADERS
        || kind == PRIORITY
        || kind == RST_STREAM
        || kind == PUSH_PROMISE
}

/// Whether frames of the type are of the whole connection.
fn is_of_connection(kind: u8) -> bool
    ensures { result ≡ of_connection kind }
{
    kind == SETTINGS || kind == PING || kind == GOAWAY
}

/// Frames of a stream are not on stream 0, and those of the connection are.
pub(crate) fn is_on_its_stream(bytes: &[u8]) -> Verdict
    ensures { verdict_of result ≡ on_its_stream bytes.now }
{
    if bytes.len() < 4 {
        return Verdict::Undecided;
    }
    let low = stream_with(0, bytes);
    let high = stream_with(255, bytes);
    if is_of_stream(kind(bytes)) {
        of_all(0 < low, high == 0)
    } else if is_of_connection(kind(bytes)) {
        of_all(high == 0, 0 < low)
    } else {
        Verdict::Keeps
    }
}

/// PUSH_PROMISE does not come.
pub(crate) fn is_no_push(bytes: &[u8]) -> Verdict
    ensures { verdict_of result ≡ no_push bytes.now }
{
    if bytes.len() < 4 {
        return Verdict::Undecided;
    }
    breaks_if(kind(bytes) == PUSH_PROMISE)
}
