//! Where a frame stands among the frames (RFC 9113, sections 3.4 and 4.3).

ghost use Rattle.std.specs.Prelude.{◌≡◌, false};
ghost use Rattle.h2_frames.specs.Http2Frame.{after as next};
ghost use Rattle.h2_frames.specs.FrameWords.{context_of};

use crate::codes::{CONTINUATION, END_HEADERS, HEADERS};
use crate::frame_head::{flags, has_flag, kind, stream_with};

/// What the frames before a frame leave to it.
#[derive(Clone, Copy)]
pub(crate) enum Context {
    /// No frame came before it.
    First,
    /// Frames came, and no field block is open.
    Between,
    /// The field block of this stream is open.
    InBlock(u32),
}

impl Context {
    /// True where no frame came before.
    pub(crate) fn is_first(self) -> bool
        ensures { result ≡ (context_of self).first }
    {
        matches!(self, Context::First)
    }

    /// The stream of the field block that is open.
    pub(crate) fn block(self) -> Option<u32>
        ensures { result ≡ (context_of self).block }
    {
        match self {
            Context::First => None,
            Context::Between => None,
            Context::InBlock(stream) => Some(stream),
        }
    }

    /// The same behind a frame that leaves the field block as it is.
    fn behind(self) -> Context
        ensures { context_of result ≡ record (context_of self) { first = false } }
    {
        match self {
            Context::First => Context::Between,
            Context::Between => Context::Between,
            Context::InBlock(stream) => Context::InBlock(stream),
        }
    }
}

/// Where the frame behind a frame stands.
pub(crate) fn after(at: Context, head: &[u8]) -> Context
    ensures { context_of result ≡ next (context_of at) head.now }
{
    if kind(head) == HEADERS || kind(head) == CONTINUATION {
        if has_flag(END_HEADERS, flags(head)) {
            Context::Between
        } else {
            Context::InBlock(stream_with(0, head))
        }
    } else {
        at.behind()
    }
}
