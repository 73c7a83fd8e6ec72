//! All rules in order (RFC 9113, section 5.4.1).

ghost use Rattle.std.specs.Prelude.{◌≡◌};
ghost use Rattle.h2_frames.specs.FrameErrors.{judge as judgement};
ghost use Rattle.h2_frames.specs.FrameWords.{judgement_of, context_of};

use crate::codes::{FRAME_SIZE_ERROR, PROTOCOL_ERROR};
use crate::context::Context;
use crate::length_rules::{has_padding_within, has_size_of_kind, is_within_limit};
use crate::stream_rules::{begins_with_settings, continues_block, is_no_push, is_on_its_stream};
use crate::verdict::{Judgement, first_broken};

/// The first rule that the bytes of a frame break.
pub(crate) fn judge(at: Context, bytes: &[u8]) -> Judgement
    ensures { judgement_of result ≡ judgement (context_of at) bytes.now }
{
    let last = first_broken(has_padding_within(bytes), PROTOCOL_ERROR, Judgement::Fine);
    let last = first_broken(has_size_of_kind(bytes), FRAME_SIZE_ERROR, last);
    let last = first_broken(is_no_push(bytes), PROTOCOL_ERROR, last);
    let last = first_broken(is_on_its_stream(bytes), PROTOCOL_ERROR, last);
    let last = first_broken(continues_block(at.block(), bytes), PROTOCOL_ERROR, last);
    let last = first_broken(is_within_limit(bytes), FRAME_SIZE_ERROR, last);
    first_broken(begins_with_settings(at, bytes), PROTOCOL_ERROR, last)
}
