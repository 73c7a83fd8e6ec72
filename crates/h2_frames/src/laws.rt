//! Laws of frames, for callers and for whoever checks the definitions (RFC 9113, section 4.1).

ghost use Rattle.std.specs.Prelude.{◌≡◌, ◌≢◌, ◌<◌, ◌≤◌, ◌+◌, ◌^◌, ◌++◌, ◌↔◌, ◌⊎◌, ℕ, List, [], ◌∷◌, length, take, drop, map, slice_index_or, true, Option, Some, None, IfSome, Ok, Err};
ghost use Rattle.std.specs.List.{AllByRecursion, sum_by};
ghost use Rattle.base.specs.Bytes.{AreBytes};
ghost use Rattle.base.specs.Saturated.{saturated};
ghost use Rattle.base.specs.PiecewiseReading.{FeedCall, IsRun, taken_in_all};
ghost use Rattle.h2_frames.specs.declared.fault.H2Fault.{H2Fault};
ghost use Rattle.h2_frames.specs.FrameHead.{Frame, frame_size, frame_bytes, frame_of, length_with, kind_of, flags_of, stream_with};
ghost use Rattle.h2_frames.specs.FrameErrors.{Context, judge, Open, Fine, Fault, begins_with_settings, is_within_limit, continues_block, is_on_its_stream, is_no_push, has_size_of_kind, has_padding_within};
ghost use Rattle.h2_frames.specs.FrameContent.{bytes_before, padding_size, bytes_around, HasContent, content_size, content_of, content_among, waits_for_padding};
ghost use Rattle.h2_frames.specs.FrameRules.{KeepsHeadRules, KeepsRules, KeepRules, context_behind};
ghost use Rattle.h2_frames.specs.FrameOffsets.{FrameAt, StandsIn, frames_with_offsets, bytes_of_frames};
ghost use Rattle.h2_frames.specs.FramePositions.{IsOfPart, StandsWithin};
ghost use Rattle.h2_frames.specs.FrameVerdicts.{IsDecidedAtOnce};
ghost use Rattle.h2_frames.specs.Http2Frame.{AreFrames, start, cut, judged, frames_of, rest_of, first_fault};
ghost use Rattle.h2_frames.specs.FrameReader.{IsNoFault, Kept, Stands, Position, no_bytes, bytes_read, position_after, answer_of, IsPart};
ghost use Rattle.h2_frames.specs.declared.parts.FrameFed.{FrameFed};
ghost use Rattle.h2_frames.specs.FrameRuns.{frame_reading, taken_by, told_of, with_more, TellsFrames};

use crate::codes::{
    ACK, CANCEL, COMPRESSION_ERROR, CONNECT_ERROR, CONNECTION_STREAM, CONTINUATION, DATA,
    END_HEADERS, END_STREAM, ENHANCE_YOUR_CALM, FLOW_CONTROL_ERROR, FRAME_HEAD_BYTES,
    FRAME_SIZE_ERROR, GOAWAY, HEADERS, HTTP_1_1_REQUIRED, INADEQUATE_SECURITY, INTERNAL_ERROR,
    MAX_FRAME_SIZE, NO_ERROR, PADDED, PING, PRIORITY, PRIORITY_FLAG, PROTOCOL_ERROR, PUSH_PROMISE,
    REFUSED_STREAM, RST_STREAM, SETTINGS, SETTINGS_ENABLE_PUSH, SETTINGS_HEADER_TABLE_SIZE,
    SETTINGS_INITIAL_WINDOW_SIZE, SETTINGS_MAX_CONCURRENT_STREAMS, SETTINGS_MAX_FRAME_SIZE,
    SETTINGS_MAX_HEADER_LIST_SIZE, SETTINGS_TIMEOUT, STREAM_CLOSED, WINDOW_UPDATE,
};

/// Each constant has the value that the standard gives to its name: the sizes, the stream of the
/// connection, the types, the flags, the settings and the error codes (RFC 9113, sections 4.1, 4.2,
/// 5.1.1, 6, 6.5.2 and 7).
pub fn codes_are_the_standards()
    ensures sizes { (FRAME_HEAD_BYTES ≡ 9) × (MAX_FRAME_SIZE ≡ 16384) }
    ensures connection { CONNECTION_STREAM ≡ 0 }
    ensures types { (DATA ≡ 0) × (HEADERS ≡ 1) × (PRIORITY ≡ 2) × (RST_STREAM ≡ 3) × (SETTINGS ≡ 4)
        × (PUSH_PROMISE ≡ 5) × (PING ≡ 6) × (GOAWAY ≡ 7) × (WINDOW_UPDATE ≡ 8) × (CONTINUATION ≡ 9) }
    ensures flags { (END_STREAM ≡ 1) × (ACK ≡ 1) × (END_HEADERS ≡ 4) × (PADDED ≡ 8)
        × (PRIORITY_FLAG ≡ 32) }
    ensures settings { (SETTINGS_HEADER_TABLE_SIZE ≡ 1) × (SETTINGS_ENABLE_PUSH ≡ 2)
        × (SETTINGS_MAX_CONCURRENT_STREAMS ≡ 3) × (SETTINGS_INITIAL_WINDOW_SIZE ≡ 4)
        × (SETTINGS_MAX_FRAME_SIZE ≡ 5) × (SETTINGS_MAX_HEADER_LIST_SIZE ≡ 6) }
    ensures errors { (NO_ERROR ≡ 0) × (PROTOCOL_ERROR ≡ 1) × (INTERNAL_ERROR ≡ 2)
        × (FLOW_CONTROL_ERROR ≡ 3) × (SETTINGS_TIMEOUT ≡ 4) × (STREAM_CLOSED ≡ 5)
        × (FRAME_SIZE_ERROR ≡ 6) × (REFUSED_STREAM ≡ 7) × (CANCEL ≡ 8)
        × (COMPRESSION_ERROR ≡ 9) × (CONNECT_ERROR ≡ 10) × (ENHANCE_YOUR_CALM ≡ 11)
        × (INADEQUATE_SECURITY ≡ 12) × (HTTP_1_1_REQUIRED ≡ 13) }
{}

/// No judgement is open of a frame that is whole, nor of ten bytes.
pub fn rules_are_decided()
    ensures whole { (at : Context) (bytes : List ℕ)
        → 9 ≤ length bytes → frame_size bytes ≤ length bytes → judge at (judged bytes) ≢ Open }
    ensures ten { (at : Context) (bytes : List ℕ) → 10 ≤ length bytes → judge at bytes ≢ Open }
{}

/// A head in which no fault is found leaves one rule open at most, that on padding, and exactly
/// where `waits_for_padding` says so.
pub fn padding_is_judged_last()
    ensures { (at : Context) (head : List ℕ) → length head ≡ 9 → IsNoFault (judge at head)
        → (judge at head ≡ Open)
        ↔ (waits_for_padding (kind_of head) (flags_of head) (length_with 0 head) ≡ true) }
{}

/// The rules are those of the standard: no fault is found in a whole frame exactly where it keeps
/// each of them. So do all frames of a list of bytes, each behind those before it, and one that
/// does so behind whole frames is the next of them. Where no fault is found in a head it keeps
/// those that a head shows, and with the first byte of the payload the padding fits.
pub fn rules_are_the_standards()
    ensures whole { (at : Context) (bytes : List ℕ) → AreBytes bytes → 9 ≤ length bytes
        → length bytes ≡ frame_size bytes
        → IsNoFault (judge at (judged bytes)) ↔ KeepsRules at (frame_of bytes) }
    ensures frames { (bytes : List ℕ) → AreBytes bytes → KeepRules start (frames_of bytes) }
    ensures head { (at : Context) (bytes : List ℕ) → 9 ≤ length bytes → IsNoFault (judge at bytes)
        → KeepsHeadRules at (length_with 0 bytes) (kind_of bytes) (flags_of bytes)
        (stream_with 0 bytes) }
    ensures context { (bytes : List ℕ)
        → (cut bytes).context ≡ context_behind start (frames_of bytes) }
    ensures next { (before seen : List ℕ) → AreFrames before → 9 ≤ length seen
        → length seen ≡ frame_size seen
        → KeepsRules (context_behind start (frames_of before)) (frame_of seen)
        → AreFrames (before ++ seen)
        × (frames_of (before ++ seen) ≡ frames_of before ++ frame_of seen ∷ []) }
    ensures padding { (at : Context) (bytes : List ℕ) → AreBytes bytes → 10 ≤ length bytes
        → IsNoFault (judge at bytes)
        → bytes_before (kind_of bytes) (flags_of bytes)
        + padding_size (kind_of bytes) (flags_of bytes) (slice_index_or bytes 9 0)
        ≤ length_with 0 bytes }
{}

/// Each rule is decided by the first byte with which it must be: what is decided stays, and what
/// is not may still go either way.
pub fn rules_are_decided_at_once()
    ensures settings { (at : Context) → IsDecidedAtOnce (begins_with_settings at) }
    ensures limit { IsDecidedAtOnce is_within_limit }
    ensures block { (block : Option ℕ) → IfSome block (λ stream. stream < 2 ^ 31)
        → IsDecidedAtOnce (continues_block block) }
    ensures stream { IsDecidedAtOnce is_on_its_stream }
    ensures push { IsDecidedAtOnce is_no_push }
    ensures size { IsDecidedAtOnce has_size_of_kind }
    ensures padding { IsDecidedAtOnce has_padding_within }
{}

/// Whatever bytes come, what is judged of a frame stays, the first fault and the frames before it
/// stay, and behind a fault no frame comes.
pub fn faults_and_frames_stay()
    ensures faults { (bytes more : List ℕ) (f : H2Fault) → AreBytes bytes → AreBytes more
        → first_fault bytes ≡ Some f → first_fault (bytes ++ more) ≡ Some f }
    ensures judged { (at : Context) (bytes more : List ℕ) (code : ℕ) → AreBytes (bytes ++ more)
        → judge at bytes ≡ Fault code → judge at (bytes ++ more) ≡ Fault code }
    ensures fine { (at : Context) (bytes more : List ℕ) → AreBytes (bytes ++ more)
        → judge at bytes ≡ Fine → judge at (bytes ++ more) ≡ Fine }
    ensures all_frames { (bytes more : List ℕ) (f : H2Fault) → AreBytes bytes → AreBytes more
        → first_fault bytes ≡ Some f → frames_of (bytes ++ more) ≡ frames_of bytes }
    ensures frames { (bytes more : List ℕ)
        → (others : List Frame) × (frames_of (bytes ++ more) ≡ frames_of bytes ++ others) }
{}

/// A frame that `put_frame` writes behind whole frames is read back as it is, wherever it breaks
/// no rule there.
pub fn frames_are_read_back()
    ensures frames { (before : List ℕ) (kind flags stream : ℕ) (payload : List ℕ)
        → AreFrames before → stream < 2 ^ 31 → length payload < 2 ^ 24
        → first_fault (before ++ frame_bytes kind flags stream payload) ≡ None
        → frames_of (before ++ frame_bytes kind flags stream payload) ≡ frames_of before
        ++ record { size = length payload; kind = kind; flags = flags; stream = stream; payload = payload } ∷ [] }
    ensures whole { (before : List ℕ) (kind flags stream : ℕ) (payload : List ℕ)
        → AreFrames before → stream < 2 ^ 31 → length payload < 2 ^ 24
        → first_fault (before ++ frame_bytes kind flags stream payload) ≡ None
        → AreFrames (before ++ frame_bytes kind flags stream payload) }
{}

/// However a list of bytes is given to a reader, the parts of its answers are the frames of the
/// whole list, up to the first fault of that list. Each call adds the bytes that it takes. A refusal
/// is that fault, whatever bytes follow, and no frame of the longer list is left untold.
pub fn parts_are_frames()
    ensures parts { (calls : List (FeedCall FrameFed)) (last : Position)
        → IsRun frame_reading no_bytes calls last → TellsFrames calls last }
    ensures read { (p : Position) (bytes : List ℕ) (fed : FrameFed) → IsPart fed.taken fed.part
        → bytes_read (position_after (Ok fed) p bytes) ≡ bytes_read p ++ take fed.taken bytes }
    ensures offset { (calls : List (FeedCall FrameFed)) (last : Position)
        → IsRun frame_reading no_bytes calls last
        → length (bytes_read last) ≡ sum_by (λ (call : FeedCall FrameFed). call.fed.taken) calls }
    ensures refused { (calls : List (FeedCall FrameFed)) (last : Position) (bytes more : List ℕ)
        (f : H2Fault) → IsRun frame_reading no_bytes calls last → answer_of last bytes ≡ Err f
        → AreBytes (taken_in_all taken_by calls) → AreBytes bytes → AreBytes more
        → first_fault (taken_in_all taken_by calls ++ (bytes ++ more)) ≡ Some f }
    ensures told { (calls : List (FeedCall FrameFed)) (last : Position) (bytes more : List ℕ)
        (f : H2Fault) → IsRun frame_reading no_bytes calls last → answer_of last bytes ≡ Err f
        → AreBytes (taken_in_all taken_by calls) → AreBytes bytes → AreBytes more
        → (told_of calls).frames ≡ frames_of (taken_in_all taken_by calls ++ (bytes ++ more)) }
{}

/// The content of a frame lies in its payload where the standard says, and a payload has one
/// content. Each piece of a payload adds its own, so that nobody has to keep the payload.
pub fn contents_lie_in_payloads()
    ensures lies { (f : Frame) → length f.payload ≡ f.size → bytes_around f ≤ f.size
        → HasContent f (content_of f) }
    ensures only { (f : Frame) (content : List ℕ) → length f.payload ≡ f.size
        → HasContent f content → content ≡ content_of f }
    ensures grows { (f : Frame) (bytes : List ℕ) → content_of (with_more bytes f) ≡ content_of f
        ++ content_among (bytes_before f.kind f.flags) (content_size (with_more bytes f))
        (length f.payload) bytes }
{}

/// The frames of a list stand one behind another from its first byte on, and a fault has the offset
/// of the frame behind them.
pub fn frames_have_offsets()
    ensures frames { (bytes : List ℕ)
        → map (λ (at : FrameAt). at.frame) (frames_with_offsets bytes) ≡ frames_of bytes }
    ensures stand { (bytes : List ℕ) → AllByRecursion (StandsIn bytes) (frames_with_offsets bytes) }
    ensures rest { (bytes : List ℕ)
        → rest_of bytes ≡ drop (bytes_of_frames (frames_of bytes)) bytes }
    ensures size { (bytes : List ℕ)
        → bytes_of_frames (frames_of bytes) + length (rest_of bytes) ≡ length bytes }
    ensures fault { (bytes : List ℕ) (f : H2Fault) → first_fault bytes ≡ Some f
        → f.place ≡ saturated (bytes_of_frames (frames_of bytes)) }
    ensures breaks { (bytes : List ℕ) (f : H2Fault) → first_fault bytes ≡ Some f
        → judge (cut bytes).context (judged (rest_of bytes)) ≡ Fault f.code }
    ensures none { (bytes : List ℕ) → (first_fault bytes ≡ None)
        ↔ IsNoFault (judge (cut bytes).context (judged (rest_of bytes))) }
    ensures codes { (bytes : List ℕ) (f : H2Fault) → first_fault bytes ≡ Some f
        → (f.code ≡ 1) ⊎ (f.code ≡ 6) }
    ensures next { (before seen : List ℕ) → AreFrames before → 9 ≤ length seen
        → length seen ≡ frame_size seen → first_fault (before ++ seen) ≡ None
        → frames_with_offsets (before ++ seen)
        ≡ frames_with_offsets before ++ record { offset = length before; frame = frame_of seen } ∷ [] }
{}

/// Where a reader stands in the bytes for which it stands, and of which of them a part speaks.
pub fn readers_stand_in_their_bytes()
    ensures stands { (kept : Kept) (p : Position) → Stands kept p → kept.fault ≡ None
        → StandsWithin kept p }
    ensures parts { (p : Position) (bytes : List ℕ) (fed : FrameFed) → answer_of p bytes ≡ Ok fed
        → (9 ≤ length p.seen → length p.seen ≤ frame_size p.seen)
        → IsOfPart fed.part p.seen (take fed.taken bytes) }
{}
