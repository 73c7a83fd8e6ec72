//! Laws of what is put on a stream and read from it, for callers and for whoever checks the
//! definitions.
ghost use Rattle.std.specs.Prelude.{◌≡◌, ◌++◌, ◌<◌, ◌≤◌, ◌^◌, ℕ, List, [], length, Some, Err};
ghost use Rattle.std.specs.List.{AllByRecursion};
ghost use Rattle.base.specs.Bytes.{AreBytes};
ghost use Rattle.base.specs.PiecewiseReading.{FeedCall, IsRun, taken_in_all, told_by_all};
ghost use Rattle.grpc_frames.specs.declared.deframer.Deframed.{Deframed};
ghost use Rattle.grpc_frames.specs.declared.fault.FrameFault.{FrameFault};
ghost use Rattle.grpc_frames.specs.LengthPrefixed.{all_length_prefixed, after_messages, deframed_of, BeginsBy};
ghost use Rattle.grpc_frames.specs.LengthPrefixed.{FramingError};
ghost use Rattle.grpc_frames.specs.Deframer.{DeframerState, Stands};
ghost use Rattle.grpc_frames.specs.DeframerRuns.{deframing, taken_by, IsFirstOf};

/// Any bytes are the messages that are read from them, framed, and the rest, which begins with less
/// than a message or with what is wrong.
pub fn read_messages_were_framed()
    ensures joined { (limit : ℕ) (bytes : List ℕ) → AreBytes bytes
        → bytes ≡ all_length_prefixed (deframed_of limit bytes).messages ++ (deframed_of limit bytes).rest }
    ensures rest { (limit : ℕ) (bytes : List ℕ)
        → BeginsBy limit (deframed_of limit bytes).error (deframed_of limit bytes).rest }
{}

/// Messages within the limit that are framed are read back, whatever bytes come behind them.
pub fn framed_messages_are_read_back()
    ensures { (limit : ℕ) (messages : List (List ℕ)) (more : List ℕ) → limit < 2 ^ 32
        → AllByRecursion (λ m. length m ≤ limit) messages
        → deframed_of limit (all_length_prefixed messages ++ more)
        ≡ after_messages messages (deframed_of limit more) }
{}

/// Messages that are read are within the limit.
pub fn read_messages_are_within_the_limit()
    ensures { (limit : ℕ) (bytes : List ℕ)
        → AllByRecursion (λ m. length m ≤ limit) (deframed_of limit bytes).messages }
{}

/// A stream goes on: more bytes keep its messages, and are read behind its rest. An error stays, whatever follows: no
/// message comes behind it.
pub fn streams_go_on()
    ensures joined { (limit : ℕ) (bytes more : List ℕ)
        → deframed_of limit (bytes ++ more)
        ≡ after_messages (deframed_of limit bytes).messages
        (deframed_of limit ((deframed_of limit bytes).rest ++ more)) }
    ensures error { (limit : ℕ) (bytes more : List ℕ) (e : FramingError)
        → (deframed_of limit bytes).error ≡ Some e
        → deframed_of limit (bytes ++ more)
        ≡ record { messages = (deframed_of limit bytes).messages; rest = (deframed_of limit bytes).rest ++ more; error = Some e } }
{}

/// However a stream is given to a deframer, it tells the messages of all bytes that it took, and its
/// first refusal is the first fault of the whole stream, whatever follows.
pub fn pieces_change_nothing()
    ensures told { (old new : DeframerState) (calls : List (FeedCall Deframed)) → Stands old []
        → IsRun (deframing old.limit) old calls new
        → told_by_all (deframing old.limit) [] calls
        ≡ (deframed_of old.limit (taken_in_all taken_by calls)).messages }
    ensures refused { (old new last : DeframerState) (calls : List (FeedCall Deframed))
        (bytes more : List ℕ) (fault : FrameFault) → Stands old []
        → IsRun (deframing old.limit) old calls new
        → (deframing old.limit).Step new bytes (Err fault) last
        → IsFirstOf old.limit (taken_in_all taken_by calls ++ (bytes ++ more))
        (told_by_all (deframing old.limit) [] calls) fault }
{}
