//! Reads frames from bytes that come in any pieces (RFC 9113, section 4.1).

ghost use Rattle.std.specs.Prelude.{◌≡◌, ◌++◌, ◌+◌, ◌<◌, ◌≤◌, ◌-◌, ◌^◌, ℕ, List, [], ◌∷◌, length, drop, min, take, IfOk, IfErr, IfSome, OnOk, OnErr, IsErr, None, vec_capacity, false};
ghost use Rattle.h2_frames.specs.FrameSteps.{IsHeadStep, IsPayloadStep, IsMoreStep, IsLastStep, IsJudged};
ghost use Rattle.h2_frames.specs.FrameHead.{length_with as length_in, kind_of, flags_of, stream_with as stream_in, frame_of};
ghost use Rattle.h2_frames.specs.Http2Frame.{frames_of};
ghost use Rattle.h2_frames.specs.FrameReader.{Position, no_bytes, bytes_read, Stands, position_after, answer_of, work_left, IsPart};
ghost use Rattle.h2_frames.specs.FrameProgress.{has_begun, Follows, IsRefused};
ghost use Rattle.h2_frames.specs.FrameWords.{context_of};

use crate::context::{Context, after};
use crate::fault::H2Fault;
use crate::frame_head::{flags, kind, length_with, stream_with};
use crate::frame_rules::judge;
use crate::parts::{FrameFed, Part};
use crate::stage::Stage;
use crate::verdict::Judgement;
use base::{NoMemory, append_within};
use std::alloc::Global;
use std::marker::Model;

/// Takes bytes up to a number, for which there is room.
fn fill(kept: &mut Vec<u8>, most: usize, bytes: &[u8]) -> usize
    requires { length kept.old.items + most ≤ vec_capacity kept.old }
    ensures taken { result ≡ min most (length bytes.now) }
    ensures kept { kept.new.items ≡ kept.old.items ++ take most bytes.now }
    ensures room { vec_capacity kept.old ≤ vec_capacity kept.new }
{
    let n = bytes.len().min(most);
    append_within(kept, &bytes[..n]);
    n
}

/// Takes the first bytes of a frame, and judges it.
fn take_in(at: Context, head: &mut Vec<u8>, most: usize, bytes: &[u8]) -> Result<usize, u32>
    requires { length head.old.items + most ≤ vec_capacity head.old }
    ensures taken { IfOk result (λ n. n ≡ min most (length bytes.now)) }
    ensures head { head.new.items ≡ head.old.items ++ take most bytes.now }
    ensures room { vec_capacity head.old ≤ vec_capacity head.new }
    ensures judged { IsJudged (context_of at) head.new.items result }
{
    let n = fill(head, most, bytes);
    match judge(at, head.as_slice()) {
        Judgement::Fault(code) => Err(code),
        Judgement::Open => Ok(n),
        Judgement::Fine => Ok(n),
    }
}

/// The part that a whole head is.
fn begin(head: &[u8]) -> Part
    ensures part { result ≡ Part.Begin (length_in 0 head.now) (kind_of head.now) (flags_of head.now) (stream_in 0 head.now) }
    ensures stream { stream_in 0 head.now < 2 ^ 31 }
{
    Part::Begin {
        length: length_with(0, head),
        kind: kind(head),
        flags: flags(head),
        stream: stream_with(0, head),
    }
}

/// Keeps a fault of the frame that is read.
fn refuse(stage: &mut Stage, place: u64, code: u32) -> H2Fault
    ensures fault { result ≡ record { place = place; code = code } }
    ensures stage { stage.new ≡ Stage.Refused result }
{
    let fault = H2Fault { place, code };
    *stage = Stage::Refused(fault);
    fault
}

/// Cuts a stream of bytes into frames, and judges each by the rules that it keeps by itself and by
/// the frames before it. Which streams were opened, and what a payload says, is for others.
///
/// A reader that refused once answers the same fault to every later call.
#[derive(Drop)]
pub struct FrameReader {
    context: Context,
    place: u64,
    head: Vec<u8>,
    stage: Stage,
}

impl Model for FrameReader {
    ghost use Rattle.std.specs.Prelude.{◌≤◌, length, vec_capacity};
    ghost use Rattle.h2_frames.specs.FrameWords.{context_of, left_in, fault_in, IsHeadOf};
    ghost use Rattle.h2_frames.specs.FrameReader.{Kept};

    ghost Value = { Kept };

    ghost view = { λ r. record {
      context = context_of r.context;
      place = r.place;
      head = r.head.items;
      left = left_in r.stage;
      fault = fault_in r.stage;
    } };

    ghost invariant = { λ r. (length r.head.items ≤ 10) × (10 ≤ vec_capacity r.head) × IsHeadOf r.stage r.head.items };
}

impl FrameReader {
    /// A reader to which no byte came. It keeps room for ten bytes, and takes no other memory.
    pub fn new(alloc: Global) -> Result<FrameReader, NoMemory>
        ensures stands { IfOk result (λ reader. Stands reader no_bytes) }
        ensures fault { IfOk result (λ reader. reader.fault ≡ None) }
        ensures between { IfOk result (λ reader. (has_begun reader ≡ false) × (reader.left ≡ 0)) }
    {
        let head = Vec::with_capacity(alloc, 10)?;
        Ok(FrameReader {
            context: Context::First,
            place: 0,
            head,
            stage: Stage::Head,
        })
    }

    /// The offset of the first byte of the frame that is read or was refused, and between frames of
    /// the next one, in all bytes that were read. It stands still at the last value of `u64`.
    pub fn place(&self) -> u64
        ensures { result ≡ self.now.place }
    {
        self.place
    }

    /// Takes bytes of a head, which has less than nine.
    fn take_head(&mut self, bytes: &[u8]) -> Result<FrameFed, H2Fault>
        requires fault { self.old.fault ≡ None }
        requires left { self.old.left ≡ 0 }
        requires head { length self.old.head < 9 }
        ensures { IsHeadStep self.old bytes.now result self.new }
    {
        let most = 9 - self.head.len();
        match take_in(self.context, &mut self.head, most, bytes) {
            Err(code) => Err(refuse(&mut self.stage, self.place, code)),
            Ok(taken) => {
                if self.head.len() < 9 {
                    self.stage = Stage::Head;
                    return Ok(FrameFed { taken, part: None });
                }
                self.stage = Stage::Payload(length_with(0, self.head.as_slice()) as usize);
                Ok(FrameFed {
                    taken,
                    part: Some(begin(self.head.as_slice())),
                })
            }
        }
    }

    /// Takes the first bytes of a payload, of which so many are to come.
    fn take_first(&mut self, left: usize, bytes: &[u8]) -> Result<FrameFed, H2Fault>
        requires fault { self.old.fault ≡ None }
        requires head { length self.old.head ≡ 9 }
        requires is { left ≡ self.old.left }
        requires left { 0 < self.old.left }
        requires some { 0 < length bytes.now }
        ensures { IsPayloadStep self.old bytes.now result self.new }
    {
        let most = left.min(10 - self.head.len());
        match take_in(self.context, &mut self.head, most, bytes) {
            Err(code) => Err(refuse(&mut self.stage, self.place, code)),
            Ok(_) => {
                let taken = left.min(bytes.len());
                self.stage = Stage::Payload(left - taken);
                Ok(FrameFed {
                    taken,
                    part: Some(Part::Piece(taken)),
                })
            }
        }
    }

    /// Takes further bytes of a payload, of which so many are to come.
    fn take_payload(&mut self, left: usize, bytes: &[u8]) -> Result<FrameFed, H2Fault>
        requires fault { self.old.fault ≡ None }
        requires head { 10 ≤ length self.old.head }
        requires is { left ≡ self.old.left }
        requires left { 0 < self.old.left }
        requires some { 0 < length bytes.now }
        ensures { IsPayloadStep self.old bytes.now result self.new }
    {
        let taken = left.min(bytes.len());
        self.stage = Stage::Payload(left - taken);
        Ok(FrameFed {
            taken,
            part: Some(Part::Piece(taken)),
        })
    }

    /// Takes bytes of a payload, of which so many are to come.
    fn take_more(&mut self, left: usize, bytes: &[u8]) -> Result<FrameFed, H2Fault>
        requires fault { self.old.fault ≡ None }
        requires head { 9 ≤ length self.old.head }
        requires is { left ≡ self.old.left }
        requires left { 0 < self.old.left }
        ensures { IsMoreStep self.old bytes.now result self.new }
    {
        if bytes.is_empty() {
            return Ok(FrameFed {
                taken: 0,
                part: None,
            });
        }
        if self.head.len() == 9 {
            return self.take_first(left, bytes);
        }
        self.take_payload(left, bytes)
    }

    /// Ends a frame.
    fn finish(&mut self) -> Result<FrameFed, H2Fault>
        requires fault { self.old.fault ≡ None }
        requires head { 9 ≤ length self.old.head }
        requires left { self.old.left ≡ 0 }
        ensures { IsLastStep self.old result self.new }
    {
        let size = length_with(0, self.head.as_slice());
        self.context = after(self.context, self.head.as_slice());
        self.place = self.place.saturating_add(9 + size as u64);
        self.head.clear();
        self.stage = Stage::Head;
        Ok(FrameFed {
            taken: 0,
            part: Some(Part::Done),
        })
    }

    /// Takes bytes until a part is known or all are taken. It takes no memory. After a refusal it
    /// answers the same to every call.
    pub fn feed(&mut self, bytes: &[u8]) -> Result<FrameFed, H2Fault>
        // Whatever bytes it stood for, it stands for them and these.
        ensures stands { (p : Position) → Stands self.old p
            → Stands self.new (position_after result p bytes.now) }
        // The part, or the first fault of all bytes that came.
        ensures answers { (p : Position) → Stands self.old p → result ≡ answer_of p bytes.now }
        ensures frames { (p : Position) → Stands self.old p
            → IfOk result (λ fed. fed.part ≡ Some Part.Done
            → frames_of (bytes_read p) ≡ frames_of p.before ++ frame_of p.seen ∷ []) }

        // What a caller knows without these bytes.
        ensures within { IfOk result (λ fed. fed.taken ≤ length bytes.now) }
        ensures part { IfOk result (λ fed. IsPart fed.taken fed.part) }
        // By what it keeps: how much is taken, which part is told, what is kept then, what is left
        // of the payload, and the rules that the part tells to be kept.
        ensures follows { IfOk result (λ fed. Follows self.old bytes.now fed self.new) }
        // Or the rule that the bytes kept of the frame break with these.
        ensures refuses { IfErr result (λ f. self.old.fault ≡ None
            → IsRefused self.old bytes.now f) }
        ensures progress { IfOk result (λ fed. 0 < length bytes.now
            → work_left self.new (length bytes.now - fed.taken)
            < work_left self.old (length bytes.now)) }

        // The same fault ever after.
        ensures sticky { IfSome self.old.fault (λ f. (result ≡ Err f) × (self.new ≡ self.old)) }
        ensures refused { IfErr result (λ f. self.new.fault ≡ Some f) }
        ensures offset { OnErr result (self.new.place ≡ self.old.place) }
        ensures accepted { OnOk result (self.new.fault ≡ None) }
    {
        match self.stage {
            Stage::Refused(fault) => Err(fault),
            Stage::Head => self.take_head(bytes),
            Stage::Payload(0) => self.finish(),
            Stage::Payload(left) => self.take_more(left, bytes),
        }
    }
}
