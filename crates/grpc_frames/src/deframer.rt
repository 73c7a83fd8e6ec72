//! Taking messages from a stream that comes in any pieces.
ghost use Rattle.std.specs.Prelude.{◌≡◌, ◌≢◌, ◌++◌, ◌+◌, ◌<◌, ◌≤◌, ◌-◌, ◌↔◌, ℕ, List, [], length, drop, min, take, IfOk, IfErr, IfSome, IsOk, IsSome, OnOk, OnErr};
ghost use Rattle.grpc_frames.specs.LengthPrefixed.{front, Incomplete};
ghost use Rattle.base.specs.Saturated.{saturated};
ghost use Rattle.grpc_frames.specs.Deframer.{Stands, buffered_bytes, IsNoCut};
ghost use Rattle.grpc_frames.specs.DeframerSteps.{IsProgress, IsStep};
ghost use Rattle.grpc_frames.specs.FeedAnswers.{fed_bytes, Answers, EndsBetweenMessages, IsEndFault};

use crate::fault::FrameFault;
use crate::prefix::{PREFIX_BYTES, PrefixFault, PrefixSeen, read_prefix};
use base::{Blob, NoMemory};
use std::alloc::Global;
use std::marker::Model;
use std::mem;

/// What one call of `Deframer::feed` took and gave.
#[derive(Debug, Drop)]
pub struct Deframed {
    /// How many bytes were taken.
    pub taken: usize,
    /// The message that became whole with the last of them.
    pub message: Option<Blob>,
}

/// What came of more bytes.
#[derive(Clone, Copy)]
enum Progress {
    /// All were taken, and the message is not whole.
    Incomplete,
    /// What is wrong with the message.
    Faulty(PrefixFault),
    /// So many were taken, and the message is whole.
    Complete(usize),
}

/// Takes messages from a stream of bytes that comes in any pieces. After a refusal it answers the
/// same to every later call. It keeps the bytes of one message that is not whole, its flag and its
/// length.
#[derive(Debug, Drop)]
pub struct Deframer {
    alloc: Global,
    limit: u32,
    place: u64,
    rest: Vec<u8>,
    refused: Option<FrameFault>,
}

impl Model for Deframer {
    ghost use Rattle.std.specs.Prelude.{◌≡◌, ◌≤◌, ◌+◌, length};
    ghost use Rattle.std.specs.Option.{IfNone};
    ghost use Rattle.grpc_frames.specs.LengthPrefixed.{front, Incomplete};
    ghost use Rattle.std.specs.Option.{IfSome};
    ghost use Rattle.grpc_frames.specs.Deframer.{DeframerState, IsNoCut};

    ghost Value = { DeframerState };

    ghost view = { λ d. record {
      limit = d.limit;
      place = d.place;
      rest = d.rest.items;
      refused = d.refused;
    } };

    ghost invariant = { λ d. (IfNone d.refused (front d.limit d.rest.items ≡ Incomplete))
        × (length d.rest.items ≤ d.limit + 5) × IfSome d.refused IsNoCut };
}

impl Deframer {
    /// A deframer at the start of a stream, which refuses a message of more bytes than the limit.
    /// Takes no memory.
    pub fn new(alloc: Global, limit: u32) -> Deframer
        ensures stands { Stands result [] }
        ensures limit { result.limit ≡ limit }
        ensures fresh { result.refused ≡ None }
    {
        Deframer {
            alloc,
            limit,
            place: 0,
            rest: Vec::new(alloc),
            refused: None,
        }
    }

    /// Takes bytes until a message is whole or all are taken. A refusal is the first fault of the
    /// stream, and comes with the first byte that shows it.
    pub fn feed(&mut self, bytes: &[u8]) -> Result<Deframed, FrameFault>
        ensures stands { (r : List ℕ) → Stands self.old r → Stands self.new (r ++ fed_bytes result bytes.now) }
        ensures answers { (r : List ℕ) → Stands self.old r → Answers self.old.limit r bytes.now result }
        ensures within { IfOk result (λ d. d.taken ≤ length bytes.now) }
        ensures moves { IfOk result (λ d. IsSome d.message → 0 < d.taken) }
        ensures limit { self.new.limit ≡ self.old.limit }
        ensures sticky { IfSome self.old.refused (λ f. (result ≡ Err f) × (self.new ≡ self.old)) }
        ensures refused { IfErr result (λ f. self.new.refused ≡ Some f) }
        ensures accepted { OnOk result (self.new.refused ≡ None) }
        ensures open { IfErr result IsNoCut }
        ensures bounded { buffered_bytes self.new ≤ self.new.limit + 5 }
    {
        match self.refused {
            Some(fault) => Err(fault),
            None => self.step(bytes),
        }
    }

    /// Whether a stream that ends here ends between two messages. Nothing changes by it: after a
    /// `Cut` further bytes may be fed. Takes no memory.
    pub fn end(&self) -> Result<(), FrameFault>
        ensures between { IsOk result ↔ ((self.now.refused ≡ None) × (self.now.rest ≡ [])) }
        ensures ok { OnOk result ((r : List ℕ) → Stands self.now r → EndsBetweenMessages self.now.limit r) }
        ensures err { IfErr result (λ f. (r : List ℕ) → Stands self.now r → IsEndFault self.now.limit r f) }
        ensures sticky { IfSome self.now.refused (λ f. result ≡ Err f) }
        ensures cut { (place : ℕ) → (result ≡ Err (FrameFault.Cut place))
            ↔ ((self.now.refused ≡ None) × (self.now.rest ≢ []) × (place ≡ self.now.place)) }
        ensures memory { result ≡ Err FrameFault.NoMemory → self.now.refused ≡ Some FrameFault.NoMemory }
    {
        match self.refused {
            Some(fault) => Err(fault),
            None => {
                if self.rest.is_empty() {
                    Ok(())
                } else {
                    Err(FrameFault::Cut(self.place))
                }
            }
        }
    }

    /// The same as `feed`, where nothing was refused.
    fn step(&mut self, bytes: &[u8]) -> Result<Deframed, FrameFault>
        requires { self.old.refused ≡ None }
        ensures step { IsStep self.old bytes.now result self.new }
        ensures within { IfOk result (λ d. d.taken ≤ length bytes.now) }
        ensures moves { IfOk result (λ d. IsSome d.message → 0 < d.taken) }
        ensures open { IfErr result IsNoCut }
        ensures bounded { buffered_bytes self.new ≤ self.new.limit + 5 }
    {
        match take_in(self.limit, &mut self.rest, bytes) {
            Err(_) => {
                self.refused = Some(FrameFault::NoMemory);
                Err(FrameFault::NoMemory)
            }
            Ok(Progress::Incomplete) => Ok(Deframed {
                taken: bytes.len(),
                message: None,
            }),
            Ok(Progress::Faulty(fault)) => {
                let refused = fault.at(self.place);
                self.refused = Some(refused);
                Err(refused)
            }
            Ok(Progress::Complete(taken)) => {
                let message = take_message(self.alloc, &mut self.rest);
                self.place = place_behind(self.place, message.len());
                Ok(Deframed {
                    taken,
                    message: Some(message),
                })
            }
        }
    }
}

/// Takes bytes up to a length.
fn fill(kept: &mut Vec<u8>, upto: usize, bytes: &[u8]) -> Result<usize, NoMemory>
    ensures taken { IfOk result (λ n. n ≡ min (upto - length kept.old.items) (length bytes.now)) }
    ensures kept { IfOk result (λ n. kept.new.items ≡ kept.old.items ++ take n bytes.now) }
    ensures err { OnErr result (kept.new.items ≡ kept.old.items) }
{
    let n = bytes.len().min(upto.saturating_sub(kept.len()));
    kept.extend_from_slice(&bytes[..n])?;
    Ok(n)
}

/// Takes bytes until the message is whole.
fn take_in(limit: u32, kept: &mut Vec<u8>, bytes: &[u8]) -> Result<Progress, NoMemory>
    requires front { front limit kept.old.items ≡ Incomplete }
    requires bounded { length kept.old.items ≤ limit + 5 }
    ensures progress { IfOk result (λ p. IsProgress limit kept.old.items bytes.now p kept.new.items) }
    ensures bounded { length kept.new.items ≤ limit + 5 }
{
    let n = fill(kept, PREFIX_BYTES, bytes)?;
    match read_prefix(limit, kept) {
        PrefixSeen::Open => Ok(Progress::Incomplete),
        PrefixSeen::Faulty(fault) => Ok(Progress::Faulty(fault)),
        PrefixSeen::Sized(size) => {
            let upto = PREFIX_BYTES + size as usize;
            let m = fill(kept, upto, &bytes[n..])?;
            if kept.len() < upto {
                Ok(Progress::Incomplete)
            } else {
                Ok(Progress::Complete(n + m))
            }
        }
    }
}

/// Takes out the message behind its prefix. Takes no memory.
fn take_message(alloc: Global, kept: &mut Vec<u8>) -> Blob
    requires { 5 ≤ length kept.old.items }
    ensures message { result ≡ drop 5 kept.old.items }
    ensures rest { kept.new.items ≡ [] }
{
    kept.drain(..PREFIX_BYTES);
    Blob::from_vec(mem::replace(kept, Vec::new(alloc)))
}

/// The place of the flag behind a message.
fn place_behind(place: u64, size: usize) -> u64
    ensures { result ≡ saturated (place + 5 + size) }
{
    place
        .saturating_add(PREFIX_BYTES as u64)
        .saturating_add(size as u64)
}
