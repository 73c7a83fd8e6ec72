//! A whole stream, in whatever pieces it comes.
ghost use Rattle.std.specs.Prelude.{◌≡◌, ◌++◌, List, ℕ, [], IfOk, IfErr, OnOk, None};
ghost use Rattle.std.specs.List.{concat};
ghost use Rattle.grpc_frames.specs.LengthPrefixed.{deframed_of};
ghost use Rattle.grpc_frames.specs.Deframer.{Stands};
ghost use Rattle.grpc_frames.specs.FeedAnswers.{IsEndFault};

use crate::deframer::Deframer;
use crate::fault::FrameFault;
use base::{Blob, List};
use std::alloc::Global;

/// The messages of a stream that comes in these pieces and ends with the last, or the first fault of
/// the stream. The cuts between the pieces change neither.
pub fn deframe_all(alloc: Global, limit: u32, pieces: &[Blob]) -> Result<List<Blob>, FrameFault>
    ensures messages { IfOk result (λ out.
        deframed_of limit (concat pieces.now) ≡ record { messages = out; rest = []; error = None }) }
    ensures fault { IfErr result (λ f. IsEndFault limit (concat pieces.now) f) }
{
    let mut deframer = Deframer::new(alloc, limit);
    let mut out = List::new(alloc);
    for piece in pieces {
        feed_all(&mut deframer, piece.as_slice(), &mut out)?;
    }
    deframer.end()?;
    Ok(out)
}

/// Gives a whole piece, and adds the messages that become whole with it.
fn feed_all(deframer: &mut Deframer, piece: &[u8], out: &mut List<Blob>) -> Result<(), FrameFault>
    ensures limit { deframer.new.limit ≡ deframer.old.limit }
    ensures ok { OnOk result ((r : List ℕ) → Stands deframer.old r
        → (deframed_of deframer.old.limit r).messages ≡ out.old
        → Stands deframer.new (r ++ piece.now)
        × ((deframed_of deframer.old.limit (r ++ piece.now)).messages ≡ out.new)) }
    ensures err { IfErr result (λ f. (r more : List ℕ) → Stands deframer.old r
        → IsEndFault deframer.old.limit (r ++ (piece.now ++ more)) f) }
{
    let mut rest = piece;
    'feeding: loop {
        let fed = deframer.feed(rest)?;
        let taken = fed.taken;
        match fed.message {
            None => return Ok(()),
            Some(message) => {
                out.push(message)?;
                rest = &rest[taken..];
            }
        }
    }
}
