//! A reader of a text that comes in any pieces.

ghost use Rattle.std.specs.Prelude.{◌≡◌, ◌+◌, ◌*◌, ◌<◌, ◌≤◌, [], length, None, Some, Err, IfOk, IfErr, IfSome, IsSome, OnOk};
ghost use Rattle.json_events.specs.declared.fault.JsonFault.TheVariants.{NoMemory as no_memory};
ghost use Rattle.json_events.specs.ReaderState.{Stands, KeepsNoMore};
ghost use Rattle.json_events.specs.ReaderAnswers.{pending_word, finish_token, IsNumberToken, GoesOn, FeedsOn, IsWholeWith, IsNotWhole, IsFeedFault};

use crate::fault::JsonFault;
use crate::progress::Progress;
use crate::token::{Fed, Spanned};
use std::alloc::Global;
use std::marker::Model;

/// Reads one text (RFC 8259, section 2), in whatever pieces it comes, and gives its tokens as they end.
/// A reader that refused once answers the same to every later call. It keeps the word that has begun
/// and one byte for each bracket that is open.
#[derive(Debug, Drop)]
pub struct Reader {
    progress: Progress,
    fault: Option<JsonFault>,
}

impl Model for Reader {
    ghost use Rattle.std.specs.Option.{IfNone};
    ghost use Rattle.json_events.specs.ReaderState.{ReaderState, IsReadable};
    ghost use Rattle.json_events.specs.ProgressSeen.{reading_of};

    ghost Value = { ReaderState };

    ghost view = { λ r. record { reading = reading_of r.progress; fault = r.fault } };

    ghost invariant = { λ r. IfNone r.fault (IsReadable (reading_of r.progress)) };
}

/// Keeps a fault, which is answered from then on.
fn refuse(kept: &mut Option<JsonFault>, fault: JsonFault) -> JsonFault
    ensures fault { result ≡ fault }
    ensures kept { kept.new ≡ Some fault }
{
    *kept = Some(fault);
    fault
}

impl Reader {
    /// A reader to which nothing came. Takes no memory.
    pub fn new(alloc: Global) -> Reader
        ensures stands { Stands result [] [] }
        ensures fresh { result.fault ≡ None }
        ensures idle { pending_word result.reading.word ≡ 0 }
        ensures bounded { KeepsNoMore result }
    {
        Reader {
            progress: Progress::new(alloc),
            fault: None,
        }
    }

    /// Takes bytes until a token has ended or all are taken. The byte that shows that a number has ended
    /// is not taken: the next call has to begin with it.
    pub fn feed(&mut self, bytes: &[u8]) -> Result<Fed, JsonFault>
        ensures stands { FeedsOn self.old self.new bytes.now result }
        ensures number { IfOk result (λ fed. IfSome fed.token (λ s. IsNumberToken s.token → fed.taken < length bytes.now)) }
        ensures fault { self.old.fault ≡ None → IfErr result (λ f. IsFeedFault f self.old bytes.now) }
        ensures within { IfOk result (λ fed. fed.taken ≤ length bytes.now) }
        ensures all { IfOk result (λ fed. fed.token ≡ None → fed.taken ≡ length bytes.now) }
        ensures moves { IfOk result (λ fed. IsSome fed.token → pending_word self.new.reading.word < 2 * fed.taken + pending_word self.old.reading.word) }
        ensures sticky { IfSome self.old.fault (λ f. (result ≡ Err f) × (self.new ≡ self.old)) }
        ensures refused { IfErr result (λ f. self.new.fault ≡ Some f) }
        ensures accepted { OnOk result (self.new.fault ≡ None) }
        ensures bounded { OnOk result (KeepsNoMore self.new) }
    {
        match self.fault {
            Some(fault) => Err(fault),
            None => match self.progress.read(bytes) {
                Ok(fed) => Ok(fed),
                Err(fault) => Err(refuse(&mut self.fault, fault)),
            },
        }
    }

    /// Says that nothing follows: gives the number that ends there, and then nothing, as often as it is
    /// called. Takes no memory.
    pub fn finish(&mut self) -> Result<Option<Spanned>, JsonFault>
        ensures stands { GoesOn self.old self.new [] (finish_token result) }
        ensures whole { IfOk result (λ token. IsWholeWith (Stands self.old) token) }
        ensures once { OnOk result (pending_word self.new.reading.word ≡ 0) }
        ensures none { pending_word self.old.reading.word ≡ 0 → IfOk result (λ token. token ≡ None) }
        ensures fault { self.old.fault ≡ None → IfErr result (λ f. IsNotWhole (Stands self.old) f) }
        ensures memory { IfErr result (λ f. f ≡ no_memory → self.old.fault ≡ Some f) }
        ensures sticky { IfSome self.old.fault (λ f. (result ≡ Err f) × (self.new ≡ self.old)) }
        ensures refused { IfErr result (λ f. self.new.fault ≡ Some f) }
        ensures accepted { OnOk result (self.new.fault ≡ None) }
        ensures bounded { OnOk result (KeepsNoMore self.new) }
    {
        match self.fault {
            Some(fault) => Err(fault),
            None => match self.progress.end() {
                Ok(token) => Ok(token),
                Err(fault) => Err(refuse(&mut self.fault, fault)),
            },
        }
    }
}
