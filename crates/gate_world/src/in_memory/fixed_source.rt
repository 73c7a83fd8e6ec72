//! A source in memory.
ghost use Rattle.std.specs.Prelude.{◌≡◌, Some};
ghost use Rattle.gate_world.specs.NumberedCalls.{IsUncalled};

use crate::in_memory::numbered::Numbered;
use crate::source::{Read, Source};
use base::{Blob, List};

/// Bytes in memory. Only the calls whose numbers it was given fail.
#[derive(Debug, Drop)]
pub struct FixedSource {
    bytes: Blob,
    at: usize,
    calls: Numbered,
}

impl FixedSource {
    /// A source of these bytes; `fails` has the numbers of the calls that fail, counted from 0.
    pub fn new(bytes: Blob, fails: List<u64>) -> FixedSource
        ensures told { ⟦<FixedSource as Source>⟧.left result ≡ Some bytes }
        ensures calls { IsUncalled result.calls fails }
    {
        FixedSource {
            bytes,
            at: 0,
            calls: Numbered::new(fails),
        }
    }
}

impl Source for FixedSource {
    ghost use Rattle.std.specs.Prelude.{◌≡◌, ◌↔◌, Some, IsTrue, drop};
    ghost use Rattle.gate_world.specs.Causes.{HasCause};
    ghost use Rattle.gate_world.specs.NumberedCalls.{IsOneCall, faults_after, is_listed};
    ghost use Rattle.gate_world.specs.Sources.{ReadsWithin, Takes};

    ghost left = { λ s. Some (drop s.at s.bytes) };

    ghost faults = { λ s. s.calls.faults };

    fn read(&mut self, into: &mut [u8]) -> Read
        // What the trait says.
        ensures bound { ReadsWithin result into.new }
        ensures bytes { Takes (drop self.old.at self.old.bytes) (drop self.new.at self.new.bytes) result into.new }
        ensures cause { HasCause self.old.calls.faults self.new.calls.faults (result ≡ Read.Failed) }
        // It fails exactly where the call's number is listed.
        ensures failed { (result ≡ Read.Failed) ↔ IsTrue (is_listed self.old.calls) }
        ensures counted { IsOneCall self.old.calls self.new.calls }
        ensures faulted { self.new.calls.faults ≡ faults_after self.old.calls.faults (is_listed self.old.calls) }
    {
        if self.calls.is_next_failing() {
            self.calls.fail();
            return Read::Failed;
        }
        let bytes = self.bytes.as_slice();
        if self.at >= bytes.len() {
            return Read::End;
        }
        let n = into.len().min(bytes.len() - self.at);
        into[..n].copy_from_slice(&bytes[self.at..self.at + n]);
        self.at += n;
        Read::Bytes(n)
    }
}
