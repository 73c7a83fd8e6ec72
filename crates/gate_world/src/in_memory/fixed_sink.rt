//! A sink in memory.
ghost use Rattle.std.specs.Prelude.{◌≡◌, ◌≤◌, [], Some, vec_len, vec_capacity, IfOk};
ghost use Rattle.gate_world.specs.NumberedCalls.{IsUncalled};

use crate::in_memory::numbered::Numbered;
use crate::sink::{Sink, Wrote};
use base::{List, NoMemory};
use std::alloc::Global;

/// Room in memory, reserved when it is made. A write takes as much as the rest of the room holds;
/// only the calls whose numbers it was given fail, and those of a piece that is not empty where no
/// room is left.
#[derive(Debug, Drop)]
pub struct FixedSink {
    taken: Vec<u8>,
    room: usize,
    calls: Numbered,
    ghost in_room: { vec_len taken ≤ room },
    ghost reserved: { room ≤ vec_capacity taken },
}

impl FixedSink {
    /// Room for so many bytes; `fails` has the numbers of the calls that fail, counted from 0.
    pub fn new(alloc: Global, room: usize, fails: List<u64>) -> Result<FixedSink, NoMemory>
        ensures told { IfOk result (λ s. ⟦<FixedSink as Sink>⟧.written s ≡ Some []) }
        ensures room { IfOk result (λ s. s.room ≡ room) }
        ensures calls { IfOk result (λ s. IsUncalled s.calls fails) }
    {
        Ok(FixedSink {
            taken: Vec::with_capacity(alloc, room)?,
            room,
            calls: Numbered::new(fails),
        })
    }

    /// What was taken.
    pub fn bytes(&self) -> &[u8]
        ensures { result.now ≡ self.now.taken.items }
    {
        self.taken.as_slice()
    }
}

impl Sink for FixedSink {
    ghost use Rattle.std.specs.Prelude.{◌≡◌, ◌↔◌, ℕ, Some, IsTrue};
    ghost use Rattle.gate_world.specs.Causes.{HasCause};
    ghost use Rattle.gate_world.specs.NumberedCalls.{IsOneCall, faults_after};
    ghost use Rattle.gate_world.specs.Sinks.{WritesWithin, written_after};
    ghost use Rattle.gate_world.specs.FixedRoom.{takes_nothing, taken_of};

    ghost written = { λ s. Some s.taken.items };

    ghost faults = { λ s. s.calls.faults };

    fn write(&mut self, from: &[u8]) -> Wrote
        // What the trait says.
        ensures bound { WritesWithin result from.now }
        ensures bytes { self.new.taken.items ≡ written_after result self.old.taken.items from.now }
        ensures cause { HasCause self.old.calls.faults self.new.calls.faults (result ≡ Wrote.Failed) }
        // It fails exactly where the call's number is listed, or no room is left for a piece that is not empty.
        ensures failed { (result ≡ Wrote.Failed) ↔ IsTrue (takes_nothing self.old from.now) }
        ensures taken { (n : ℕ) → result ≡ Wrote.Taken n → n ≡ taken_of self.old from.now }
        ensures counted { IsOneCall self.old.calls self.new.calls }
        ensures faulted { self.new.calls.faults ≡ faults_after self.old.calls.faults (takes_nothing self.old from.now) }
        ensures room { self.new.room ≡ self.old.room }
    {
        if self.calls.is_next_failing() {
            self.calls.fail();
            return Wrote::Failed;
        }
        let n = from.len().min(self.room - self.taken.len());
        if n == 0 && !from.is_empty() {
            self.calls.fail();
            return Wrote::Failed;
        }
        match self.taken.extend_from_slice(&from[..n]) {
            Ok(()) => Wrote::Taken(n),
            Err(_) => unreachable!(),
        }
    }
}
