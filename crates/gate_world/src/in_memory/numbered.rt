//! Calls that are counted, so that some of them can be made to fail.
ghost use Rattle.std.specs.Prelude.{◌≡◌, ◌≤◌, ◌+◌};
ghost use Rattle.base.specs.Saturated.{saturated};
ghost use Rattle.gate_world.specs.NumberedCalls.{IsOneCall, IsUncalled, is_listed};
ghost use Rattle.gate_world.specs.Causes.{Rose};

use base::List;

/// The calls so far, the numbers of those that fail, counted from 0, and how many failed.
#[derive(Debug, Drop)]
pub(crate) struct Numbered {
    calls: u64,
    fails: List<u64>,
    faults: u64,
}

impl Numbered {
    /// No call so far.
    pub(crate) fn new(fails: List<u64>) -> Numbered
        ensures { IsUncalled result fails }
    {
        Numbered {
            calls: 0,
            fails,
            faults: 0,
        }
    }

    /// Counts a call; true where its number is one of those that fail.
    pub(crate) fn is_next_failing(&mut self) -> bool
        ensures listed { result ≡ is_listed self.old }
        ensures counted { IsOneCall self.old self.new }
        ensures faults { self.new.faults ≡ self.old.faults }
    {
        let call = self.calls;
        self.calls = call.saturating_add(1);
        self.fails.as_slice().contains(&call)
    }

    /// Counts a fault.
    pub(crate) fn fail(&mut self)
        ensures faults { self.new.faults ≡ saturated (self.old.faults + 1) }
        ensures later { self.old.faults ≤ self.new.faults }
        ensures rose { Rose self.old.faults self.new.faults }
        ensures calls { (self.new.calls ≡ self.old.calls) × (self.new.fails ≡ self.old.fails) }
    {
        self.faults = self.faults.saturating_add(1);
    }
}
