//! Bytes that go out.
ghost use Rattle.std.specs.Prelude.{◌≡◌, ℕ, List, Option};
ghost use Rattle.gate_world.specs.Causes.{HasCause};
ghost use Rattle.gate_world.specs.Sinks.{WritesWithin, AddsTold};

/// What a write answers.
#[derive(Debug, Clone, Copy, PartialEq, Eq)]
pub enum Wrote {
    /// So many bytes of the piece were taken: at least one, unless the piece is empty.
    Taken(usize),
    /// The write failed, and its count of faults rose.
    Failed,
}

/// A stream of bytes that is written once, from front to back.
pub trait Sink {
    /// What was written, where it is told.
    ghost written: { Self → Option (List ℕ) };

    /// How many writes failed; a count that stands at the last value of u64 counts as risen.
    ghost faults: { Self → ℕ };

    /// Writes bytes from the front of the piece.
    fn write(&mut self, from: &[u8]) -> Wrote
        ensures bound { WritesWithin result from.now }
        ensures bytes { AddsTold (written self.old) (written self.new) result from.now }
        ensures cause { HasCause (faults self.old) (faults self.new) (result ≡ Wrote.Failed) };
}
