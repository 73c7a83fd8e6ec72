//! Bytes that come in.
ghost use Rattle.std.specs.Prelude.{◌≡◌, ℕ, List, Option};
ghost use Rattle.gate_world.specs.Causes.{HasCause};
ghost use Rattle.gate_world.specs.Sources.{ReadsWithin, TakesTold};

/// What a read answers.
#[derive(Debug, Clone, Copy, PartialEq, Eq)]
pub enum Read {
    /// So many bytes were put at the front of the piece: at least one, unless the piece is empty.
    Bytes(usize),
    /// Nothing is left.
    End,
    /// The read failed, and its count of faults rose.
    Failed,
}

/// A stream of bytes that is read once, from front to back.
pub trait Source {
    /// What is left to read, where it is told.
    ghost left: { Self → Option (List ℕ) };

    /// How many reads failed; a count that stands at the last value of u64 counts as risen.
    ghost faults: { Self → ℕ };

    /// Reads bytes into the front of the piece.
    fn read(&mut self, into: &mut [u8]) -> Read
        ensures bound { ReadsWithin result into.new }
        ensures bytes { TakesTold (left self.old) (left self.new) result into.new }
        ensures cause { HasCause (faults self.old) (faults self.new) (result ≡ Read.Failed) };
}
