//! Files, by their paths.
ghost use Rattle.std.specs.Prelude.{◌≡◌, ℕ, Option, IfSome};
ghost use Rattle.gate_world.specs.Causes.{HasCause};
ghost use Rattle.gate_world.specs.Sources.{ReadsWithin, ReadsAt};
ghost use Rattle.gate_world.specs.ToldFiles.{FileMap, IsMissing, told_file};

use crate::source::Read;

/// Files that can be read from any offset.
pub trait Files {
    /// What the file at each path has, where it is told: it is told of all paths or of none, so a path that
    /// it lacks is missing.
    ghost contents: { Self → Option FileMap };

    /// How many reads failed; a count that stands at the last value of u64 counts as risen.
    ghost faults: { Self → ℕ };

    /// Reads bytes of the file at the path, from an offset on, into the front of the piece. A file
    /// that is missing is `Failed`; `End` is at or past the file's end.
    fn read(&mut self, path: &str, from: u64, into: &mut [u8]) -> Read
        ensures bound { ReadsWithin result into.new }
        ensures bytes { IfSome (told_file (contents self.old) path.now) (λ file. ReadsAt file from result into.new) }
        ensures missing { IsMissing (contents self.old) path.now → result ≡ Read.Failed }
        ensures same { contents self.new ≡ contents self.old }
        ensures cause { HasCause (faults self.old) (faults self.new) (result ≡ Read.Failed) };
}
