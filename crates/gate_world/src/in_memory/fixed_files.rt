//! Files in memory.
ghost use Rattle.std.specs.Prelude.{◌≡◌, ◌≢◌, ◌↔◌, Some, None, IfSome, IsTrue};
ghost use Rattle.std.specs.Option.{option_copied};
ghost use Rattle.gate_world.specs.Causes.{HasCause};
ghost use Rattle.gate_world.specs.FixedOutside.{file_in, reads_nothing};
ghost use Rattle.gate_world.specs.NumberedCalls.{IsOneCall, IsUncalled, faults_after};
ghost use Rattle.gate_world.specs.Sources.{ReadsWithin, ReadsAt};

use crate::files::Files;
use crate::in_memory::numbered::Numbered;
use crate::source::Read;
use base::{Blob, List, Text};

/// A file in memory.
#[derive(Debug, Drop)]
pub struct NamedBytes {
    /// The path.
    pub name: Text,
    /// The contents.
    pub bytes: Blob,
}

/// Files in memory. Only the calls whose numbers it was given fail, and those at a path that it
/// lacks. Of two files with one path the first is read.
#[derive(Debug, Drop)]
pub struct FixedFiles {
    files: List<NamedBytes>,
    calls: Numbered,
}

impl FixedFiles {
    /// These files; `fails` has the numbers of the calls that fail, counted from 0.
    pub fn new(files: List<NamedBytes>, fails: List<u64>) -> FixedFiles
        ensures told { ⟦<FixedFiles as Files>⟧.contents result ≡ Some (file_in files) }
        ensures calls { IsUncalled result.calls fails }
    {
        FixedFiles {
            files,
            calls: Numbered::new(fails),
        }
    }
}

/// The bytes of the first file with a path.
fn file_at<'a>(files: &'a [NamedBytes], path: &str) -> Option<&'a Blob>
    ensures { option_copied result ≡ file_in files.now path.now }
{
    for file in files {
        if file.name.as_str() == path {
            return Some(&file.bytes);
        }
    }
    None
}

/// Reads bytes from an offset on.
fn read_from(bytes: &[u8], from: u64, into: &mut [u8]) -> Read
    ensures bound { ReadsWithin result into.new }
    ensures bytes { ReadsAt bytes.now from result into.new }
    ensures works { result ≢ Read.Failed }
{
    if from >= bytes.len() as u64 {
        return Read::End;
    }
    let from = from as usize;
    let n = into.len().min(bytes.len() - from);
    into[..n].copy_from_slice(&bytes[from..from + n]);
    Read::Bytes(n)
}

impl Files for FixedFiles {
    ghost contents = { λ s. Some (file_in s.files) };

    ghost faults = { λ s. s.calls.faults };

    fn read(&mut self, path: &str, from: u64, into: &mut [u8]) -> Read
        // What the trait says.
        ensures bound { ReadsWithin result into.new }
        ensures bytes { IfSome (file_in self.old.files path.now) (λ file. ReadsAt file from result into.new) }
        ensures missing { file_in self.old.files path.now ≡ None → result ≡ Read.Failed }
        ensures same { self.new.files ≡ self.old.files }
        ensures cause { HasCause self.old.calls.faults self.new.calls.faults (result ≡ Read.Failed) }
        // It fails exactly where the call's number is listed, or there is no such file.
        ensures failed { (result ≡ Read.Failed) ↔ IsTrue (reads_nothing self.old path.now) }
        ensures counted { IsOneCall self.old.calls self.new.calls }
        ensures faulted { self.new.calls.faults ≡ faults_after self.old.calls.faults (reads_nothing self.old path.now) }
    {
        if self.calls.is_next_failing() {
            self.calls.fail();
            return Read::Failed;
        }
        match file_at(self.files.as_slice(), path) {
            Some(bytes) => read_from(bytes.as_slice(), from, into),
            None => {
                self.calls.fail();
                Read::Failed
            }
        }
    }
}
