//! The files of the system.
ghost use Rattle.std.specs.Prelude.{◌≤◌, length, IfOk};

use gateway_run::{Files, Read};
use std::io::{self, Seek, SeekFrom};
use std::{fs, rt};

/// Reads bytes of a file from an offset on.
fn read_at<R: rt::Files>(rt: &R, path: &str, from: u64, into: &mut [u8]) -> io::Result<usize>
    ensures { IfOk result (λ n. n ≤ length into.new) }
{
    let mut file = fs::open(rt, path)?;
    file.seek(SeekFrom::Start(from))?;
    io::Read::read(&mut file, into)
}

/// The files of the system, of whose bytes nothing is told.
#[derive(Drop)]
pub(crate) struct StdFiles<'a, R> {
    rt: &'a R,
    faults: u64,
}

impl<'a, R> StdFiles<'a, R> {
    /// No read failed so far.
    pub(crate) fn new(rt: &'a R) -> StdFiles<'a, R> {
        StdFiles { rt, faults: 0 }
    }
}

impl<'a, R: rt::Files> Files for StdFiles<'a, R> {
    ghost use Rattle.std.specs.Prelude.{None};

    ghost contents = { λ _. None };

    ghost faults = { λ s. s.faults };

    fn read(&mut self, path: &str, from: u64, into: &mut [u8]) -> Read {
        match read_at(self.rt, path, from, into) {
            Ok(n) => {
                if n == 0 && !into.is_empty() {
                    return Read::End;
                }
                Read::Bytes(n)
            }
            Err(_) => {
                self.faults = self.faults.saturating_add(1);
                Read::Failed
            }
        }
    }
}
