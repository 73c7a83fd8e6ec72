//! The standard streams.
ghost use Rattle.std.specs.Prelude.{◌≤◌, length, IfOk};

use gateway_run::{Read, Sink, Source, Wrote};
use std::io::{self, Stderr, Stdout, Write};

/// A reader, of whose bytes nothing is told.
#[derive(Drop)]
pub(crate) struct StdSource<I> {
    reader: I,
    faults: u64,
}

impl<I> StdSource<I> {
    /// No read failed so far.
    pub(crate) fn new(reader: I) -> StdSource<I> {
        StdSource { reader, faults: 0 }
    }
}

impl<I: io::Read> Source for StdSource<I> {
    ghost use Rattle.std.specs.Prelude.{None};

    ghost left = { λ _. None };

    ghost faults = { λ s. s.faults };

    fn read(&mut self, into: &mut [u8]) -> Read {
        match self.reader.read(into) {
            Ok(n) => {
                if n == 0 && !into.is_empty() {
                    return Read::End;
                }
                Read::Bytes(n)
            }
            Err(_) => {
                self.faults = self.faults.saturating_add(1);
                Read::Failed
            }
        }
    }
}

/// Standard output or standard error.
#[derive(Drop)]
pub(crate) enum Stream {
    /// Standard output.
    Out(Stdout),
    /// Standard error.
    Err(Stderr),
}

/// A standard stream, of whose bytes nothing is told.
#[derive(Drop)]
pub(crate) struct StdSink {
    stream: Stream,
    faults: u64,
}

impl StdSink {
    /// No write failed so far.
    pub(crate) fn new(stream: Stream) -> StdSink {
        StdSink { stream, faults: 0 }
    }
}

/// Writes bytes from the front of the piece.
fn write_piece(stream: &mut Stream, from: &[u8]) -> io::Result<usize>
    ensures { IfOk result (λ n. n ≤ length from.now) }
{
    match stream {
        Stream::Out(out) => out.write(from),
        Stream::Err(err) => err.write(from),
    }
}

impl Sink for StdSink {
    ghost use Rattle.std.specs.Prelude.{None};

    ghost written = { λ _. None };

    ghost faults = { λ s. s.faults };

    fn write(&mut self, from: &[u8]) -> Wrote {
        match write_piece(&mut self.stream, from) {
            Ok(n) => {
                if n == 0 && !from.is_empty() {
                    self.faults = self.faults.saturating_add(1);
                    return Wrote::Failed;
                }
                Wrote::Taken(n)
            }
            Err(_) => {
                self.faults = self.faults.saturating_add(1);
                Wrote::Failed
            }
        }
    }
}
