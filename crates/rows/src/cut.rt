//! Streams in pieces.
ghost use Rattle.std.specs.Prelude.{◌≤◌};

use std::alloc::Global;
use std::io;

/// How many bytes a stream has at most that is cut at every byte.
const MOST_CUT: usize = 256;

/// How a stream is cut: a first piece of so many bytes, and pieces of a size behind it.
#[derive(Clone, Copy, Debug)]
pub struct Cut {
    /// How many bytes the first piece has.
    pub first: usize,
    /// How many bytes each further piece has; the last one may have less.
    pub size: usize,
}

impl Cut {
    /// The length of the next piece of what is left of a stream, at least 1 where a byte is left. Pieces
    /// behind it have the size of further ones.
    pub fn next_piece(&mut self, left: usize) -> usize
        ensures { result ≤ left }
    {
        let size = self.first;
        self.first = self.size.max(1);
        size.min(left)
    }
}

/// What is told of bytes that may come in any pieces.
pub trait Stream {
    /// What is told of the bytes in the pieces of a cut.
    fn told(&self, alloc: Global, bytes: &[u8], cut: Cut) -> io::Result<String>;
}

/// What is told of a stream in one piece.
fn told_whole<S: Stream>(alloc: Global, stream: &S, bytes: &[u8]) -> io::Result<String> {
    let len = bytes.len();
    let cut = Cut {
        first: len,
        size: len,
    };
    stream.told(alloc, bytes, cut)
}

/// What is told of a whole stream where the cut changes nothing, and else that it does.
fn told_alike<S: Stream>(
    alloc: Global,
    stream: &S,
    bytes: &[u8],
    whole: String,
    cut: Cut,
) -> io::Result<String> {
    let told = stream.told(alloc, bytes, cut)?;
    if told.as_str() == whole.as_str() {
        return Ok(whole);
    }
    let (first, size) = (cut.first, cut.size);
    Ok(format!(in alloc; "cut differs: {told} for {first}, {size}, else {whole}")?)
}

/// What is told of a stream, which must be the same whole, in pieces of each size, and in two pieces cut
/// before each byte and behind the last. A long stream is tried in pieces of some sizes alone.
pub fn told_however_cut<S: Stream>(alloc: Global, stream: &S, bytes: &[u8]) -> io::Result<String> {
    let len = bytes.len();
    if len > MOST_CUT {
        return told_in_sizes(alloc, stream, bytes, &[1, 2, 3, 5, 7, 16, 61, 1_024]);
    }
    let mut told = told_whole(alloc, stream, bytes)?;
    for size in 1..=len {
        let cut = Cut { first: size, size };
        told = told_alike(alloc, stream, bytes, told, cut)?;
    }
    for first in 0..=len {
        let cut = Cut { first, size: len };
        told = told_alike(alloc, stream, bytes, told, cut)?;
    }
    Ok(told)
}

/// What is told of a stream, which must be the same whole and in pieces of each of these sizes.
pub fn told_in_sizes<S: Stream>(
    alloc: Global,
    stream: &S,
    bytes: &[u8],
    sizes: &[usize],
) -> io::Result<String> {
    let mut told = told_whole(alloc, stream, bytes)?;
    for size in sizes {
        let cut = Cut {
            first: *size,
            size: *size,
        };
        told = told_alike(alloc, stream, bytes, told, cut)?;
    }
    Ok(told)
}
