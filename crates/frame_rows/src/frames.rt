//! Frames of HTTP/2.

use h2_frames::{FrameReader, H2Fault, Part, put_frame};
use rows::{Cut, Row, Stream, kept, shown, told_however_cut, told_in_sizes};
use std::alloc::Global;
use std::io;

/// What was told so far: the frames that have ended, the frame that has begun, and the first fault.
#[derive(Drop)]
struct Told {
    frames: String,
    head: String,
    length: u32,
    payload: Vec<u8>,
    fault: Option<H2Fault>,
}

impl Told {
    fn new(alloc: Global) -> Told {
        Told {
            frames: String::new(alloc),
            head: String::new(alloc),
            length: 0,
            payload: Vec::new(alloc),
            fault: None,
        }
    }

    /// Ends the frame that has begun: its type, flags and stream, and its payload.
    fn end_frame(&mut self, alloc: Global) -> io::Result<()> {
        let payload = shown(alloc, self.payload.as_slice())?;
        self.frames.push_str(self.head.as_str())?;
        self.frames.push_str(payload.as_str())?;
        if self.payload.len() != self.length as usize {
            self.frames.push_str(" of another length")?;
        }
        self.frames.push_str("; ")?;
        Ok(())
    }

    /// Counts a part, with the bytes that were taken for it.
    fn count(&mut self, alloc: Global, part: Part, taken: &[u8]) -> io::Result<()> {
        match part {
            Part::Begin {
                length,
                kind,
                flags,
                stream,
            } => {
                self.head = format!(in alloc; "{kind} {flags} {stream} ")?;
                self.length = length;
                self.payload.clear();
            }
            Part::Piece(n) => {
                let behind = taken.len().saturating_sub(n);
                self.payload
                    .extend_from_slice(taken.get(behind..).unwrap_or(b""))?;
            }
            Part::Done => self.end_frame(alloc)?,
        }
        Ok(())
    }

    /// Counts a fault. A second one must be the same.
    fn refuse(&mut self, fault: H2Fault) -> io::Result<()> {
        if let Some(first) = self.fault
            && first != fault
        {
            self.frames.push_str("another fault; ")?;
        }
        self.fault = Some(fault);
        Ok(())
    }

    /// The fault, or that there is none.
    fn end(&self, alloc: Global) -> io::Result<String> {
        match self.fault {
            None => Ok(String::from_str(alloc, "none")?),
            Some(fault) => {
                let (place, code) = (fault.place, fault.code);
                Ok(format!(in alloc; "error {code} at {place}")?)
            }
        }
    }
}

/// Gives a reader one piece, as often as it takes some of it.
fn feed_piece(
    alloc: Global,
    reader: &mut FrameReader,
    piece: &[u8],
    told: &mut Told,
) -> io::Result<()> {
    let mut rest = piece;
    for _ in 0..piece.len().saturating_mul(3).saturating_add(3) {
        match reader.feed(rest) {
            Err(fault) => return told.refuse(fault),
            Ok(fed) => {
                let (taken, behind) = rest.split_at(fed.taken);
                rest = behind;
                match fed.part {
                    None => return Ok(()),
                    Some(part) => told.count(alloc, part, taken)?,
                }
            }
        }
    }
    Ok(())
}

/// Gives all bytes to a new reader in pieces, also those behind a fault.
fn feed_all(alloc: Global, bytes: &[u8], cut: Cut) -> io::Result<Told> {
    let mut cut = cut;
    let mut reader = kept(FrameReader::new(alloc))?;
    let mut told = Told::new(alloc);
    let mut rest = bytes;
    for _ in 0..bytes.len().saturating_add(2) {
        let (piece, behind) = rest.split_at(cut.next_piece(rest.len()));
        rest = behind;
        feed_piece(alloc, &mut reader, piece, &mut told)?;
    }
    Ok(told)
}

/// A stream whose first fault is told.
#[derive(Drop)]
struct Faults;

impl Stream for Faults {
    fn told(&self, alloc: Global, bytes: &[u8], cut: Cut) -> io::Result<String> {
        feed_all(alloc, bytes, cut)?.end(alloc)
    }
}

/// A stream whose frames are told, and then its first fault.
#[derive(Drop)]
struct Frames;

impl Stream for Frames {
    fn told(&self, alloc: Global, bytes: &[u8], cut: Cut) -> io::Result<String> {
        let mut told = feed_all(alloc, bytes, cut)?;
        let fault = told.end(alloc)?;
        told.frames.push_str(fault.as_str())?;
        Ok(told.frames.clone()?)
    }
}

/// The first fault of a stream, which must be the same in any pieces.
pub(crate) fn fault(alloc: Global, row: &mut Row) -> io::Result<String> {
    let bytes = row.bytes(alloc)?;
    told_however_cut(alloc, &Faults, bytes.as_slice())
}

/// The frames of a stream, which must be the same in any pieces.
pub(crate) fn however_cut(alloc: Global, row: &mut Row) -> io::Result<String> {
    let bytes = row.bytes(alloc)?;
    told_however_cut(alloc, &Frames, bytes.as_slice())
}

/// The frames of a stream, which must be the same in pieces of these sizes.
pub(crate) fn in_sizes(alloc: Global, row: &mut Row) -> io::Result<String> {
    let mut sizes = Vec::new(alloc);
    for size in row.word().split(',') {
        sizes.push(size.parse().unwrap_or(1))?;
    }
    let bytes = row.bytes(alloc)?;
    told_in_sizes(alloc, &Frames, bytes.as_slice(), sizes.as_slice())
}

/// The head of a frame that is written, its payload, and how many bytes there are.
pub(crate) fn put(alloc: Global, row: &mut Row) -> io::Result<String> {
    let kind = row.number_u8()?;
    let flags = row.number_u8()?;
    let stream = row.number_u32()?;
    let payload = row.bytes(alloc)?;
    if stream >= 0x8000_0000 || payload.len() > 16_384 {
        return Err(io::Error::from(io::ErrorKind::InvalidData));
    }
    let mut frame = vec![in alloc; 0; 9 + payload.len()]?;
    let len = put_frame(
        kind,
        flags,
        stream,
        payload.as_slice(),
        frame.as_mut_slice(),
    );
    let (head, behind) = frame.as_slice().split_at(9.min(frame.len()));
    let head = hex::encode(alloc, head)?;
    let behind = shown(alloc, behind)?;
    Ok(format!(in alloc; "{head} {behind} {len}")?)
}
