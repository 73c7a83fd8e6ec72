//! Length-prefixed messages of gRPC.

use base::Blob;
use grpc_frames::{Deframer, FrameFault, deframe_all, frame};
use rows::{Cut, Row, Stream, kept, shown, told_however_cut};
use std::alloc::Global;
use std::io;

/// A word for a fault, and its numbers.
fn fault_text(alloc: Global, fault: FrameFault) -> io::Result<String> {
    match fault {
        FrameFault::Compressed(at) => Ok(format!(in alloc; "compressed {at}")?),
        FrameFault::BadFlag(at) => Ok(format!(in alloc; "bad_flag {at}")?),
        FrameFault::TooLong(at, size) => Ok(format!(in alloc; "too_long {at} {size}")?),
        FrameFault::Cut(at) => Ok(format!(in alloc; "cut {at}")?),
        FrameFault::NoMemory => Ok(String::from_str(alloc, "no_memory")?),
    }
}

/// A stream in the pieces of a cut.
fn pieces_of(alloc: Global, bytes: &[u8], cut: Cut) -> io::Result<Vec<Blob>> {
    let mut cut = cut;
    let mut pieces = Vec::new(alloc);
    let mut rest = bytes;
    for _ in 0..bytes.len().saturating_add(2) {
        let (piece, behind) = rest.split_at(cut.next_piece(rest.len()));
        rest = behind;
        pieces.push(kept(Blob::copy_of(alloc, piece))?)?;
    }
    Ok(pieces)
}

/// A stream whose messages are told, and how it ends.
#[derive(Drop)]
struct Messages {
    limit: u32,
}

impl Stream for Messages {
    fn told(&self, alloc: Global, bytes: &[u8], cut: Cut) -> io::Result<String> {
        let pieces = pieces_of(alloc, bytes, cut)?;
        let mut out = String::new(alloc);
        match deframe_all(alloc, self.limit, pieces.as_slice()) {
            Err(fault) => return fault_text(alloc, fault),
            Ok(messages) => {
                for message in messages.as_slice() {
                    out.push_str(shown(alloc, message.as_slice())?.as_str())?;
                    out.push(' ')?;
                }
            }
        }
        out.push_str("end")?;
        Ok(out)
    }
}

/// The messages of a stream, which must be the same in any pieces.
pub(crate) fn however_cut(alloc: Global, row: &mut Row) -> io::Result<String> {
    let limit = row.number_u32()?;
    let bytes = row.bytes(alloc)?;
    told_however_cut(alloc, &Messages { limit }, bytes.as_slice())
}

/// A stream whose first fault is told.
#[derive(Drop)]
struct Refusals {
    limit: u32,
}

/// The first fault of a piece.
fn fault_of(deframer: &mut Deframer, piece: &[u8]) -> Option<FrameFault> {
    let mut rest = piece;
    for _ in 0..piece.len().saturating_add(1) {
        match deframer.feed(rest) {
            Err(fault) => return Some(fault),
            Ok(fed) => {
                rest = rest.get(fed.taken..).unwrap_or(b"");
                if fed.message.is_none() {
                    return None;
                }
            }
        }
    }
    None
}

impl Stream for Refusals {
    fn told(&self, alloc: Global, bytes: &[u8], cut: Cut) -> io::Result<String> {
        let pieces = pieces_of(alloc, bytes, cut)?;
        let mut deframer = Deframer::new(alloc, self.limit);
        let mut seen = None;
        for piece in pieces.as_slice() {
            let fault = fault_of(&mut deframer, piece.as_slice());
            if seen.is_some() && fault != seen {
                return Ok(String::from_str(alloc, "another fault")?);
            }
            seen = fault;
        }
        let Some(fault) = seen else {
            return Ok(String::from_str(alloc, "none")?);
        };
        let later = fault_of(&mut deframer, &[0, 0, 0, 0, 0]);
        if later != seen || deframer.end() != Err(fault) {
            return Ok(String::from_str(alloc, "another fault")?);
        }
        fault_text(alloc, fault)
    }
}

/// The first fault of a stream, which must be the same in any pieces, at a later call, and at the end.
pub(crate) fn refused(alloc: Global, row: &mut Row) -> io::Result<String> {
    let limit = row.number_u32()?;
    let bytes = row.bytes(alloc)?;
    told_however_cut(alloc, &Refusals { limit }, bytes.as_slice())
}

/// What one call of a deframer answers: how many bytes were taken, and the message.
fn feed_text(alloc: Global, deframer: &mut Deframer, bytes: &[u8]) -> io::Result<String> {
    match deframer.feed(bytes) {
        Err(fault) => fault_text(alloc, fault),
        Ok(fed) => {
            let taken = fed.taken;
            match &fed.message {
                None => Ok(format!(in alloc; "{taken} none")?),
                Some(message) => {
                    let message = shown(alloc, message.as_slice())?;
                    Ok(format!(in alloc; "{taken} {message}")?)
                }
            }
        }
    }
}

/// What a deframer answers to the calls that the words say.
pub(crate) fn fed(alloc: Global, row: &mut Row) -> io::Result<String> {
    let mut deframer = Deframer::new(alloc, row.number_u32()?);
    let mut out = String::new(alloc);
    for _ in 0..64 {
        if row.is_empty() {
            break;
        }
        if !out.is_empty() {
            out.push_str("; ")?;
        }
        if row.word() == "feed" {
            let bytes = row.bytes(alloc)?;
            out.push_str(feed_text(alloc, &mut deframer, bytes.as_slice())?.as_str())?;
        } else {
            match deframer.end() {
                Ok(()) => out.push_str("end")?,
                Err(fault) => out.push_str(fault_text(alloc, fault)?.as_str())?,
            }
        }
    }
    Ok(out)
}

/// The messages of the words, framed behind the bytes of the first word: what stands there afterwards.
pub(crate) fn framed(alloc: Global, row: &mut Row) -> io::Result<String> {
    let mut out = row.bytes(alloc)?;
    for _ in 0..64 {
        if row.is_empty() {
            break;
        }
        let message = row.bytes(alloc)?;
        if message.len() < 0x1_0000_0000 {
            kept(frame(message.as_slice(), &mut out))?;
        }
    }
    shown(alloc, out.as_slice())
}

/// A fault as it is printed.
pub(crate) fn printed(alloc: Global, row: &mut Row) -> io::Result<String> {
    let fault = match row.word() {
        "compressed" => FrameFault::Compressed(row.number()?),
        "bad_flag" => FrameFault::BadFlag(row.number()?),
        "too_long" => FrameFault::TooLong(row.number()?, row.number_u32()?),
        "cut" => FrameFault::Cut(row.number()?),
        _ => FrameFault::NoMemory,
    };
    Ok(format!(in alloc; "{fault}")?)
}
