//! Answers rows on frames of HTTP/2 and on gRPC's length-prefixed messages.
//!
//! `fault BYTES` and `frames BYTES` of a stream of frames in any pieces, `frames_in SIZES BYTES` in pieces of
//! these sizes, `put TYPE FLAGS STREAM PAYLOAD` for a frame that is written; `messages LIMIT BYTES` and
//! `refused LIMIT BYTES` of a stream of messages in any pieces, `deframer LIMIT ..` with `feed BYTES` and `end`,
//! `framed FRONT MESSAGE ..` for messages that are written, and `printed FAULT ..`.
#![tactic(auto)]

mod frames;
mod messages;

use rows::{Answers, Row, answer_rows};
use std::alloc::Global;
use std::io;

/// Answers each row by itself.
#[derive(Drop)]
struct FrameRows;

impl Answers for FrameRows {
    fn answer(&mut self, alloc: Global, row: &mut Row) -> io::Result<String> {
        match row.word() {
            "fault" => frames::fault(alloc, row),
            "frames" => frames::however_cut(alloc, row),
            "frames_in" => frames::in_sizes(alloc, row),
            "put" => frames::put(alloc, row),
            "messages" => messages::however_cut(alloc, row),
            "refused" => messages::refused(alloc, row),
            "deframer" => messages::fed(alloc, row),
            "framed" => messages::framed(alloc, row),
            "printed" => messages::printed(alloc, row),
            _ => Err(io::Error::from(io::ErrorKind::InvalidData)),
        }
    }
}

fn main(rt: HostRuntime) -> io::Result<()> {
    answer_rows(rt.alloc(), rt.reader(), io::writer(&rt), &mut FrameRows)
}
