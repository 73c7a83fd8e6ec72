//! Answers rows about `bind`, `check` and `routes`, over files and streams in memory.
//!
//! A row has a label, the room of the output in bytes, the number of the write that fails or `-` for none, the
//! bytes of the file `items.bin`, those of the input, the number of the read of the input that fails or `-` for none,
//! and the words of a command line as words of bytes. Its answer is the status, what was written to the output and to
//! the error stream, as they are debugged, and how many bytes of the input are left.
//!
//! The rows are made by scripts/sample_sets.py.
#![tactic(auto)]

mod running;

use rows::{Answers, Row, answer_rows};
use running::ran;
use std::alloc::Global;
use std::io;

/// What answers rows.
#[derive(Drop)]
struct Binds;

impl Answers for Binds {
    fn answer(&mut self, alloc: Global, row: &mut Row) -> io::Result<String> {
        let room = row.word().parse().unwrap_or(0);
        let failing = row.word();
        ran(alloc, room, failing, row)
    }
}

fn main(rt: HostRuntime) -> io::Result<()> {
    answer_rows(rt.alloc(), rt.reader(), io::writer(&rt), &mut Binds)
}
