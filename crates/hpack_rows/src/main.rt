//! Answers rows on header blocks.
//!
//! `blocks BYTES ..` decodes blocks in turn and gives the fields of each or its fault, `count BYTES ..` gives how
//! many there are, and `table BYTES ..` the fields with the lengths of their values, and then the names of the
//! fields that the dynamic table has, the newest first. `evicted_behind LENGTH` and `evicted_before LENGTH` give
//! how many of the fields with values of a length each size of the table keeps, where the size is set before the
//! fields come, and after. `encoded first|later NAME VALUE ..` writes a block behind a byte that stays, and
//! `read_back NAME VALUE ..` reads what is written, three times. `printed FAULT` prints a fault.
#![tactic(auto)]

mod decoded;
mod encoded;
mod evicted;
mod table;

use decoded::Told;
use rows::{Answers, Row, answer_rows};
use std::alloc::Global;
use std::io;

/// Answers each row by itself.
#[derive(Drop)]
struct HpackRows;

impl Answers for HpackRows {
    fn answer(&mut self, alloc: Global, row: &mut Row) -> io::Result<String> {
        match row.word() {
            "blocks" => decoded::blocks(alloc, row, Told::Fields),
            "count" => decoded::blocks(alloc, row, Told::Count),
            "table" => table::of_blocks(alloc, row),
            "evicted_behind" => evicted::behind_size(alloc, row),
            "evicted_before" => evicted::before_size(alloc, row),
            "encoded" => encoded::block(alloc, row),
            "read_back" => encoded::read_back(alloc, row),
            "printed" => decoded::printed(alloc, row),
            _ => Err(io::Error::from(io::ErrorKind::InvalidData)),
        }
    }
}

fn main(rt: HostRuntime) -> io::Result<()> {
    answer_rows(rt.alloc(), rt.reader(), io::writer(&rt), &mut HpackRows)
}
