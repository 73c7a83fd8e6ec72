//! Answers rows on JSON texts: their tokens and faults, and the strings and numbers that are written.
//!
//! `tokens BYTES` in any pieces, `fronts BYTES` of each front, `offsets BYTES`, `again BYTES ..` for what is told
//! after a refusal, and `text BYTES ..` of a whole text in these pieces; `string BYTES`, `characters BYTES`, `u64 N`
//! and `i64 N` behind a byte that stays.
#![tactic(auto)]

mod tokens;
mod written;

use rows::{Answers, Row, answer_rows};
use std::alloc::Global;
use std::io;

/// Answers each row by itself.
#[derive(Drop)]
struct JsonRows;

impl Answers for JsonRows {
    fn answer(&mut self, alloc: Global, row: &mut Row) -> io::Result<String> {
        match row.word() {
            "tokens" => tokens::however_cut(alloc, row),
            "fronts" => tokens::of_fronts(alloc, row),
            "offsets" => tokens::with_offsets(alloc, row),
            "again" => tokens::again(alloc, row),
            "text" => tokens::whole(alloc, row),
            "string" => written::string(alloc, row),
            "characters" => written::characters(alloc, row),
            "u64" => written::unsigned(alloc, row),
            "i64" => written::signed(alloc, row),
            _ => Err(io::Error::from(io::ErrorKind::InvalidData)),
        }
    }
}

fn main(rt: HostRuntime) -> io::Result<()> {
    answer_rows(rt.alloc(), rt.reader(), io::writer(&rt), &mut JsonRows)
}
