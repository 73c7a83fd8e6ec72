//! Answers rows about descriptor sets (descriptor.proto, google/api/http.proto).
//!
//! After the label a row has a command and, for most, a set: a word of bytes, in which a part `N#DIGITS` is
//! the digits' bytes N times, each time with its number in four decimal digits behind it.
//!
//! - `read` prints `read` or the first fault; `files`, `messages`, `fields` and `services` what is read.
//! - `link` prints `ok` or the first fault of linking; `shapes` all types, methods and bindings that are linked.
//! - `kinds`, `set_faults`, `link_fault NAME SECOND` and `no_memory` print texts.
//!
//! The rows are made by scripts/link_sets.py.
#![tactic(auto)]

mod bindings;
mod contents;
mod linked;
mod messages;
mod pieces;
mod services;
mod texts;
mod types;

use contents::{read_answer, told_set};
use linked::{link_answer, shape_answer};
use rows::{Answers, Row, answer_rows};
use std::alloc::Global;
use std::io;
use texts::{kind_answer, link_fault_answer, no_memory_answer, set_fault_answer};

/// What answers rows.
#[derive(Drop)]
struct Sets;

impl Answers for Sets {
    fn answer(&mut self, alloc: Global, row: &mut Row) -> io::Result<String> {
        match row.word() {
            "read" => read_answer(alloc, row.word()),
            "link" => link_answer(alloc, row.word()),
            "shapes" => shape_answer(alloc, row.word()),
            "kinds" => kind_answer(alloc),
            "set_faults" => set_fault_answer(alloc),
            "link_fault" => link_fault_answer(alloc, row.word(), row.word()),
            "no_memory" => no_memory_answer(alloc),
            command => told_set(alloc, command, row.word()),
        }
    }
}

fn main(rt: HostRuntime) -> io::Result<()> {
    answer_rows(rt.alloc(), rt.reader(), io::writer(&rt), &mut Sets)
}
