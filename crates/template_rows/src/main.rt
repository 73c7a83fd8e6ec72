//! Answers rows about path templates (google/api/http.proto, path template syntax).
//!
//! After the label a row has a command. `read TEXT` prints a template again, or where its fault is;
//! `fault TEXT` prints the fault's text; `route ONE OTHER` tells whether two templates are one route;
//! `capture TEXT INDEX TAKEN` decodes what a variable takes; `parts TEXT` prints the number of segments, each
//! variable with its range, and the verb.
#![tactic(auto)]

mod commands;

use commands::{put_capture, put_fault_text, put_parts, put_printed, put_route};
use rows::{Answers, Row, answer_rows};
use std::alloc::Global;
use std::io;

/// What answers rows.
#[derive(Drop)]
struct Templates;

impl Answers for Templates {
    fn answer(&mut self, alloc: Global, row: &mut Row) -> io::Result<String> {
        let command = row.word();
        let text = row.bytes(alloc)?;
        let text = std::str::from_utf8(text.as_slice()).unwrap_or("not UTF-8");
        let mut out = String::new(alloc);
        match command {
            "read" => put_printed(alloc, &mut out, text)?,
            "fault" => put_fault_text(alloc, &mut out, text)?,
            "route" => put_route(alloc, &mut out, text, row)?,
            "capture" => put_capture(alloc, &mut out, text, row)?,
            "parts" => put_parts(alloc, &mut out, text)?,
            _ => out.push_str("no command")?,
        }
        Ok(out)
    }
}

fn main(rt: HostRuntime) -> io::Result<()> {
    answer_rows(rt.alloc(), rt.reader(), io::writer(&rt), &mut Templates)
}
