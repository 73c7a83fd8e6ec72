//! Answers rows on statuses: the tables between codes, the JSON bodies of errors, and grpc-message.
//!
//! `http CODE`, `code STATUS`, `reset ERROR`; `read BYTES` and `put BYTES` of a message, and
//! `error CODE BYTES`, each behind a byte that stays.
#![tactic(auto)]

use rows::{Answers, Row, answer_rows, behind_front, front, kept, shown};
use status_map::{code_of_http, code_of_reset, http_of, put_error, put_message, read_message};
use std::alloc::Global;
use std::io;

/// Answers each row by itself.
#[derive(Drop)]
struct StatusRows;

/// The HTTP status of a code.
fn http(alloc: Global, row: &mut Row) -> io::Result<String> {
    let status = http_of(row.number_u8()?);
    Ok(format!(in alloc; "{status}")?)
}

/// The code of an HTTP status.
fn code(alloc: Global, row: &mut Row) -> io::Result<String> {
    let code = code_of_http(row.number_u16()?);
    Ok(format!(in alloc; "{code}")?)
}

/// The code of an HTTP/2 error code.
fn reset(alloc: Global, row: &mut Row) -> io::Result<String> {
    let code = code_of_reset(row.number_u32()?);
    Ok(format!(in alloc; "{code}")?)
}

/// The message that a value of grpc-message stands for.
fn read(alloc: Global, row: &mut Row) -> io::Result<String> {
    let value = row.bytes(alloc)?;
    let message = kept(read_message(alloc, value.as_slice()))?;
    shown(alloc, message.as_slice())
}

/// The value of grpc-message for a text.
fn put(alloc: Global, row: &mut Row) -> io::Result<String> {
    let mut out = front(alloc)?;
    let text = row.bytes(alloc)?;
    kept(put_message(&mut out, text.as_slice()))?;
    behind_front(alloc, out.as_slice())
}

/// The JSON body of an error.
fn error(alloc: Global, row: &mut Row) -> io::Result<String> {
    let mut out = front(alloc)?;
    let code = row.number_u8()?;
    let text = row.bytes(alloc)?;
    kept(put_error(&mut out, code, text.as_slice()))?;
    behind_front(alloc, out.as_slice())
}

impl Answers for StatusRows {
    fn answer(&mut self, alloc: Global, row: &mut Row) -> io::Result<String> {
        match row.word() {
            "http" => http(alloc, row),
            "code" => code(alloc, row),
            "reset" => reset(alloc, row),
            "read" => read(alloc, row),
            "put" => put(alloc, row),
            "error" => error(alloc, row),
            _ => Err(io::Error::from(io::ErrorKind::InvalidData)),
        }
    }
}

fn main(rt: HostRuntime) -> io::Result<()> {
    answer_rows(rt.alloc(), rt.reader(), io::writer(&rt), &mut StatusRows)
}
