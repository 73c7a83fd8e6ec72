//! Answers rows on the texts of durations and of instants.
//!
//! `duration BYTES` and `timestamp BYTES` are answered with the seconds and the billionths that the text says, or with
//! what is wrong with it. `show_duration SECONDS NANOS` and `show_timestamp SECONDS NANOS` are answered with the text
//! that is written behind a byte that stays, or with `Unprintable`.
#![tactic(auto)]

use rows::{Answers, Row, answer_rows, behind_front, front};
use std::alloc::Global;
use std::io;
use time_texts::{
    Moment, ShowFault, TimeFault, read_duration, read_timestamp, show_duration, show_timestamp,
};

/// Answers each row by itself.
#[derive(Drop)]
struct TimeRows;

/// The integer of 64 bits that the next word is.
fn number_i64(row: &mut Row) -> io::Result<i64> {
    match row.word().parse() {
        Ok(number) => Ok(number),
        Err(_) => Err(io::Error::from(io::ErrorKind::InvalidData)),
    }
}

/// The integer of 32 bits that the next word is.
fn number_i32(row: &mut Row) -> io::Result<i32> {
    match row.word().parse() {
        Ok(number) => Ok(number),
        Err(_) => Err(io::Error::from(io::ErrorKind::InvalidData)),
    }
}

/// The seconds and the billionths of the next two words.
fn moment(row: &mut Row) -> io::Result<Moment> {
    let seconds = number_i64(row)?;
    let nanos = number_i32(row)?;
    Ok(Moment { seconds, nanos })
}

/// What was read of a text.
fn read(alloc: Global, answer: Result<Moment, TimeFault>) -> io::Result<String> {
    match answer {
        Ok(Moment { seconds, nanos }) => Ok(format!(in alloc; "{seconds} {nanos}")?),
        Err(TimeFault::BadText) => Ok(String::from_str(alloc, "BadText")?),
        Err(TimeFault::OutOfRange) => Ok(String::from_str(alloc, "OutOfRange")?),
    }
}

/// What was written behind the front; where nothing was, the front alone must stand.
fn written(alloc: Global, out: &[u8], done: Result<(), ShowFault>) -> io::Result<String> {
    match done {
        Ok(()) => behind_front(alloc, out),
        Err(ShowFault::Unprintable) => match out.len() {
            1 => Ok(String::from_str(alloc, "Unprintable")?),
            _ => Ok(String::from_str(alloc, "Unprintable, and more was written")?),
        },
        Err(ShowFault::NoMemory) => Err(io::Error::from(io::ErrorKind::OutOfMemory)),
    }
}

/// The duration that the next word says.
fn duration(alloc: Global, row: &mut Row) -> io::Result<String> {
    let text = row.bytes(alloc)?;
    read(alloc, read_duration(text.as_slice()))
}

/// The instant that the next word says.
fn timestamp(alloc: Global, row: &mut Row) -> io::Result<String> {
    let text = row.bytes(alloc)?;
    read(alloc, read_timestamp(text.as_slice()))
}

/// The text of a duration.
fn duration_shown(alloc: Global, row: &mut Row) -> io::Result<String> {
    let mut out = front(alloc)?;
    let done = show_duration(moment(row)?, &mut out);
    written(alloc, out.as_slice(), done)
}

/// The text of an instant.
fn timestamp_shown(alloc: Global, row: &mut Row) -> io::Result<String> {
    let mut out = front(alloc)?;
    let done = show_timestamp(moment(row)?, &mut out);
    written(alloc, out.as_slice(), done)
}

impl Answers for TimeRows {
    fn answer(&mut self, alloc: Global, row: &mut Row) -> io::Result<String> {
        match row.word() {
            "duration" => duration(alloc, row),
            "timestamp" => timestamp(alloc, row),
            "show_duration" => duration_shown(alloc, row),
            "show_timestamp" => timestamp_shown(alloc, row),
            _ => Err(io::Error::from(io::ErrorKind::InvalidData)),
        }
    }
}

fn main(rt: HostRuntime) -> io::Result<()> {
    answer_rows(rt.alloc(), rt.reader(), io::writer(&rt), &mut TimeRows)
}
