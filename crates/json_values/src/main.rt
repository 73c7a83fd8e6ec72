//! Prints the texts that values have in JSON, and the values that texts of JSON mean (the ProtoJSON guide), over the
//! types of a descriptor set.
//!
//! The first line of the input is a descriptor set, as a word of bytes. Each line behind it is answered by one:
//!
//! - `show N BYTES`: the text of what the bytes are as a message of the input type of the set's N-th bound method,
//!   counted from 0;
//! - `part N FIELD BYTES`: the text of its field with this number;
//! - `read N TEXT`: the canonical bytes, in hexadecimal, of the message of that type that the text means;
//! - `read_part N FIELD TEXT`: those of the message with the one field of this number, whose value the text means.
//!
//! A value without a text is answered by the name of the fault, bytes that are no message by what is wrong with them,
//! and a text that means no value by the name of its first fault and the place of that.
//! Lines that are empty or begin with `#` are left out. A set that is not served is answered by `no set` alone.
#![tactic(auto)]

mod reading;
mod served;
mod showing;
mod telling;

use rows::bytes_of;
use served::served;
use std::io::{self, BufRead, BufReader, BufWriter, Write};
use telling::tell_lines;

fn main(rt: HostRuntime) -> io::Result<()> {
    let alloc = rt.alloc();
    let mut out = BufWriter::new(alloc, io::writer(&rt))?;
    let mut input = BufReader::new(alloc, rt.reader())?;
    let mut first = String::new(alloc);
    input.read_line(&mut first)?;
    match served(alloc, bytes_of(alloc, first.trim_end())?.as_slice()) {
        Some(api) => tell_lines(alloc, &api, input, &mut out)?,
        None => out.write_all(b"no set\n")?,
    }
    out.flush()
}
