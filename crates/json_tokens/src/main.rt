//! Reads texts from standard input, one a line in hexadecimal, and prints a line for each: the tokens that
//! the reader of JSON gives, and `end` or the fault. The n-th text comes in pieces of n bytes, up to 17.
#![tactic(auto)]

mod telling;

use std::io::{self, BufRead, BufReader, BufWriter, Write};
use telling::told;

fn main(rt: HostRuntime) -> io::Result<()> {
    let alloc = rt.alloc();
    let mut out = BufWriter::new(alloc, io::writer(&rt))?;
    let mut piece = 0;
    for line in BufReader::new(alloc, rt.reader())?.lines(alloc) {
        piece = piece % 17 + 1;
        out.write_all(told(alloc, line?.as_str(), piece)?.as_bytes())?;
        out.write_all(b"\n")?;
    }
    out.flush()
}
