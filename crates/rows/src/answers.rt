//! Programs that answer rows.

use crate::row::Row;
use std::alloc::Global;
use std::io::{self, BufRead, BufReader, BufWriter, Read, Write};

/// What answers rows, one after another.
pub trait Answers {
    /// The answer to a row, without its label.
    fn answer(&mut self, alloc: Global, row: &mut Row) -> io::Result<String>;
}

/// Writes the answer to each line of the input as a line that begins with the label. Lines that are empty
/// or begin with `#` are left out.
pub fn answer_rows<R: Read + Drop, W: Write + Drop, A: Answers>(
    alloc: Global,
    input: R,
    out: W,
    answers: &mut A,
) -> io::Result<()> {
    let mut out = BufWriter::new(alloc, out)?;
    for line in BufReader::new(alloc, input)?.lines(alloc) {
        let line = line?;
        if !line.is_empty() && !line.starts_with('#') {
            let mut row = Row::of(line.as_str());
            let answer = answers.answer(alloc, &mut row)?;
            let label = row.label();
            out.write_all(format!(in alloc; "{label} {answer}\n")?.as_bytes())?;
        }
    }
    out.flush()
}
