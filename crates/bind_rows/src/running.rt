//! One run over files and streams in memory.

use base::{Blob, List, NoMemory, Text};
use gateway_run::{
    FixedFiles, FixedSink, FixedSource, NamedBytes, NoFields, Read, Source, Status, run_offline,
};
use rows::{Row, kept};
use std::alloc::Global;
use std::io;

/// A list of the number that a word is, or of none.
fn fails(alloc: Global, word: &str) -> Result<List<u64>, NoMemory> {
    let mut list = List::new(alloc);
    if let Ok(number) = word.parse() {
        list.push(number)?;
    }
    Ok(list)
}

/// The words that a row still has, each a word of bytes.
fn words_of(alloc: Global, row: &mut Row) -> io::Result<Vec<String>> {
    let mut words = Vec::new(alloc);
    let rest = row.rest();
    for word in rest.split(' ') {
        if !word.is_empty() {
            let bytes = rows::bytes_of(alloc, word)?;
            let text = std::str::from_utf8(bytes.as_slice()).unwrap_or("not UTF-8");
            words.push(String::from_str(alloc, text)?)?;
        }
    }
    Ok(words)
}

/// The one file `items.bin`.
fn one_file(alloc: Global, bytes: Vec<u8>) -> Result<FixedFiles, NoMemory> {
    let mut named = List::new(alloc);
    named.push(NamedBytes {
        name: Text::copy_of(alloc, "items.bin")?,
        bytes: Blob::from_vec(bytes),
    })?;
    Ok(FixedFiles::new(named, List::new(alloc)))
}

/// How many bytes of an input are left, which are read to its end.
fn left_of(input: &mut FixedSource) -> usize {
    let mut piece = [0u8; 4096];
    let mut left = 0usize;
    for _ in 0..u32::MAX {
        match input.read(&mut piece) {
            Read::Bytes(n) => left = left.saturating_add(n),
            Read::End => return left,
            Read::Failed => {}
        }
    }
    left
}

/// The status, what was written, and how many bytes of the input are left.
fn told(
    alloc: Global,
    status: Status,
    out: &FixedSink,
    err: &FixedSink,
    left: usize,
) -> io::Result<String> {
    let out = std::str::from_utf8(out.bytes()).unwrap_or("not UTF-8");
    let err = std::str::from_utf8(err.bytes()).unwrap_or("not UTF-8");
    Ok(format!(in alloc; "{} {out:?} {err:?} {left}", status.number())?)
}

/// What a run of the words of a row told.
pub(crate) fn ran(alloc: Global, room: usize, failing: &str, row: &mut Row) -> io::Result<String> {
    let mut files = kept(one_file(alloc, row.bytes(alloc)?))?;
    let body = Blob::from_vec(row.bytes(alloc)?);
    let mut input = FixedSource::new(body, kept(fails(alloc, row.word()))?);
    let words = words_of(alloc, row)?;
    let mut out = kept(FixedSink::new(alloc, room, kept(fails(alloc, failing))?))?;
    let mut err = kept(FixedSink::new(alloc, 256, List::new(alloc)))?;
    let status = run_offline(
        alloc,
        words.as_slice(),
        &mut files,
        &mut input,
        &mut out,
        &mut err,
        NoFields,
    );
    told(alloc, status, &out, &err, left_of(&mut input))
}
