//! A byte that stands before what a call appends, so that a row shows that it stays.

use crate::bytes::shown;
use std::alloc::Global;
use std::io;

/// The byte.
const FRONT: u8 = b'x';

/// The byte alone, to append to.
pub fn front(alloc: Global) -> io::Result<Vec<u8>> {
    let mut out = Vec::new(alloc);
    out.push(FRONT)?;
    Ok(out)
}

/// What stands behind it, or that it is lost.
pub fn behind_front(alloc: Global, out: &[u8]) -> io::Result<String> {
    match out.split_first() {
        Some((&FRONT, written)) => shown(alloc, written),
        _ => Ok(String::from_str(alloc, "the front is lost")?),
    }
}
