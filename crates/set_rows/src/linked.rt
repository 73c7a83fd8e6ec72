//! What a set is linked to.

use crate::bindings::put_bindings;
use crate::contents::fault_answer;
use crate::pieces::set_bytes;
use crate::types::put_types;
use descriptor_set::{FileSet, read_set};
use schema_link::{Api, link};
use std::alloc::Global;
use std::io;

/// The first fault of linking, or `ok`.
fn link_word(alloc: Global, set: &FileSet) -> io::Result<String> {
    match link(alloc, set) {
        Ok(_) => Ok(String::from_str(alloc, "ok")?),
        Err(fault) => Ok(format!(in alloc; "{fault}")?),
    }
}

/// The first fault of the set that a word is, or `ok`.
pub(crate) fn link_answer(alloc: Global, word: &str) -> io::Result<String> {
    match read_set(alloc, set_bytes(alloc, word)?.as_slice()) {
        Ok(set) => link_word(alloc, &set),
        Err(fault) => fault_answer(alloc, fault),
    }
}

/// All types, methods and bindings of an API.
fn told_api(alloc: Global, api: &Api) -> io::Result<String> {
    let mut out = String::new(alloc);
    put_types(alloc, &mut out, &api.types)?;
    put_bindings(alloc, &mut out, api)?;
    Ok(out)
}

/// What the set that a word is is linked to.
pub(crate) fn shape_answer(alloc: Global, word: &str) -> io::Result<String> {
    match read_set(alloc, set_bytes(alloc, word)?.as_slice()) {
        Ok(set) => match link(alloc, &set) {
            Ok(api) => told_api(alloc, &api),
            Err(fault) => Ok(format!(in alloc; "{fault}")?),
        },
        Err(fault) => fault_answer(alloc, fault),
    }
}
