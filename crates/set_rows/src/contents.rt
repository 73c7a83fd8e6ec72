//! What is read of a set.

use crate::messages::{put_enums, put_fields, put_messages};
use crate::pieces::{or_dash, set_bytes};
use crate::services::put_services;
use descriptor_set::{FileInfo, FileSet, SetFault, read_set};
use std::alloc::Global;
use std::io;

/// Why a set is not read.
pub(crate) fn fault_answer(alloc: Global, fault: SetFault) -> io::Result<String> {
    match fault {
        SetFault::Wire(fault) => {
            let (kind, place) = (fault.kind, fault.place);
            Ok(format!(in alloc; "Wire at {place} {kind:?}")?)
        }
        SetFault::NotUtf8(place) => Ok(format!(in alloc; "NotUtf8 at {place}")?),
        SetFault::TooLong => Ok(String::from_str(alloc, "TooLong")?),
        SetFault::NoMemory => Ok(String::from_str(alloc, "no memory")?),
    }
}

/// Whether a set is read, or why it is not.
pub(crate) fn read_answer(alloc: Global, word: &str) -> io::Result<String> {
    match read_set(alloc, set_bytes(alloc, word)?.as_slice()) {
        Ok(_) => Ok(String::from_str(alloc, "read")?),
        Err(fault) => fault_answer(alloc, fault),
    }
}

/// Appends a file's own names, and how much is in it.
fn put_file(alloc: Global, out: &mut String, file: &FileInfo) -> io::Result<()> {
    for name in [&file.name, &file.package, &file.syntax] {
        out.push_str(or_dash(name.as_str()))?;
        out.push_str(" ")?;
    }
    let (edition, messages, extensions) = (
        file.edition,
        file.message_type.len(),
        file.extension.len(),
    );
    let rest = format!(in alloc; "{edition} {messages} messages {extensions} extensions")?;
    Ok(out.push_str(rest.as_str())?)
}

/// Appends what a command asks of a file.
fn put_told(alloc: Global, out: &mut String, command: &str, file: &FileInfo) -> io::Result<()> {
    match command {
        "files" => put_file(alloc, out, file),
        "messages" => {
            put_messages(alloc, out, file.message_type.as_slice())?;
            put_enums(alloc, out, file.enum_type.as_slice())
        }
        "fields" => put_fields(alloc, out, file.message_type.as_slice()),
        "services" => put_services(alloc, out, file.service.as_slice()),
        _ => Ok(out.push_str("no command")?),
    }
}

/// What a command asks of each file of a set.
fn told(alloc: Global, command: &str, set: &FileSet) -> io::Result<String> {
    let mut out = String::new(alloc);
    for file in set.files.as_slice() {
        out.push_str("file ")?;
        put_told(alloc, &mut out, command, file)?;
        out.push_str(";")?;
    }
    Ok(out)
}

/// What a command asks of the set that a word is.
pub(crate) fn told_set(alloc: Global, command: &str, word: &str) -> io::Result<String> {
    match read_set(alloc, set_bytes(alloc, word)?.as_slice()) {
        Ok(set) => told(alloc, command, &set),
        Err(fault) => fault_answer(alloc, fault),
    }
}
