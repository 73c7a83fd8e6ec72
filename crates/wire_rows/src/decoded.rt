//! Rows of bytes that are read.

use rows::{Row, kept};
use schema::{TypeId, Types, valid};
use std::alloc::Global;
use std::io;
use wire_format::{DecodeFault, Records, decode, encode, encoded_len};

/// Bytes in hexadecimal, or a dash for none.
pub(crate) fn digits_of(alloc: Global, bytes: &[u8]) -> io::Result<String> {
    if bytes.is_empty() {
        return Ok(String::from_str(alloc, "-")?);
    }
    Ok(hex::encode(alloc, bytes)?)
}

/// The wire type of each record with its end, and `end` or the fault.
pub(crate) fn record_answer(alloc: Global, bytes: &[u8]) -> io::Result<String> {
    let mut out = String::new(alloc);
    let mut records = Records::new(bytes);
    for _ in 0..bytes.len() {
        match records.next() {
            Some(Ok(record)) => {
                let (wire, to) = (record.wire, record.to);
                out.push_str(format!(in alloc; "{wire}..{to} ")?.as_str())?;
            }
            Some(Err(fault)) => {
                let (kind, place) = (fault.kind, fault.place);
                out.push_str(format!(in alloc; "{kind:?} {place}")?.as_str())?;
                return Ok(out);
            }
            None => break,
        }
    }
    match records.next() {
        None => out.push_str("end")?,
        Some(_) => out.push_str("no end")?,
    }
    Ok(out)
}

/// What is wrong, with its place.
fn fault_answer(alloc: Global, fault: DecodeFault) -> io::Result<String> {
    match fault {
        DecodeFault::Wire(fault) => {
            let (kind, place) = (fault.kind, fault.place);
            Ok(format!(in alloc; "{kind:?} {place}")?)
        }
        DecodeFault::NotUtf8(place) => Ok(format!(in alloc; "NotUtf8 {place}")?),
        DecodeFault::NoMemory => Ok(String::from_str(alloc, "no memory")?),
    }
}

/// The canonical bytes of what bytes are, or the fault.
fn recoded(alloc: Global, types: &Types, id: TypeId, bytes: &[u8]) -> io::Result<String> {
    let value = match decode(alloc, types, id, bytes) {
        Ok(value) => value,
        Err(fault) => return fault_answer(alloc, fault),
    };
    let mut out = Vec::new(alloc);
    if !valid(types, id, &value) {
        return Ok(String::from_str(alloc, "not valid")?);
    }
    kept(encode(types, id, &value, &mut out))?;
    if encoded_len(types, id, &value) != out.len() as u64 {
        return Ok(String::from_str(alloc, "another length")?);
    }
    digits_of(alloc, out.as_slice())
}

/// The same of the words that are left, behind one another.
pub(crate) fn decode_answer(
    alloc: Global,
    types: &Types,
    id: TypeId,
    row: &mut Row,
) -> io::Result<String> {
    let mut bytes = Vec::new(alloc);
    for word in row.rest().split(' ') {
        bytes.extend_from_slice(rows::bytes_of(alloc, word)?.as_slice())?;
    }
    recoded(alloc, types, id, bytes.as_slice())
}
