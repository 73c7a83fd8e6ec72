//! The answers to lines.
ghost use Rattle.std.specs.Prelude.{◌≡◌};
ghost use Rattle.linked_api.specs.LinkedApi.{IsLinked};

use crate::reading::put_reading;
use crate::showing::put_text;
use field_index::IndexedTypes;
use linked_api::Api;
use rows::Row;
use schema::TypeId;
use std::alloc::Global;
use std::io::{self, BufRead, BufReader, Read, Write};

/// The input type of the bound method that the next word numbers.
fn next_type(api: &Api, row: &mut Row) -> io::Result<TypeId> {
    match api.methods.get(row.number_u32()? as usize) {
        Some(method) => Ok(method.input),
        None => Err(io::Error::from(io::ErrorKind::InvalidData)),
    }
}

/// Appends the answer to a line.
fn put_answer(
    alloc: Global,
    api: &Api,
    types: &IndexedTypes<'_>,
    out: &mut Vec<u8>,
    row: &mut Row,
) -> io::Result<()>
    requires linked { IsLinked api.now }
    requires indexed { types.now ≡ api.now.types }
{
    let id = next_type(api, row)?;
    let verb = row.label();
    let part = match verb {
        "part" | "read_part" => Some(row.number_u32()?),
        _ => None,
    };
    let bytes = row.bytes(alloc)?;
    match verb {
        "show" | "part" => put_text(alloc, api, types, out, id, part, bytes.as_slice()),
        "read" | "read_part" => put_reading(alloc, api, types, out, id, part, bytes.as_slice()),
        _ => Err(io::Error::from(io::ErrorKind::InvalidData)),
    }
}

/// Writes the answers to the lines of the input.
pub(crate) fn tell_lines<R: Read + Drop, W: Write>(
    alloc: Global,
    api: &Api,
    input: BufReader<R>,
    out: &mut W,
) -> io::Result<()>
    requires linked { IsLinked api.now }
{
    let Ok(types) = IndexedTypes::new(alloc, &api.types) else {
        return Err(io::Error::from(io::ErrorKind::OutOfMemory));
    };
    for line in input.lines(alloc) {
        let line = line?;
        if line.is_empty() || line.starts_with('#') {
            continue;
        }
        let mut answer = Vec::new(alloc);
        put_answer(alloc, api, &types, &mut answer, &mut Row::of(line.as_str()))?;
        answer.push(b'\n')?;
        out.write_all(answer.as_slice())?;
    }
    Ok(())
}
