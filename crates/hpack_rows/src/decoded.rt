//! Blocks that are decoded.

use hpack_codec::{BlockFault, Decoder, Fields};
use rows::{Row, kept, shown};
use std::alloc::Global;
use std::io;

/// The most blocks of a row.
pub(crate) const MOST_BLOCKS: usize = 64;

/// Appends each field: its name, an equals sign and its value.
pub(crate) fn put_fields(alloc: Global, out: &mut String, fields: &Fields) -> io::Result<()> {
    for i in 0..fields.len() {
        let mut line = Vec::new(alloc);
        line.extend_from_slice(fields.name(i))?;
        line.push(b'=')?;
        line.extend_from_slice(fields.value(i))?;
        if i > 0 {
            out.push(' ')?;
        }
        out.push_str(shown(alloc, line.as_slice())?.as_str())?;
    }
    Ok(())
}

/// What is told of a block.
#[derive(Clone, Copy)]
pub(crate) enum Told {
    /// Its fields; where it has a fault that, and the fields only if any are left.
    Fields,
    /// How many fields there are, behind its fault if it has one.
    Count,
}

/// Appends what is told of a block that was decoded.
fn put_block(
    alloc: Global,
    out: &mut String,
    told: Told,
    answer: Result<(), BlockFault>,
    fields: &Fields,
) -> io::Result<()> {
    if let Err(fault) = answer {
        out.push_str(format!(in alloc; "{fault}")?.as_str())?;
        match told {
            Told::Fields if fields.is_empty() => return Ok(()),
            Told::Fields => out.push_str(" with ")?,
            Told::Count => out.push_str(", ")?,
        }
    }
    match told {
        Told::Fields => put_fields(alloc, out, fields),
        Told::Count => {
            let count = fields.len();
            Ok(out.push_str(format!(in alloc; "{count}")?.as_str())?)
        }
    }
}

/// What is told of blocks of one connection, one after another.
pub(crate) fn blocks(alloc: Global, row: &mut Row, told: Told) -> io::Result<String> {
    let mut out = String::new(alloc);
    let mut decoder = kept(Decoder::new(alloc))?;
    let mut fields = kept(Fields::new(alloc))?;
    for i in 0..MOST_BLOCKS {
        if row.is_empty() {
            break;
        }
        if i > 0 {
            out.push_str("; ")?;
        }
        let block = row.bytes(alloc)?;
        let answer = decoder.decode(block.as_slice(), &mut fields);
        put_block(alloc, &mut out, told, answer, &fields)?;
    }
    Ok(out)
}

/// A fault as it is printed.
pub(crate) fn printed(alloc: Global, row: &mut Row) -> io::Result<String> {
    let fault = match row.word() {
        "bad" => BlockFault::Bad(row.number()?),
        _ => BlockFault::TooLong,
    };
    Ok(format!(in alloc; "{fault}")?)
}
