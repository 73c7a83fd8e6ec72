//! Answers rows on the parameters of a query: what they set of a message, or the first at fault.
//!
//! After the label a row has the body, as `none`, `whole` or the number of a field; the numbers on the path of a
//! variable, joined by commas, or `-` for no variable; a name that is ignored, and the query, each as a word of bytes.
//! The answer has each setting, the numbers of its path before its value; a message's value stands in braces, a list's
//! in brackets.
#![tactic(auto)]

mod books;
mod shown;

use base::{List, Text};
use books::{binding_of, library};
use field_index::IndexedTypes;
use query_settings::{QueryFault, read_query};
use rows::{Answers, Row, answer_rows, kept};
use schema::{TypeId, Types};
use shown::{kind_name, put_settings};
use std::alloc::Global;
use std::io;

/// What answers rows: the types.
#[derive(Drop)]
struct Queries {
    types: Types,
}

/// The list of one name, or of none.
fn ignored(alloc: Global, row: &mut Row) -> io::Result<List<Text>> {
    let mut names = List::new(alloc);
    let bytes = row.bytes(alloc)?;
    if !bytes.is_empty() {
        let name = std::str::from_utf8(bytes.as_slice()).unwrap_or("not UTF-8");
        kept(names.push(kept(Text::copy_of(alloc, name))?))?;
    }
    Ok(names)
}

impl Answers for Queries {
    fn answer(&mut self, alloc: Global, row: &mut Row) -> io::Result<String> {
        let types = kept(IndexedTypes::new(alloc, &self.types))?;
        let binding = binding_of(alloc, row.word(), row.word())?;
        let ignore = ignored(alloc, row)?;
        let query = row.bytes(alloc)?;
        if query.len() >= u32::MAX as usize {
            return Err(io::Error::from(io::ErrorKind::InvalidData));
        }
        let read = read_query(
            alloc,
            &types,
            TypeId(0),
            &binding,
            &ignore,
            query.as_slice(),
        );
        let mut out = String::new(alloc);
        match read {
            Ok(settings) => put_settings(alloc, &mut out, settings.as_slice())?,
            Err(QueryFault::Parameter(number, kind)) => {
                let kind = kind_name(kind);
                out.push_str(format!(in alloc; "fault {number} {kind}")?.as_str())?;
            }
            Err(QueryFault::NoMemory) => out.push_str("out of memory")?,
        }
        Ok(out)
    }
}

fn main(rt: HostRuntime) -> io::Result<()> {
    let alloc = rt.alloc();
    let types = library(alloc)?;
    answer_rows(alloc, rt.reader(), io::writer(&rt), &mut Queries { types })
}
