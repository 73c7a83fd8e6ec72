//! Answers rows on texts of scalars: the item that a text means, or what is wrong with it.
//!
//! After the label a row has a kind, as protobuf names it, and the bytes of a text, which are read as this kind. The
//! kind `colour` is an enum with values that share a number and a value whose name looks like a number.
//!
//! The rows are made by scripts/scalar_texts.py.
#![tactic(auto)]

mod colours;
mod kinds;

use base::List;
use colours::colours;
use kinds::kind_named;
use rows::{Answers, Row, answer_rows, shown};
use scalar_texts::{ScalarFault, read_scalar};
use schema::{Item, Types};
use std::alloc::Global;
use std::io;

/// What answers rows: the types that have the enum.
#[derive(Drop)]
struct ScalarRows {
    types: Types,
}

/// An item in one word, which begins with its kind.
fn item_word(alloc: Global, item: &Item) -> io::Result<String> {
    match item {
        Item::Number(number) => Ok(format!(in alloc; "{number}")?),
        Item::Truth(truth) => Ok(format!(in alloc; "{truth}")?),
        Item::Text(text) => shown(alloc, text.as_str().as_bytes()),
        Item::Bytes(_) | Item::Message(_) => Err(io::Error::from(io::ErrorKind::InvalidData)),
    }
}

/// The name of a fault.
fn fault_name(fault: ScalarFault) -> &'static str {
    match fault {
        ScalarFault::BadText => "BadText",
        ScalarFault::BadNumber => "BadNumber",
        ScalarFault::OutOfRange => "OutOfRange",
        ScalarFault::BadEnum => "BadEnum",
        ScalarFault::NotUtf8 => "NotUtf8",
        ScalarFault::NoMemory => "NoMemory",
    }
}

impl Answers for ScalarRows {
    fn answer(&mut self, alloc: Global, row: &mut Row) -> io::Result<String> {
        let Some(scalar) = kind_named(row.word()) else {
            return Err(io::Error::from(io::ErrorKind::InvalidData));
        };
        let text = row.bytes(alloc)?;
        match read_scalar(alloc, &self.types, scalar, text.as_slice()) {
            Ok(item) => item_word(alloc, &item),
            Err(fault) => Ok(String::from_str(alloc, fault_name(fault))?),
        }
    }
}

fn main(rt: HostRuntime) -> io::Result<()> {
    let alloc = rt.alloc();
    let mut rows = ScalarRows {
        types: Types {
            messages: List::new(alloc),
            enums: colours(alloc)?,
        },
    };
    answer_rows(alloc, rt.reader(), io::writer(&rt), &mut rows)
}
