//! Answers rows about types, values and the wire format (the Protobuf encoding guide).
//!
//! After the label a row has a command. Rows that declare stand first: `enum NAME VALUE=NUMBER..` and
//! `type NAME FIELD..` add to the types, which later rows name by their index. A FIELD is
//! `NAME,NUMBER,KIND,SHAPE,PRESENCE` and perhaps `,packed`: a KIND is a scalar, `enumINDEX` or `messageINDEX`,
//! a SHAPE `single`, `memberINDEX`, `many` or `mapSCALAR`, a PRESENCE `implicit` or `explicit`.
//!
//! - `sound`, `fields TYPE`, `field TYPE NUMBER` ask of the types.
//! - `valid TYPE NUMBER=VALUE..` judges a value; `default VALUE` asks whether a number is the default.
//! - `value WORD..` and `pairs WORD..` set (`NUMBER=VALUE`), ask (`NUMBER?`) and clear (`NUMBER-`), and print
//!   what is left; `keys ONE OTHER` compares keys.
//! - `records BYTES` prints wire types and ends; `decode TYPE BYTES..` the canonical bytes of what the words
//!   are behind one another, or the fault; `book TYPE` the canonical bytes of a full book, and their number.
//! - `no_memory` prints the text of the free answer.
#![tactic(auto)]

mod books;
mod declared;
mod decoded;
mod kinds;
mod values;

use base::NoMemory;
use books::book_answer;
use declared::{declare_enum, declare_type, field_answer, sound_answer};
use decoded::{decode_answer, record_answer};
use rows::{Answers, Row, answer_rows};
use schema::{TypeId, Types};
use std::alloc::Global;
use std::io;
use values::{default_answer, key_answer, pair_answer, valid_answer, value_answer};

/// The types that rows declared.
#[derive(Drop)]
struct Wire {
    types: Types,
}

/// The message type that the next word names.
fn type_id(row: &mut Row) -> TypeId {
    TypeId(row.word().parse().unwrap_or(0))
}

/// The answer to a command about bytes.
fn bytes_answer(alloc: Global, types: &Types, command: &str, row: &mut Row) -> io::Result<String> {
    match command {
        "records" => record_answer(alloc, row.bytes(alloc)?.as_slice()),
        "decode" => decode_answer(alloc, types, type_id(row), row),
        "book" => book_answer(alloc, types, type_id(row)),
        "no_memory" => Ok(format!(in alloc; "{NoMemory}")?),
        _ => Ok(String::from_str(alloc, "no command")?),
    }
}

/// The answer to a command about values.
fn values_answer(alloc: Global, types: &Types, command: &str, row: &mut Row) -> io::Result<String> {
    match command {
        "valid" => valid_answer(alloc, types, type_id(row), row),
        "default" => default_answer(alloc, row.word()),
        "value" => value_answer(alloc, row),
        "pairs" => pair_answer(alloc, row),
        "keys" => key_answer(alloc, row.word(), row.word()),
        _ => bytes_answer(alloc, types, command, row),
    }
}

impl Answers for Wire {
    fn answer(&mut self, alloc: Global, row: &mut Row) -> io::Result<String> {
        let command = row.word();
        match command {
            "enum" => declare_enum(alloc, &mut self.types, row),
            "type" => declare_type(alloc, &mut self.types, row),
            "sound" => sound_answer(alloc, &self.types),
            "fields" => {
                let count = self.types.fields(type_id(row)).len();
                Ok(format!(in alloc; "{count}")?)
            }
            "field" => {
                let id = type_id(row);
                let number = row.word().parse().unwrap_or(0);
                field_answer(alloc, self.types.fields(id), number)
            }
            _ => values_answer(alloc, &self.types, command, row),
        }
    }
}

fn main(rt: HostRuntime) -> io::Result<()> {
    let alloc = rt.alloc();
    let types = Types {
        messages: base::List::new(alloc),
        enums: base::List::new(alloc),
    };
    answer_rows(alloc, rt.reader(), io::writer(&rt), &mut Wire { types })
}
