//! The types of the library's books, as their JSON is read.

use base::{List, NoMemory, Text};
use schema::{
    EnumId, EnumType, EnumValue, Field, Kind, Known, MessageType, Presence, Scalar, Shape, TypeId,
    Types,
};
use std::alloc::Global;

/// The fields of a book: those of the library's books, without their time and their loan.
const BOOK_FIELDS: [(&str, u32, Kind, Shape); 12] = [
    ("name", 1, Kind::One(Scalar::Text), Shape::Single),
    ("title", 2, Kind::One(Scalar::Text), Shape::Single),
    ("pages", 3, Kind::One(Scalar::Int32), Shape::Single),
    ("marks", 4, Kind::One(Scalar::Int64), Shape::Many),
    (
        "kind",
        5,
        Kind::One(Scalar::Enumeration(EnumId(0))),
        Shape::Single,
    ),
    ("cover", 8, Kind::One(Scalar::Bytes), Shape::Single),
    (
        "stock",
        9,
        Kind::One(Scalar::Int32),
        Shape::Map(Scalar::Text),
    ),
    ("person", 10, Kind::One(Scalar::Text), Shape::Member(0)),
    ("card", 11, Kind::One(Scalar::Int64), Shape::Member(0)),
    ("lent", 12, Kind::One(Scalar::Bool), Shape::Single),
    ("price", 13, Kind::Message(TypeId(1)), Shape::Single),
    ("sequel", 14, Kind::Message(TypeId(0)), Shape::Single),
];

/// The field of a price, which is a wrapper of an integer.
const PRICE_FIELDS: [(&str, u32, Kind, Shape); 1] = [(
    "value",
    1,
    Kind::One(Scalar::Int64),
    Shape::Single,
)];

/// The kinds of books.
const KINDS: [(&str, i32); 3] = [("NONE", 0), ("NOVEL", 1), ("POEM", 2)];

/// Fields of these names, numbers, kinds and shapes: a single message and a member of a oneof have presence, and
/// numbers of lists are packed.
fn fields_of(alloc: Global, rows: &[(&str, u32, Kind, Shape)]) -> Result<List<Field>, NoMemory> {
    let mut fields = List::new(alloc);
    for (name, number, kind, shape) in rows {
        fields.push(Field {
            name: Text::copy_of(alloc, name)?,
            json: Text::copy_of(alloc, name)?,
            number: *number,
            kind: *kind,
            shape: *shape,
            presence: match (shape, kind) {
                (Shape::Member(_), _) | (Shape::Single, Kind::Message(_)) => Presence::Explicit,
                _ => Presence::Implicit,
            },
            packed: match (shape, kind) {
                (Shape::Many, Kind::One(Scalar::Int64)) => true,
                _ => false,
            },
        })?;
    }
    Ok(fields)
}

/// The enum of the kinds of books.
fn kinds(alloc: Global) -> Result<EnumType, NoMemory> {
    let mut values = List::new(alloc);
    for (name, number) in &KINDS {
        values.push(EnumValue {
            name: Text::copy_of(alloc, name)?,
            number: *number,
        })?;
    }
    Ok(EnumType {
        name: Text::copy_of(alloc, "Kind")?,
        values,
    })
}

/// A type with these fields.
fn message(
    alloc: Global,
    name: &str,
    known: Known,
    fields: List<Field>,
) -> Result<MessageType, NoMemory> {
    Ok(MessageType {
        name: Text::copy_of(alloc, name)?,
        known,
        fields,
    })
}

/// The types of books and of prices.
pub(crate) fn book_types(alloc: Global) -> Result<Types, NoMemory> {
    let mut messages = List::new(alloc);
    let book = fields_of(alloc, &BOOK_FIELDS)?;
    messages.push(message(alloc, "Book", Known::Plain, book)?)?;
    let price = fields_of(alloc, &PRICE_FIELDS)?;
    messages.push(message(alloc, "Int64Value", Known::Wrapper, price)?)?;
    let mut enums = List::new(alloc);
    enums.push(kinds(alloc)?)?;
    Ok(Types { messages, enums })
}
