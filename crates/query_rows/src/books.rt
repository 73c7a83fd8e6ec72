//! The types of messages and the bindings that rows are about.

use base::{List, Text};
use http_rules::{Binding, Body, Template};
use rows::kept;
use schema::{
    EnumId, EnumType, EnumValue, Field, Kind, Known, MessageType, Presence, Scalar, Shape, TypeId,
    Types,
};
use std::alloc::Global;
use std::io;

/// The fields of a book, with their names in JSON where these differ.
const BOOK: [(&str, &str, u32, Kind, Shape); 18] = [
    ("name", "name", 1, Kind::One(Scalar::Text), Shape::Single),
    (
        "page_count",
        "pageCount",
        2,
        Kind::One(Scalar::Int32),
        Shape::Single,
    ),
    ("marks", "marks", 3, Kind::One(Scalar::Int32), Shape::Many),
    (
        "person",
        "person",
        4,
        Kind::One(Scalar::Text),
        Shape::Member(0),
    ),
    (
        "card",
        "card",
        5,
        Kind::One(Scalar::Int32),
        Shape::Member(0),
    ),
    ("next", "next", 6, Kind::Message(TypeId(0)), Shape::Single),
    ("size", "size", 7, Kind::Message(TypeId(1)), Shape::Single),
    ("made", "made", 8, Kind::Message(TypeId(2)), Shape::Single),
    (
        "stock",
        "stock",
        9,
        Kind::One(Scalar::Int32),
        Shape::Map(Scalar::Text),
    ),
    ("parts", "parts", 10, Kind::Message(TypeId(0)), Shape::Many),
    ("sizes", "sizes", 11, Kind::Message(TypeId(1)), Shape::Many),
    (
        "left",
        "left",
        12,
        Kind::Message(TypeId(0)),
        Shape::Member(1),
    ),
    (
        "right",
        "right",
        13,
        Kind::Message(TypeId(0)),
        Shape::Member(1),
    ),
    (
        "tint",
        "tint",
        14,
        Kind::One(Scalar::Enumeration(EnumId(0))),
        Shape::Single,
    ),
    ("seal", "seal", 15, Kind::One(Scalar::Bytes), Shape::Single),
    ("span", "span", 16, Kind::Message(TypeId(3)), Shape::Single),
    ("mask", "mask", 17, Kind::Message(TypeId(4)), Shape::Single),
    (
        "label",
        "label",
        18,
        Kind::Message(TypeId(5)),
        Shape::Single,
    ),
];

/// The one field of a wrapper of an int32.
const SIZE: [(&str, &str, u32, Kind, Shape); 1] = [(
    "value",
    "value",
    1,
    Kind::One(Scalar::Int32),
    Shape::Single,
)];

/// The one field of a wrapper of a string.
const LABEL: [(&str, &str, u32, Kind, Shape); 1] = [(
    "value",
    "value",
    1,
    Kind::One(Scalar::Text),
    Shape::Single,
)];

/// The one field of a field mask.
const MASK: [(&str, &str, u32, Kind, Shape); 1] = [(
    "paths",
    "paths",
    1,
    Kind::One(Scalar::Text),
    Shape::Many,
)];

/// The fields of a time, and of a length of time.
const TIME: [(&str, &str, u32, Kind, Shape); 2] = [
    (
        "seconds",
        "seconds",
        1,
        Kind::One(Scalar::Int64),
        Shape::Single,
    ),
    ("nanos", "nanos", 2, Kind::One(Scalar::Int32), Shape::Single),
];

/// A field of a row of a table.
fn field_of(alloc: Global, row: &(&str, &str, u32, Kind, Shape)) -> io::Result<Field> {
    let (name, json, number, kind, shape) = row;
    Ok(Field {
        name: kept(Text::copy_of(alloc, name))?,
        json: kept(Text::copy_of(alloc, json))?,
        number: *number,
        kind: *kind,
        shape: *shape,
        presence: match (shape, kind) {
            (Shape::Member(_), _) => Presence::Explicit,
            (Shape::Single, Kind::Message(_)) => Presence::Explicit,
            _ => Presence::Implicit,
        },
        packed: false,
    })
}

/// A message type with the fields of a table.
fn message_of(
    alloc: Global,
    name: &str,
    known: Known,
    table: &[(&str, &str, u32, Kind, Shape)],
) -> io::Result<MessageType> {
    let mut fields = List::new(alloc);
    for row in table {
        kept(fields.push(field_of(alloc, row)?))?;
    }
    Ok(MessageType {
        name: kept(Text::copy_of(alloc, name))?,
        known,
        fields,
    })
}

/// An enum of two tints.
fn tints(alloc: Global) -> io::Result<List<EnumType>> {
    let mut values = List::new(alloc);
    for (name, number) in &[("GREY", 0), ("RED", 5)] {
        let name = kept(Text::copy_of(alloc, name))?;
        let number = *number;
        kept(values.push(EnumValue { name, number }))?;
    }
    let name = kept(Text::copy_of(alloc, "Tint"))?;
    let mut enums = List::new(alloc);
    kept(enums.push(EnumType { name, values }))?;
    Ok(enums)
}

/// Books, and what they hold.
pub(crate) fn library(alloc: Global) -> io::Result<Types> {
    let mut messages = List::new(alloc);
    kept(messages.push(message_of(alloc, "Book", Known::Plain, &BOOK)?))?;
    kept(messages.push(message_of(alloc, "Size", Known::Wrapper, &SIZE)?))?;
    kept(messages.push(message_of(alloc, "Time", Known::Timestamp, &TIME)?))?;
    kept(messages.push(message_of(alloc, "Span", Known::Duration, &TIME)?))?;
    kept(messages.push(message_of(alloc, "Mask", Known::FieldMask, &MASK)?))?;
    kept(messages.push(message_of(alloc, "Label", Known::Wrapper, &LABEL)?))?;
    Ok(Types {
        messages,
        enums: tints(alloc)?,
    })
}

/// The path that a word has, or none.
fn paths_of(alloc: Global, word: &str) -> io::Result<List<List<u32>>> {
    let mut paths = List::new(alloc);
    if word != "-" {
        let mut path = List::new(alloc);
        for number in word.split(',') {
            kept(path.push(number.parse().unwrap_or(0)))?;
        }
        kept(paths.push(path))?;
    }
    Ok(paths)
}

/// The body that a word names.
fn body_of(word: &str) -> Body {
    match word {
        "none" => Body::Nothing,
        "whole" => Body::Whole,
        _ => Body::Part(word.parse().unwrap_or(0)),
    }
}

/// A binding with a body and the path of a variable. Nothing else of it is read.
pub(crate) fn binding_of(alloc: Global, body: &str, path: &str) -> io::Result<Binding> {
    Ok(Binding {
        method: Text::new(alloc),
        template: Template {
            segments: List::new(alloc),
            variables: List::new(alloc),
            verb: None,
        },
        paths: paths_of(alloc, path)?,
        body: body_of(body),
        response: None,
        call: 0,
    })
}
