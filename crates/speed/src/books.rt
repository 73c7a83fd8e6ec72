//! Messages of books.

use base::{List, NoMemory, Text};
use schema::{Field, Kind, Known, MessageType, Presence, Scalar, Shape, TypeId, Types, valid};
use std::alloc::Global;
use wire_format::{decode, encode};

/// Adds a field, which is named by its number.
fn add(
    alloc: Global,
    fields: &mut List<Field>,
    number: u32,
    kind: Kind,
    shape: Shape,
) -> Result<(), NoMemory> {
    let name = format!(in alloc; "f{number}")?;
    fields.push(Field {
        name: Text::copy_of(alloc, name.as_str())?,
        json: Text::copy_of(alloc, name.as_str())?,
        number,
        kind,
        shape,
        presence: match shape {
            Shape::Single => Presence::Explicit,
            _ => Presence::Implicit,
        },
        packed: match (shape, kind) {
            (Shape::Many, Kind::One(Scalar::Int32)) => true,
            _ => false,
        },
    })
}

fn add_text(
    alloc: Global,
    fields: &mut List<Field>,
    number: u32,
    shape: Shape,
) -> Result<(), NoMemory> {
    add(alloc, fields, number, Kind::One(Scalar::Text), shape)
}

fn add_number(
    alloc: Global,
    fields: &mut List<Field>,
    number: u32,
    scalar: Scalar,
    shape: Shape,
) -> Result<(), NoMemory> {
    add(alloc, fields, number, Kind::One(scalar), shape)
}

fn add_message(
    alloc: Global,
    fields: &mut List<Field>,
    number: u32,
    id: TypeId,
) -> Result<(), NoMemory> {
    add(alloc, fields, number, Kind::Message(id), Shape::Single)
}

fn message(alloc: Global, name: &str, fields: List<Field>) -> Result<MessageType, NoMemory> {
    Ok(MessageType {
        name: Text::copy_of(alloc, name)?,
        known: Known::Plain,
        fields,
    })
}

/// The fields of a book, with its author and its sequel.
fn book_fields(alloc: Global) -> Result<List<Field>, NoMemory> {
    let labels = Shape::Map(Scalar::Text);
    let mut book = List::new(alloc);
    add_text(alloc, &mut book, 1, Shape::Single)?;
    add_message(alloc, &mut book, 2, TypeId(1))?;
    add_number(alloc, &mut book, 3, Scalar::Int32, Shape::Single)?;
    add_number(alloc, &mut book, 4, Scalar::Sint64, Shape::Single)?;
    add_text(alloc, &mut book, 5, Shape::Many)?;
    add_number(alloc, &mut book, 6, Scalar::Int32, Shape::Many)?;
    add_number(alloc, &mut book, 7, Scalar::Int32, labels)?;
    add_message(alloc, &mut book, 14, TypeId(0))?;
    Ok(book)
}

/// A book and an author.
fn book_types(alloc: Global) -> Result<Types, NoMemory> {
    let mut author = List::new(alloc);
    add_text(alloc, &mut author, 1, Shape::Single)?;
    add_number(alloc, &mut author, 2, Scalar::Int32, Shape::Single)?;
    let mut messages = List::new(alloc);
    messages.push(message(alloc, "Book", book_fields(alloc)?)?)?;
    messages.push(message(alloc, "Author", author)?)?;
    Ok(Types {
        messages,
        enums: List::new(alloc),
    })
}

/// A book of 150 bytes: its title, author, pages, price, two tags, four ratings, two labels and a sequel with a title.
const BOOK: &[u8] =
    b"\x0a\x19The Left Hand of Darkness\x12\x16\x0a\x11Ursula K. Le Guin\x10\x89\x0f\x18\xb0\x02\x20\x95\x13\x2a\x0fscience fiction\x2a\x06Gr\xc3\xbc\xc3\x9f\x32\x05\x05\x04\xac\x02\x03\x3a\x0b\x0a\x07library\x10\x07\x3a\x09\x0a\x05shelf\x10\x0c\x72\x14\x0a\x12The Word for World";

/// So many rounds for so many MiB of books.
fn rounds_of(size: usize) -> usize {
    size.saturating_mul(1_048_576) / BOOK.len().max(1) + 1
}

/// How many fields books of so many MiB have when each is decoded; 0 where one is refused.
pub fn book_rounds(alloc: Global, size: usize) -> u64 {
    let Ok(types) = book_types(alloc) else {
        return 0;
    };
    let mut count = 0u64;
    for _ in 0..rounds_of(size) {
        match decode(alloc, &types, TypeId(0), BOOK) {
            Ok(value) => count = count.saturating_add(value.fields().len() as u64),
            Err(_) => return 0,
        }
    }
    count
}

/// How many bytes books of so many MiB have when a decoded one is encoded again and again; 0 where that fails.
pub fn encode_rounds(alloc: Global, size: usize) -> u64 {
    let Ok(types) = book_types(alloc) else {
        return 0;
    };
    let Ok(value) = decode(alloc, &types, TypeId(0), BOOK) else {
        return 0;
    };
    if !valid(&types, TypeId(0), &value) {
        return 0;
    }
    let mut out = Vec::new(alloc);
    let mut count = 0u64;
    for _ in 0..rounds_of(size) {
        out.clear();
        match encode(&types, TypeId(0), &value, &mut out) {
            Ok(()) => count = count.saturating_add(out.len() as u64),
            Err(_) => return 0,
        }
    }
    count
}

/// A book with so many tags, as many ratings, and a tenth as many labels by falling key.
fn many_bytes(alloc: Global, items: usize) -> Result<Vec<u8>, NoMemory> {
    let mut bytes = Vec::new(alloc);
    for _ in 0..items {
        bytes.extend_from_slice(b"\x2a\x03tag\x30\x05")?;
    }
    for i in 0..items / 10 {
        let key = 99_999_999 - i.min(9_999_999);
        bytes.extend_from_slice(b"\x3a\x0c\x0a\x08")?;
        bytes.extend_from_slice(format!(in alloc; "{key}")?.as_bytes())?;
        bytes.extend_from_slice(b"\x10\x07")?;
    }
    Ok(bytes)
}

/// How many bytes a book with so many items has when it is decoded and encoded; 0 where that fails.
pub fn many_items(alloc: Global, items: usize) -> u64 {
    let Ok(types) = book_types(alloc) else {
        return 0;
    };
    let Ok(bytes) = many_bytes(alloc, items) else {
        return 0;
    };
    let Ok(value) = decode(alloc, &types, TypeId(0), bytes.as_slice()) else {
        return 0;
    };
    if !valid(&types, TypeId(0), &value) {
        return 0;
    }
    let mut out = Vec::new(alloc);
    match encode(&types, TypeId(0), &value, &mut out) {
        Ok(()) => out.len() as u64,
        Err(_) => 0,
    }
}
