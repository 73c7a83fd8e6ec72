//! Tokens of JSON that are read as messages, in any pieces.
ghost use Rattle.std.specs.Prelude.{IfOk};

use crate::{Builder, FieldFault, FieldKind};
use base::{Blob, List, NoMemory, Text};
use field_index::IndexedTypes;
use json_events::{Spanned, read_text};
use schema::{
    EnumId, EnumType, EnumValue, Field, Item, Kind, Known, MessageType, Presence, Scalar, Shape,
    Slot, TypeId, Types, Value,
};
use std::alloc::Global;
use std::test::Fail;

/// A field whose JSON name is its name.
fn field(
    alloc: Global,
    name: &str,
    number: u32,
    scalar: Scalar,
    shape: Shape,
) -> Result<Field, NoMemory> {
    Ok(Field {
        name: Text::copy_of(alloc, name)?,
        json: Text::copy_of(alloc, name)?,
        number,
        kind: Kind::One(scalar),
        shape,
        presence: Presence::Explicit,
        packed: false,
    })
}

/// The fields of a book.
fn book_fields(alloc: Global) -> Result<List<Field>, NoMemory> {
    let mut fields = List::new(alloc);
    fields.push(field(alloc, "pages", 1, Scalar::Int32, Shape::Single)?)?;
    fields.push(field(alloc, "marks", 2, Scalar::Int64, Shape::Many)?)?;
    fields.push(field(
        alloc,
        "kind",
        3,
        Scalar::Enumeration(EnumId(0)),
        Shape::Single,
    )?)?;
    fields.push(field(alloc, "person", 4, Scalar::Text, Shape::Member(0))?)?;
    fields.push(field(alloc, "card", 5, Scalar::Int64, Shape::Member(0))?)?;
    Ok(fields)
}

/// The kinds of books.
fn book_kinds(alloc: Global) -> Result<EnumType, NoMemory> {
    let mut values = List::new(alloc);
    values.push(EnumValue {
        name: Text::copy_of(alloc, "NOVEL")?,
        number: 1,
    })?;
    Ok(EnumType {
        name: Text::copy_of(alloc, "Kind")?,
        values,
    })
}

/// The type of books, and their kinds.
fn books(alloc: Global) -> Result<Types, NoMemory> {
    let mut messages = List::new(alloc);
    messages.push(MessageType {
        name: Text::copy_of(alloc, "Book")?,
        known: Known::Plain,
        fields: book_fields(alloc)?,
    })?;
    let mut enums = List::new(alloc);
    enums.push(book_kinds(alloc)?)?;
    Ok(Types { messages, enums })
}

/// The bytes of a text, each a piece.
fn cut(alloc: Global, text: &str) -> Result<List<Blob>, NoMemory> {
    let mut pieces = List::new(alloc);
    for byte in text.as_bytes() {
        pieces.push(Blob::copy_of(alloc, &[*byte])?)?;
    }
    Ok(pieces)
}

/// A text in one piece.
fn whole(alloc: Global, text: &str) -> Result<List<Blob>, NoMemory> {
    let mut pieces = List::new(alloc);
    pieces.push(Blob::copy_of(alloc, text.as_bytes())?)?;
    Ok(pieces)
}

/// Builds a book of its tokens. All of them come here, so a book that has not ended is out of memory.
fn build(
    alloc: Global,
    types: &IndexedTypes<'_>,
    tokens: List<Spanned>,
) -> Result<Value, FieldFault> {
    let mut builder = match Builder::new(alloc, types, TypeId(0), None, 0) {
        Ok(builder) => builder,
        Err(_) => return Err(FieldFault::NoMemory),
    };
    for token in tokens.into_vec() {
        builder.take(types, token)?;
    }
    if builder.whole() {
        Ok(builder.done())
    } else {
        Err(FieldFault::NoMemory)
    }
}

/// Reads a book of a text in pieces, which is JSON.
fn read(alloc: Global, types: &Types, pieces: &List<Blob>) -> Result<Value, FieldFault> {
    let mut tokens = List::new(alloc);
    let Ok(types) = IndexedTypes::new(alloc, types) else {
        return Err(FieldFault::NoMemory);
    };
    match read_text(alloc, pieces.as_slice(), &mut tokens) {
        Ok(()) => build(alloc, &types, tokens),
        Err(_) => Err(FieldFault::NoMemory),
    }
}

#[test]
fn a_book_is_read_in_any_pieces(rt: HostRuntime) -> Result<(), Fail> {
    let alloc = rt.alloc();
    let types = books(alloc)?;
    let text = r#"{"pages":1e2,"marks":["-5"],"kind":1}"#;
    for pieces in [whole(alloc, text)?, cut(alloc, text)?] {
        match read(alloc, &types, &pieces) {
            Ok(book) => {
                assert!(rt; matches!(book.get(1), Some(Slot::One(Item::Number(100)))));
                assert!(rt; matches!(book.get(2), Some(Slot::Many(_))));
                assert!(rt; matches!(book.get(3), Some(Slot::One(Item::Number(1)))));
            }
            Err(_) => assert!(rt; false),
        }
    }
    Ok(())
}

#[test]
fn a_fault_has_its_place_in_any_pieces(rt: HostRuntime) -> Result<(), Fail> {
    let alloc = rt.alloc();
    let types = books(alloc)?;
    let text = r#"{"pages":1e2,"marks":["-5"],"kind":1.5}"#;
    for pieces in [whole(alloc, text)?, cut(alloc, text)?] {
        let fault = read(alloc, &types, &pieces);
        assert!(rt; matches!(&fault, Err(FieldFault::At(35, FieldKind::BadNumber))));
    }
    Ok(())
}

#[test]
fn a_second_member_of_a_oneof_is_refused(rt: HostRuntime) -> Result<(), Fail> {
    let alloc = rt.alloc();
    let types = books(alloc)?;
    let pieces = whole(alloc, r#"{"person":"a","card":1}"#)?;
    let fault = read(alloc, &types, &pieces);
    assert!(rt; matches!(&fault, Err(FieldFault::At(21, FieldKind::OneofTwice))));
    Ok(())
}
