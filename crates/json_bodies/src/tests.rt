//! Bodies of JSON that are read as messages, from a place on.
use crate::{BodyFault, FieldKind, read_body, read_front};
use base::{List, NoMemory, Text};
use field_index::IndexedTypes;
use schema::{Field, Item, Kind, Known, MessageType, Presence, Scalar, Shape, Slot, TypeId, Types};
use std::alloc::Global;
use std::test::Fail;

/// The type of books, which have a number of pages.
fn books(alloc: Global) -> Result<Types, NoMemory> {
    let mut fields = List::new(alloc);
    fields.push(Field {
        name: Text::copy_of(alloc, "pages")?,
        json: Text::copy_of(alloc, "pages")?,
        number: 1,
        kind: Kind::One(Scalar::Int32),
        shape: Shape::Single,
        presence: Presence::Explicit,
        packed: false,
    })?;
    let mut messages = List::new(alloc);
    messages.push(MessageType {
        name: Text::copy_of(alloc, "Book")?,
        known: Known::Plain,
        fields,
    })?;
    Ok(Types {
        messages,
        enums: List::new(alloc),
    })
}

/// The pages of a body that is one of a book, or of its pages alone.
fn pages_of(
    alloc: Global,
    types: &IndexedTypes<'_>,
    part: Option<u32>,
    body: &[u8],
) -> Option<i128> {
    match read_body(alloc, types, TypeId(0), part, body, 0) {
        Ok(book) => match book.get(1) {
            Some(Slot::One(Item::Number(pages))) => Some(*pages),
            _ => None,
        },
        Err(_) => None,
    }
}

/// The fault of a body that is one of a book, and stands at a place.
fn fault_of(alloc: Global, types: &IndexedTypes<'_>, body: &[u8], place: u64) -> Option<BodyFault> {
    match read_body(alloc, types, TypeId(0), None, body, place) {
        Ok(_) => None,
        Err(fault) => Some(fault),
    }
}

#[test]
fn a_body_is_read_whole(rt: HostRuntime) -> Result<(), Fail> {
    let alloc = rt.alloc();
    let declared = books(alloc)?;
    let types = IndexedTypes::new(alloc, &declared)?;
    let whole = pages_of(alloc, &types, None, b" {\"pages\" : 1e2} ");
    assert!(rt; whole == Some(100));
    assert!(rt; pages_of(alloc, &types, Some(1), b"100") == Some(100));
    assert!(rt; pages_of(alloc, &types, Some(1), b"null") == None);
    Ok(())
}

/// Where a body that is to be one of a book is no text.
fn breaks_at(alloc: Global, types: &IndexedTypes<'_>, body: &[u8]) -> Option<u64> {
    match fault_of(alloc, types, body, 0) {
        Some(BodyFault::Syntax(place)) => Some(place),
        _ => None,
    }
}

#[test]
fn what_is_no_text_has_the_place_where_none_goes_on(rt: HostRuntime) -> Result<(), Fail> {
    let alloc = rt.alloc();
    let declared = books(alloc)?;
    let types = IndexedTypes::new(alloc, &declared)?;
    assert!(rt; breaks_at(alloc, &types, b"") == Some(0));
    assert!(rt; breaks_at(alloc, &types, br#"{"pages":1"#) == Some(10));
    assert!(rt; breaks_at(alloc, &types, br#"{"pages":1,}"#) == Some(11));
    assert!(rt; breaks_at(alloc, &types, br#"{"pages":01}"#) == Some(10));
    assert!(rt; breaks_at(alloc, &types, br#"{"pages":1} x"#) == Some(12));
    Ok(())
}

#[test]
fn a_fault_of_a_token_comes_before_what_is_no_text(rt: HostRuntime) -> Result<(), Fail> {
    let alloc = rt.alloc();
    let declared = books(alloc)?;
    let types = IndexedTypes::new(alloc, &declared)?;
    let ended = fault_of(alloc, &types, br#"{"pages":1.5 "#, 0);
    assert!(rt; matches!(ended, Some(BodyFault::Field(9, FieldKind::BadNumber))));
    let cut = fault_of(alloc, &types, br#"{"pages":1.5"#, 0);
    assert!(rt; matches!(cut, Some(BodyFault::Syntax(12))));
    let broken = fault_of(alloc, &types, br#"{"pages":1.5x"#, 0);
    assert!(rt; matches!(broken, Some(BodyFault::Syntax(12))));
    Ok(())
}

#[test]
fn a_number_ends_with_its_body(rt: HostRuntime) -> Result<(), Fail> {
    let alloc = rt.alloc();
    let declared = books(alloc)?;
    let types = IndexedTypes::new(alloc, &declared)?;
    let part = read_body(alloc, &types, TypeId(0), Some(1), b" 1.5", 0);
    assert!(rt; matches!(&part, Err(BodyFault::Field(1, FieldKind::BadNumber))));
    let cut = read_body(alloc, &types, TypeId(0), Some(1), b"1.", 0);
    assert!(rt; matches!(&cut, Err(BodyFault::Syntax(2))));
    Ok(())
}

#[test]
fn a_body_has_a_place(rt: HostRuntime) -> Result<(), Fail> {
    let alloc = rt.alloc();
    let declared = books(alloc)?;
    let types = IndexedTypes::new(alloc, &declared)?;
    let token = fault_of(alloc, &types, br#"{"pages":true}"#, 100);
    assert!(rt; matches!(token, Some(BodyFault::Field(109, FieldKind::WrongShape))));
    let broken = fault_of(alloc, &types, br#"{"pages":1}x"#, 100);
    assert!(rt; matches!(broken, Some(BodyFault::Syntax(111))));
    let cut = fault_of(alloc, &types, b"{", 100);
    assert!(rt; matches!(cut, Some(BodyFault::Syntax(101))));
    Ok(())
}

#[test]
fn places_stop_at_the_last_number(rt: HostRuntime) -> Result<(), Fail> {
    let alloc = rt.alloc();
    let declared = books(alloc)?;
    let types = IndexedTypes::new(alloc, &declared)?;
    let token = fault_of(alloc, &types, br#"{"pages":true}"#, u64::MAX - 4);
    assert!(rt;
        matches!(
            token,
            Some(BodyFault::Field(u64::MAX, FieldKind::WrongShape))
        )
    );
    let cut = fault_of(alloc, &types, b"{", u64::MAX);
    assert!(rt; matches!(cut, Some(BodyFault::Syntax(u64::MAX))));
    Ok(())
}

/// The fault that bytes show before they end, which are the first of a body that is to be one of a book.
fn shown(alloc: Global, types: &IndexedTypes<'_>, front: &[u8], place: u64) -> Option<BodyFault> {
    match read_front(alloc, types, TypeId(0), None, front, place) {
        Ok(()) => None,
        Err(fault) => Some(fault),
    }
}

#[test]
fn a_front_shows_what_its_bytes_tell(rt: HostRuntime) -> Result<(), Fail> {
    let alloc = rt.alloc();
    let declared = books(alloc)?;
    let types = IndexedTypes::new(alloc, &declared)?;
    for sound in [
        "",
        " ",
        "{\"pages\":1.5",
        "{\"pages\":-",
        "{\"pages\":1}",
        "{\"pages\":1} ",
    ] {
        assert!(rt; shown(alloc, &types, sound.as_bytes(), 0) == None);
    }
    let ended = shown(alloc, &types, b"{\"pages\":1.5 ", 0);
    assert!(rt; ended == Some(BodyFault::Field(9, FieldKind::BadNumber)));
    let name = shown(alloc, &types, b" null", 100);
    assert!(rt; name == Some(BodyFault::Field(101, FieldKind::WrongShape)));
    let broken = shown(alloc, &types, b"{\"pages\":1.5x", 0);
    assert!(rt; broken == Some(BodyFault::Syntax(12)));
    let behind = shown(alloc, &types, b"{\"pages\":1}x", 100);
    assert!(rt; behind == Some(BodyFault::Syntax(111)));
    Ok(())
}

#[test]
fn a_front_of_one_field_has_no_end(rt: HostRuntime) -> Result<(), Fail> {
    let alloc = rt.alloc();
    let declared = books(alloc)?;
    let types = IndexedTypes::new(alloc, &declared)?;
    let cut = read_front(alloc, &types, TypeId(0), Some(1), b" 1.5", 0);
    assert!(rt; cut == Ok(()));
    let ended = read_front(alloc, &types, TypeId(0), Some(1), b" 1.5 ", 0);
    assert!(rt; ended == Err(BodyFault::Field(1, FieldKind::BadNumber)));
    let last = read_front(alloc, &types, TypeId(0), Some(1), b"true", u64::MAX);
    assert!(rt; last == Err(BodyFault::Field(u64::MAX, FieldKind::WrongShape)));
    Ok(())
}

/// A type of durations.
fn durations(alloc: Global) -> Result<Types, NoMemory> {
    let mut fields = List::new(alloc);
    for (name, number, scalar) in [("seconds", 1, Scalar::Int64), ("nanos", 2, Scalar::Int32)] {
        fields.push(Field {
            name: Text::copy_of(alloc, name)?,
            json: Text::copy_of(alloc, name)?,
            number,
            kind: Kind::One(scalar),
            shape: Shape::Single,
            presence: Presence::Implicit,
            packed: false,
        })?;
    }
    let mut messages = List::new(alloc);
    messages.push(MessageType {
        name: Text::copy_of(alloc, "google.protobuf.Duration")?,
        known: Known::Duration,
        fields,
    })?;
    Ok(Types {
        messages,
        enums: List::new(alloc),
    })
}

#[test]
fn a_duration_is_read_of_its_text(rt: HostRuntime) -> Result<(), Fail> {
    let alloc = rt.alloc();
    let declared = durations(alloc)?;
    let types = IndexedTypes::new(alloc, &declared)?;
    let minutes = pages_of(alloc, &types, None, b"\"90s\"");
    assert!(rt; minutes == Some(90));
    let wordy = fault_of(alloc, &types, b" \"90\"", 7);
    assert!(rt; wordy == Some(BodyFault::Field(8, FieldKind::BadText)));
    let far = fault_of(alloc, &types, b"\"315576000001s\"", 0);
    assert!(rt; far == Some(BodyFault::Field(0, FieldKind::OutOfRange)));
    let fields = fault_of(alloc, &types, b"{\"seconds\": 90}", 0);
    assert!(rt; fields == Some(BodyFault::Field(0, FieldKind::WrongShape)));
    Ok(())
}
