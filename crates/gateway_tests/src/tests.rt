//! Each public call of what holds bytes, texts and items once, where memory is found; and copies of values.

use base::{Blob, List, Text};
use schema::{Item, Slot, Value};
use std::test::Fail;

#[test]
fn bytes_are_held(rt: HostRuntime) -> Result<(), Fail> {
    let mut blob = Blob::copy_of(rt.alloc(), b"ab")?;
    blob.push(0xff)?;
    assert_eq!(rt; blob.as_slice(), [b'a', b'b', 0xff].as_slice());
    assert_eq!(rt; blob.len(), 3);
    assert!(rt; !blob.is_empty());
    let again = Blob::from_vec(blob.into_vec());
    assert_eq!(rt; again.as_slice(), [b'a', b'b', 0xff].as_slice());
    assert!(rt; Blob::new(rt.alloc()).is_empty());
    Ok(())
}

#[test]
fn texts_are_held(rt: HostRuntime) -> Result<(), Fail> {
    let mut text = Text::copy_of(rt.alloc(), "a")?;
    text.push('\u{10ffff}')?;
    assert_eq!(rt; text.as_str(), "a\u{10ffff}");
    assert_eq!(rt; text.len(), 5);
    assert!(rt; !text.is_empty());
    let again = Text::from_string(text.into_string());
    assert_eq!(rt; again.as_str(), "a\u{10ffff}");
    assert!(rt; Text::new(rt.alloc()).is_empty());
    Ok(())
}

#[test]
fn lists_are_held(rt: HostRuntime) -> Result<(), Fail> {
    let mut list: List<u32> = List::new(rt.alloc());
    assert!(rt; list.is_empty());
    list.push(7)?;
    list.push(8)?;
    assert_eq!(rt; list.as_slice(), [7, 8].as_slice());
    assert_eq!(rt; list.len(), 2);
    assert_eq!(rt; list.get(1).copied(), Some(8));
    assert_eq!(rt; list.get(2).copied(), None);
    let again = List::from_vec(list.into_vec());
    assert_eq!(rt; again.as_slice(), [7, 8].as_slice());
    Ok(())
}

/// The number that a slot holds, or -1.
fn number_of(slot: Option<&Slot>) -> i128 {
    match slot {
        Some(Slot::One(Item::Number(number))) => *number,
        _ => -1,
    }
}

/// The number that an item is, or -1.
fn number_in(item: Option<&Item>) -> i128 {
    match item {
        Some(Item::Number(number)) => *number,
        _ => -1,
    }
}

#[test]
fn copies_are_equal(rt: HostRuntime) -> Result<(), Fail> {
    let mut inner = Value::new(rt.alloc());
    inner.set(1, Slot::One(Item::Text(Text::copy_of(rt.alloc(), "x")?)))?;
    let mut value = Value::new(rt.alloc());
    value.set(2, Slot::One(Item::Message(inner)))?;
    value.set(3, Slot::One(Item::Number(30)))?;
    let copy = value.copy(rt.alloc())?;
    assert_eq!(rt; copy.fields().len(), 2);
    assert_eq!(rt; number_of(copy.get(3)), 30);
    let slot = Slot::One(Item::Number(5)).copy(rt.alloc())?;
    assert_eq!(rt; number_of(Some(&slot)), 5);
    let item = Item::Number(6).copy(rt.alloc())?;
    assert_eq!(rt; number_in(Some(&item)), 6);
    Ok(())
}
