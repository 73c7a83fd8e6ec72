//! Texts of messages, with ample memory.
use crate::{ScalarFault, read_leaf};
use field_index::IndexedTypes;
use schema::{
    Field, Item, Kind, Known, List, MessageType, NoMemory, Presence, Scalar, Shape, Slot, Text,
    TypeId, Types,
};
use std::alloc::Global;
use std::test::Fail;

/// The field of a wrapper.
fn value_field(alloc: Global) -> Result<Field, NoMemory> {
    Ok(Field {
        name: Text::copy_of(alloc, "value")?,
        json: Text::copy_of(alloc, "value")?,
        number: 1,
        kind: Kind::One(Scalar::Int64),
        shape: Shape::Single,
        presence: Presence::Implicit,
        packed: false,
    })
}

/// A message of this well-known type, with the field of a wrapper.
fn message(alloc: Global, known: Known) -> Result<MessageType, NoMemory> {
    let mut fields = List::new(alloc);
    fields.push(value_field(alloc)?)?;
    Ok(MessageType {
        name: Text::copy_of(alloc, "p.M")?,
        known,
        fields,
    })
}

/// A plain message, a wrapper and a duration.
fn types(alloc: Global) -> Result<Types, NoMemory> {
    let mut messages = List::new(alloc);
    messages.push(message(alloc, Known::Plain)?)?;
    messages.push(message(alloc, Known::Wrapper)?)?;
    messages.push(message(alloc, Known::Duration)?)?;
    Ok(Types {
        messages,
        enums: List::new(alloc),
    })
}

#[test]
fn texts_of_messages_are_read(rt: HostRuntime) -> Result<(), Fail> {
    let types = types(rt.alloc())?;
    let indexed = IndexedTypes::new(rt.alloc(), &types)?;
    let wrapper = Kind::Message(TypeId(1));
    match read_leaf(rt.alloc(), &indexed, wrapper, b"-5")? {
        Item::Message(value) => {
            assert!(rt; matches!(value.get(1), Some(Slot::One(Item::Number(-5)))))
        }
        _ => panic!(rt; "no message"),
    }
    match read_leaf(rt.alloc(), &indexed, wrapper, b"0")? {
        Item::Message(value) => assert!(rt; value.fields().is_empty()),
        _ => panic!(rt; "no message"),
    }
    match read_leaf(rt.alloc(), &indexed, Kind::Message(TypeId(2)), b"1.5s")? {
        Item::Message(value) => {
            assert!(rt; matches!(value.get(2), Some(Slot::One(Item::Number(500_000_000)))))
        }
        _ => panic!(rt; "no message"),
    }
    Ok(())
}

#[test]
fn texts_that_mean_nothing_are_refused(rt: HostRuntime) -> Result<(), Fail> {
    let types = types(rt.alloc())?;
    let indexed = IndexedTypes::new(rt.alloc(), &types)?;
    for (id, text, fault) in [
        (0, b"1".as_slice(), ScalarFault::BadText),
        (1, b"1.5", ScalarFault::BadNumber),
        (2, b"1", ScalarFault::BadText),
        (2, b"315576000001s", ScalarFault::OutOfRange),
    ] {
        let read = read_leaf(rt.alloc(), &indexed, Kind::Message(TypeId(id)), text);
        assert!(rt; matches!(read, Err(told) if told == fault));
    }
    Ok(())
}
