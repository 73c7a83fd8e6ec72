//! Two settings along paths: a message is made on the way and kept, and a member of a oneof clears another on the way.

use crate::paths::set_path;
use base::{List, NoMemory, Text};
use schema::{
    Field, Item, Kind, Known, MessageType, Presence, Scalar, Shape, Slot, TypeId, Types, Value,
};
use std::alloc::Global;
use std::test::Fail;

/// A field whose presence is explicit.
fn field(alloc: Global, number: u32, kind: Kind, shape: Shape) -> Result<Field, NoMemory> {
    Ok(Field {
        name: Text::copy_of(alloc, "field")?,
        json: Text::copy_of(alloc, "field")?,
        number,
        kind,
        shape,
        presence: Presence::Explicit,
        packed: false,
    })
}

/// A type with a string under 1, and under 2 and 3 a string and a message of the type itself, one oneof.
fn chained(alloc: Global) -> Result<Types, NoMemory> {
    let mut fields = List::new(alloc);
    fields.push(field(alloc, 1, Kind::One(Scalar::Text), Shape::Single)?)?;
    fields.push(field(alloc, 2, Kind::One(Scalar::Text), Shape::Member(0))?)?;
    fields.push(field(alloc, 3, Kind::Message(TypeId(0)), Shape::Member(0))?)?;
    let mut messages = List::new(alloc);
    messages.push(MessageType {
        name: Text::copy_of(alloc, "Chained")?,
        known: Known::Plain,
        fields,
    })?;
    Ok(Types {
        messages,
        enums: List::new(alloc),
    })
}

/// The string that a slot has.
fn text_of(slot: Option<&Slot>) -> Option<&str> {
    match slot {
        Some(Slot::One(Item::Text(text))) => Some(text.as_str()),
        _ => None,
    }
}

/// The string under a number of the message under 3.
fn text_inside(value: &Value, number: u32) -> Option<&str> {
    match value.get(3) {
        Some(Slot::One(Item::Message(message))) => text_of(message.get(number)),
        _ => None,
    }
}

/// The value with a string set at a path.
fn set(
    alloc: Global,
    types: &Types,
    path: &[u32],
    text: &str,
    value: Value,
) -> Result<Value, NoMemory> {
    let slot = Slot::One(Item::Text(Text::copy_of(alloc, text)?));
    set_path(alloc, types, TypeId(0), path, &slot, value)
}

#[test]
fn a_path_makes_its_messages_and_clears_its_oneofs(rt: HostRuntime) -> Result<(), Fail> {
    let types = chained(rt.alloc())?;
    let named = set(rt.alloc(), &types, &[2], "a", Value::new(rt.alloc()))?;
    assert!(rt; text_of(named.get(2)) == Some("a"));
    let inside = set(rt.alloc(), &types, &[3, 1], "b", named)?;
    assert!(rt; inside.get(2).is_none());
    assert!(rt; text_inside(&inside, 1) == Some("b"));
    let both = set(rt.alloc(), &types, &[3, 2], "c", inside)?;
    assert!(rt; text_inside(&both, 1) == Some("b"));
    assert!(rt; text_inside(&both, 2) == Some("c"));
    let back = set(rt.alloc(), &types, &[2], "d", both)?;
    assert!(rt; back.get(3).is_none());
    assert!(rt; text_of(back.get(2)) == Some("d"));
    Ok(())
}
