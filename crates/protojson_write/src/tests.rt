//! Values with well-known types that have no text or are held to a limit, in each place where one may stand.

use crate::{ShowFault, show};
use base::{List, NoMemory, Text};
use field_index::IndexedTypes;
use schema::{
    Field, Item, Key, Kind, Known, MessageType, Pairs, Presence, Scalar, Shape, Slot, TypeId,
    Types, Value, valid,
};
use std::alloc::Global;
use std::test::Fail;

/// A field whose JSON name is its name.
fn field(
    alloc: Global,
    name: &str,
    number: u32,
    kind: Kind,
    shape: Shape,
) -> Result<Field, NoMemory> {
    let presence = match (shape, kind) {
        (Shape::Single, Kind::Message(_)) | (Shape::Member(_), _) => Presence::Explicit,
        _ => Presence::Implicit,
    };
    Ok(Field {
        name: Text::copy_of(alloc, name)?,
        json: Text::copy_of(alloc, name)?,
        number,
        kind,
        shape,
        presence,
        packed: false,
    })
}

/// A message type.
fn message(
    alloc: Global,
    name: &str,
    known: Known,
    fields: List<Field>,
) -> Result<MessageType, NoMemory> {
    Ok(MessageType {
        name: Text::copy_of(alloc, name)?,
        known,
        fields,
    })
}

/// The fields of a time or a duration.
fn moment_fields(alloc: Global) -> Result<List<Field>, NoMemory> {
    let mut fields = List::new(alloc);
    fields.push(field(alloc, "seconds", 1, Kind::One(Scalar::Int64), Shape::Single)?)?;
    fields.push(field(alloc, "nanos", 2, Kind::One(Scalar::Int32), Shape::Single)?)?;
    Ok(fields)
}

/// Fields of a type in each shape: single, in a list, as the value of an entry, and in a oneof.
fn fields_of(alloc: Global, kind: Kind) -> Result<List<Field>, NoMemory> {
    let mut fields = List::new(alloc);
    fields.push(field(alloc, "one", 1, kind, Shape::Single)?)?;
    fields.push(field(alloc, "many", 2, kind, Shape::Many)?)?;
    fields.push(field(alloc, "keyed", 3, kind, Shape::Map(Scalar::Bool))?)?;
    fields.push(field(alloc, "member", 4, kind, Shape::Member(0))?)?;
    fields.push(field(alloc, "inner", 5, Kind::Message(TypeId(0)), Shape::Single)?)?;
    Ok(fields)
}

/// A type with fields of a well-known type (0), and that type (1).
fn types_of(alloc: Global, known: Known, fields: List<Field>) -> Result<Types, NoMemory> {
    let mut messages = List::new(alloc);
    let outer = fields_of(alloc, Kind::Message(TypeId(1)))?;
    messages.push(message(alloc, "p.Outer", Known::Plain, outer)?)?;
    messages.push(message(alloc, "google.protobuf.Known", known, fields)?)?;
    Ok(Types {
        messages,
        enums: List::new(alloc),
    })
}

/// A message with numbers at its fields 1 and 2; 0 is not stored.
fn numbers(alloc: Global, first: i128, second: i128) -> Result<Value, NoMemory> {
    let mut value = Value::new(alloc);
    if first != 0 {
        value.set(1, Slot::One(Item::Number(first)))?;
    }
    if second != 0 {
        value.set(2, Slot::One(Item::Number(second)))?;
    }
    Ok(value)
}

/// A message with one slot.
fn with_slot(alloc: Global, number: u32, slot: Slot) -> Result<Value, NoMemory> {
    let mut value = Value::new(alloc);
    value.set(number, slot)?;
    Ok(value)
}

/// A slot of a list of two messages.
fn listed(alloc: Global, first: Value, second: Value) -> Result<Slot, NoMemory> {
    let mut items = List::new(alloc);
    items.push(Item::Message(first))?;
    items.push(Item::Message(second))?;
    Ok(Slot::Many(items))
}

/// A slot of a map of two messages, at false and at true.
fn mapped(alloc: Global, first: Value, second: Value) -> Result<Slot, NoMemory> {
    let mut pairs = Pairs::new(alloc);
    pairs.put(Key::Truth(false), Item::Message(first))?;
    pairs.put(Key::Truth(true), Item::Message(second))?;
    Ok(Slot::Pairs(pairs))
}

/// The text of a value that is shown behind `>`, or what is told in place of it.
fn shown(
    alloc: Global,
    types: &Types,
    id: TypeId,
    value: &Value,
    limit: u64,
) -> Result<Vec<u8>, NoMemory> {
    let mut out = Vec::new(alloc);
    let indexed = IndexedTypes::new(alloc, types)?;
    if !valid(types, id, value) {
        out.extend_from_slice(b"not valid")?;
        return Ok(out);
    }
    out.extend_from_slice(b">")?;
    match show(&indexed, id, None, value, limit, &mut out) {
        Ok(()) => {}
        Err(ShowFault::Unprintable) => out.extend_from_slice(b"no text")?,
        Err(ShowFault::TooLong) => out.extend_from_slice(b"too long")?,
        Err(ShowFault::NoMemory) => return Err(NoMemory),
    }
    Ok(out)
}

#[test]
fn what_has_no_text_is_told_first(rt: HostRuntime) -> Result<(), Fail> {
    let alloc = rt.alloc();
    let types = types_of(alloc, Known::Duration, moment_fields(alloc)?)?;
    let mixed = numbers(alloc, 1, -1)?;
    let whole = shown(alloc, &types, TypeId(1), &mixed, 0)?;
    assert_eq!(rt; whole.as_slice(), b">no text".as_slice());
    let list = listed(alloc, numbers(alloc, 1, 0)?, mixed)?;
    let value = with_slot(alloc, 2, list)?;
    assert_eq!(rt;
        shown(alloc, &types, TypeId(0), &value, 0)?.as_slice(),
        b">no text".as_slice()
    );
    let deep = with_slot(alloc, 5, Slot::One(Item::Message(value)))?;
    assert_eq!(rt;
        shown(alloc, &types, TypeId(0), &deep, 9)?.as_slice(),
        b">no text".as_slice()
    );
    let map = mapped(alloc, numbers(alloc, 1, 0)?, numbers(alloc, 1 << 40, 0)?)?;
    let value = with_slot(alloc, 3, map)?;
    assert_eq!(rt;
        shown(alloc, &types, TypeId(0), &value, 0)?.as_slice(),
        b">no text".as_slice()
    );
    Ok(())
}

#[test]
fn what_has_a_text_is_held_to_the_limit(rt: HostRuntime) -> Result<(), Fail> {
    let alloc = rt.alloc();
    let types = types_of(alloc, Known::Duration, moment_fields(alloc)?)?;
    let fits = with_slot(alloc, 1, Slot::One(Item::Message(numbers(alloc, 1, 0)?)))?;
    assert_eq!(rt;
        shown(alloc, &types, TypeId(0), &fits, 11)?.as_slice(),
        b">too long".as_slice()
    );
    let text = shown(alloc, &types, TypeId(0), &fits, 12)?;
    assert_eq!(rt; text.as_slice(), b">{\"one\":\"1s\"}".as_slice());
    Ok(())
}
