//! A value with fields of every shape.

use crate::decoded::digits_of;
use base::{List, NoMemory, Text};
use rows::kept;
use schema::{Item, Key, Pairs, Slot, TypeId, Types, Value, valid};
use std::alloc::Global;
use std::io;
use wire_format::{encode, encoded_len};

/// Three marks.
fn marks(alloc: Global) -> Result<Slot, NoMemory> {
    let mut marks = List::new(alloc);
    for mark in [1, 2, 300] {
        marks.push(Item::Number(mark))?;
    }
    Ok(Slot::Many(marks))
}

/// None of `b` and two of `a`.
fn stock(alloc: Global) -> Result<Slot, NoMemory> {
    let mut stock = Pairs::new(alloc);
    stock.put(Key::Text(Text::copy_of(alloc, "b")?), Item::Number(0))?;
    stock.put(Key::Text(Text::copy_of(alloc, "a")?), Item::Number(2))?;
    Ok(Slot::Pairs(stock))
}

/// The book that follows, with its title.
fn sequel(alloc: Global) -> Result<Slot, NoMemory> {
    let mut sequel = Value::new(alloc);
    sequel.set(1, Slot::One(Item::Text(Text::copy_of(alloc, "b")?)))?;
    Ok(Slot::One(Item::Message(sequel)))
}

/// A book with pages, marks, a stock, a shift, a shelf and a sequel.
fn full_book(alloc: Global) -> Result<Value, NoMemory> {
    let mut value = Value::new(alloc);
    value.set(3, Slot::One(Item::Number(-1)))?;
    value.set(4, marks(alloc)?)?;
    value.set(9, stock(alloc)?)?;
    value.set(12, Slot::One(Item::Number(-2)))?;
    value.set(13, Slot::One(Item::Number(-2)))?;
    value.set(14, sequel(alloc)?)?;
    Ok(value)
}

/// The canonical bytes of the full book, their number and the number that is told of them.
pub(crate) fn book_answer(alloc: Global, types: &Types, id: TypeId) -> io::Result<String> {
    let value = kept(full_book(alloc))?;
    if !valid(types, id, &value) {
        return Ok(String::from_str(alloc, "not valid")?);
    }
    let mut out = Vec::new(alloc);
    kept(encode(types, id, &value, &mut out))?;
    let digits = digits_of(alloc, out.as_slice())?;
    let told = encoded_len(types, id, &value);
    Ok(format!(in alloc; "{digits} {} {told}", out.len())?)
}
