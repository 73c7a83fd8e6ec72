//! Rows of values, entries and keys.

use base::Text;
use rows::{Row, kept};
use schema::{Item, Key, Pairs, Slot, TypeId, Types, Value, is_default, valid};
use std::alloc::Global;
use std::io;

/// The number that a word is, or 0.
fn number_of(word: &str) -> i128 {
    word.parse().unwrap_or(0)
}

/// Appends a number and a blank, or `none `.
fn put_item(alloc: Global, out: &mut String, item: Option<&Item>) -> io::Result<()> {
    match item {
        Some(Item::Number(number)) => out.push_str(format!(in alloc; "{number} ")?.as_str())?,
        _ => out.push_str("none ")?,
    }
    Ok(())
}

/// The same of a slot.
fn put_slot(alloc: Global, out: &mut String, slot: Option<&Slot>) -> io::Result<()> {
    match slot {
        Some(Slot::One(item)) => put_item(alloc, out, Some(item)),
        _ => put_item(alloc, out, None),
    }
}

/// Does what a word says to a value, and appends what it tells.
fn put_step(alloc: Global, out: &mut String, value: &mut Value, word: &str) -> io::Result<()> {
    if let Some((number, set)) = word.split_once('=') {
        let slot = Slot::One(Item::Number(number_of(set)));
        return kept(value.set(number.parse().unwrap_or(0), slot));
    }
    if let Some(number) = word.strip_suffix("?") {
        return put_slot(alloc, out, value.get(number.parse().unwrap_or(0)));
    }
    let number = word.strip_suffix("-").unwrap_or("0");
    let old = value.clear(number.parse().unwrap_or(0));
    put_slot(alloc, out, old.as_ref())
}

/// What the words tell of a value, its fields, and their number.
pub(crate) fn value_answer(alloc: Global, row: &mut Row) -> io::Result<String> {
    let mut out = String::new(alloc);
    let mut value = Value::new(alloc);
    for word in row.rest().split(' ') {
        put_step(alloc, &mut out, &mut value, word)?;
    }
    out.push_str("left ")?;
    for (number, slot) in value.fields() {
        out.push_str(format!(in alloc; "{number}=")?.as_str())?;
        put_slot(alloc, &mut out, Some(slot))?;
    }
    let count = value.fields().len();
    out.push_str(format!(in alloc; "of {count}")?.as_str())?;
    Ok(out)
}

/// Whether the value that words set is one of a type.
pub(crate) fn valid_answer(
    alloc: Global,
    types: &Types,
    id: TypeId,
    row: &mut Row,
) -> io::Result<String> {
    let mut out = String::new(alloc);
    let mut value = Value::new(alloc);
    for word in row.rest().split(' ') {
        if !word.is_empty() {
            put_step(alloc, &mut out, &mut value, word)?;
        }
    }
    out.push_str(if valid(types, id, &value) {
        "valid"
    } else {
        "not valid"
    })?;
    Ok(out)
}

/// The key that a word is: a number, a truth value, or else a text.
fn key_of(alloc: Global, word: &str) -> io::Result<Key> {
    match word {
        "true" => Ok(Key::Truth(true)),
        "false" => Ok(Key::Truth(false)),
        _ => match word.parse() {
            Ok(number) => Ok(Key::Number(number)),
            Err(_) => Ok(Key::Text(kept(Text::copy_of(alloc, word))?)),
        },
    }
}

/// Does what a word says to entries, and appends what it tells.
fn put_entry(alloc: Global, out: &mut String, pairs: &mut Pairs, word: &str) -> io::Result<()> {
    if let Some((key, set)) = word.split_once('=') {
        return kept(pairs.put(key_of(alloc, key)?, Item::Number(number_of(set))));
    }
    let key = key_of(alloc, word.strip_suffix("?").unwrap_or(word))?;
    put_item(alloc, out, pairs.get(&key))
}

/// Appends a key.
fn put_key(alloc: Global, out: &mut String, key: &Key) -> io::Result<()> {
    match key {
        Key::Number(number) => out.push_str(format!(in alloc; "{number}=")?.as_str())?,
        Key::Truth(truth) => out.push_str(format!(in alloc; "{truth}=")?.as_str())?,
        Key::Text(text) => out.push_str(format!(in alloc; "{}=", text.as_str())?.as_str())?,
    }
    Ok(())
}

/// What the words tell of entries, the entries by rising key, and their number in both ways.
pub(crate) fn pair_answer(alloc: Global, row: &mut Row) -> io::Result<String> {
    let mut out = String::new(alloc);
    let mut pairs = Pairs::new(alloc);
    out.push_str(format!(in alloc; "from {} ", pairs.len())?.as_str())?;
    for word in row.rest().split(' ') {
        put_entry(alloc, &mut out, &mut pairs, word)?;
    }
    out.push_str("left ")?;
    for (key, item) in pairs.iter() {
        put_key(alloc, &mut out, key)?;
        put_item(alloc, &mut out, Some(item))?;
    }
    let (len, count) = (pairs.len(), pairs.entries().len());
    out.push_str(format!(in alloc; "of {len} {count}")?.as_str())?;
    Ok(out)
}

/// How a key stands to another, of which a copy is taken.
pub(crate) fn key_answer(alloc: Global, one: &str, other: &str) -> io::Result<String> {
    let other = kept(key_of(alloc, other)?.copy(alloc))?;
    let order = key_of(alloc, one)?.cmp(&other);
    let word = if order.is_lt() {
        "less"
    } else if order.is_gt() {
        "greater"
    } else {
        "equal"
    };
    Ok(String::from_str(alloc, word)?)
}

/// Whether a number is the default.
pub(crate) fn default_answer(alloc: Global, word: &str) -> io::Result<String> {
    let is = is_default(&Item::Number(number_of(word)));
    Ok(String::from_str(alloc, if is { "default" } else { "other" })?)
}
