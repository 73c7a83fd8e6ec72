//! What a field of a value holds.
ghost use Rattle.std.specs.Prelude.{◌≡◌, map, IfOk};
ghost use Rattle.std.specs.Option.{option_copied};
ghost use Rattle.descriptor_set.specs.FieldContents as held;

use base::{NoMemory, Text};
use schema::{Item, Slot, Value};
use std::alloc::Global;

/// The item of a singular field, where it stands.
fn item(value: &Value, number: u32) -> Option<&Item>
    ensures { option_copied result ≡ held.item_at value.now number }
{
    match value.get(number) {
        Some(Slot::One(item)) => Some(item),
        _ => None,
    }
}

/// The items of a repeated field, in order.
fn items(value: &Value, number: u32) -> &[Item]
    ensures { result.now ≡ held.items_at value.now number }
{
    match value.get(number) {
        Some(Slot::Many(items)) => items.as_slice(),
        _ => &[],
    }
}

/// A string field, where it stands.
pub(crate) fn text(alloc: Global, value: &Value, number: u32) -> Result<Option<Text>, NoMemory>
    ensures { IfOk result (λ text. text ≡ held.text_at value.now number) }
{
    match item(value, number) {
        Some(Item::Text(text)) => Ok(Some(Text::copy_of(alloc, text.as_str())?)),
        _ => Ok(None),
    }
}

/// A string field, empty where it is absent.
pub(crate) fn text_or_empty(alloc: Global, value: &Value, number: u32) -> Result<Text, NoMemory>
    ensures { IfOk result (λ text. text ≡ held.text_or_empty value.now number) }
{
    match item(value, number) {
        Some(Item::Text(text)) => Text::copy_of(alloc, text.as_str()),
        _ => Ok(Text::new(alloc)),
    }
}

/// A number, where it has 32 bits.
fn as_int32(number: i128) -> Option<i32>
    ensures { result ≡ held.as_int32 number }
{
    match i32::try_from(number) {
        Ok(number) => Some(number),
        Err(_) => None,
    }
}

/// An int32 or enum field, where it stands.
pub(crate) fn int(value: &Value, number: u32) -> Option<i32>
    ensures { result ≡ held.number_at value.now number }
{
    match item(value, number) {
        Some(Item::Number(number)) => as_int32(*number),
        _ => None,
    }
}

/// An int32 or enum field, 0 where it is absent.
pub(crate) fn int_or_zero(value: &Value, number: u32) -> i32
    ensures { result ≡ held.number_or_zero value.now number }
{
    int(value, number).unwrap_or(0)
}

/// A bool field, where it stands.
pub(crate) fn truth(value: &Value, number: u32) -> Option<bool>
    ensures { result ≡ held.truth_at value.now number }
{
    match item(value, number) {
        Some(Item::Truth(truth)) => Some(*truth),
        _ => None,
    }
}

/// A bool field, false where it is absent.
pub(crate) fn is_set(value: &Value, number: u32) -> bool
    ensures { result ≡ held.truth_or_false value.now number }
{
    truth(value, number).unwrap_or(false)
}

/// A message field, where it stands.
pub(crate) fn message(value: &Value, number: u32) -> Option<&Value>
    ensures { option_copied result ≡ held.message_at value.now number }
{
    match item(value, number) {
        Some(Item::Message(message)) => Some(message),
        _ => None,
    }
}

/// The messages among items, in order.
fn messages_in(alloc: Global, items: &[Item]) -> Result<Vec<&Value>, NoMemory>
    ensures { IfOk result (λ found. map (λ v. v.now) found.items ≡ held.messages_in items.now) }
{
    let mut found = Vec::new(alloc);
    for item in items {
        match item {
            Item::Message(message) => found.push(message)?,
            _ => {}
        }
    }
    Ok(found)
}

/// The messages of a repeated field, in order.
pub(crate) fn messages(alloc: Global, value: &Value, number: u32) -> Result<Vec<&Value>, NoMemory>
    ensures { IfOk result (λ found. map (λ v. v.now) found.items ≡ held.messages_at value.now number) }
{
    messages_in(alloc, items(value, number))
}
