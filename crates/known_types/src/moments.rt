//! Durations and instants as messages (duration.proto, timestamp.proto).
ghost use Rattle.std.specs.Prelude.{◌≡◌, pos, if◌then◌else◌, IfOk, IfSome, IsNone, OnOk};
ghost use Rattle.std.specs.Ordering.{int_eq};
ghost use Rattle.known_types.specs.KnownAnswers.{IsMomentFound};
ghost use Rattle.known_types.specs.KnownTexts.{moment_value, number_as_slot, number_of_item, number_of_slot};
ghost use Rattle.schema.specs.Validity.{IsInt32, IsInt64};
ghost use Rattle.schema.specs.Value.{slot_at, slots_of, with_slot};
ghost use Rattle.schema.specs.declared.value.Item.{out-Item};

use base::NoMemory;
use schema::{Item, Slot, Value};
use std::alloc::Global;
use time_texts::Moment;

/// The number of the field that holds whole seconds.
const SECONDS: u32 = 1;

/// The number of the field that holds billionths of a second.
const NANOS: u32 = 2;

/// Sets a number, unless it is 0, the default.
fn set_number(value: &mut Value, field: u32, number: i128) -> Result<(), NoMemory>
    ensures { OnOk result
        (slots_of value.new ≡ (if int_eq number (pos 0) then slots_of value.old
        else with_slot (slots_of value.old) field (number_as_slot number))) }
{
    if number == 0 {
        return Ok(());
    }
    value.set(field, Slot::One(Item::Number(number)))
}

/// The message of a duration or of an instant.
pub(crate) fn moment_value(alloc: Global, moment: Moment) -> Result<Value, NoMemory>
    ensures { IfOk result (λ value. value ≡ moment_value moment) }
{
    let mut value = Value::new(alloc);
    set_number(&mut value, SECONDS, moment.seconds as i128)?;
    set_number(&mut value, NANOS, moment.nanos as i128)?;
    Ok(value)
}

/// The number of an item, or 0.
fn number_of_item(item: &Item) -> i128
    ensures { result ≡ number_of_item (out-Item item.now) }
{
    match item {
        Item::Number(number) => *number,
        _ => 0,
    }
}

/// The number of a field, 0 where it is absent.
fn number_at(value: &Value, field: u32) -> i128
    ensures { result ≡ number_of_slot (slot_at value.now field) }
{
    match value.get(field) {
        Some(Slot::One(item)) => number_of_item(item),
        _ => 0,
    }
}

/// A moment of two numbers, where they have 64 and 32 bits.
fn moment_with(seconds: i128, nanos: i128) -> Option<Moment>
    ensures some { IfSome result (λ moment. moment ≡ record { seconds = seconds; nanos = nanos }) }
    ensures none { IsNone result → IsInt64 seconds → IsInt32 nanos → ⊥ }
{
    match (i64::try_from(seconds), i32::try_from(nanos)) {
        (Ok(seconds), Ok(nanos)) => Some(Moment { seconds, nanos }),
        _ => None,
    }
}

/// The duration or the instant of a message, unless a number of it is too large for its kind.
pub(crate) fn moment_of(value: &Value) -> Option<Moment>
    ensures { IsMomentFound value.now result }
{
    moment_with(number_at(value, SECONDS), number_at(value, NANOS))
}
