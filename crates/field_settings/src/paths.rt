//! One slot at the end of a path of field numbers.
ghost use Rattle.std.specs.Prelude.{◌≡◌, IfOk};
ghost use Rattle.schema.specs.Value.{slot_at, slots_of, without_slot};
ghost use Rattle.field_settings.specs.AppliedSettings.{message_in};
ghost use Rattle.field_settings.specs.SettingSteps.{path_set};

use crate::fields::set_field;
use crate::stored::stored;
use base::NoMemory;
use schema::{Item, Kind, Slot, TypeId, Types, Value, find_field};
use std::alloc::Global;

/// Takes the message out that a field holds; the empty one where it holds none.
fn take_message(alloc: Global, value: &mut Value, number: u32) -> Value
    ensures message { result ≡ message_in (slot_at value.old number) }
    ensures left { slots_of value.new ≡ without_slot (slots_of value.old) number }
{
    match value.clear(number) {
        Some(Slot::One(Item::Message(message))) => message,
        _ => Value::new(alloc),
    }
}

/// The value with a copy of the slot set at the end of the path. No message on the way is copied: each is taken
/// out, and put back with the rest of the path set in it. A path that leads to no field leaves the value.
pub(crate) fn set_path(
    alloc: Global,
    types: &Types,
    id: TypeId,
    path: &[u32],
    slot: &Slot,
    value: Value,
) -> Result<Value, NoMemory>
    ensures { IfOk result (λ w. w ≡ path_set types.now id path.now slot.now value) }
{
    let Some((number, rest)) = path.split_first() else {
        return Ok(value);
    };
    let fields = types.fields(id);
    let Some(field) = find_field(fields, *number) else {
        return Ok(value);
    };
    if rest.is_empty() {
        return set_field(fields, field, stored(alloc, field, slot)?, value);
    }
    let Kind::Message(inner) = field.kind else {
        return Ok(value);
    };
    let mut outer = value;
    let message = take_message(alloc, &mut outer, *number);
    let set = set_path(alloc, types, inner, rest, slot, message)?;
    set_field(fields, field, Some(Slot::One(Item::Message(set))), outer)
}
