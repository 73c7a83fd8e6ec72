//! One field of a message, and the oneof that it may be a member of (the Protobuf language guide, "Oneof").
ghost use Rattle.std.specs.Prelude.{◌≡◌, IfOk};
ghost use Rattle.schema.specs.Value.{slots_of};
ghost use Rattle.field_settings.specs.SettingSteps.{field_set, is_other_member as is_other_member_of, without_others};

use base::NoMemory;
use schema::{Field, Shape, Slot, Value};

/// True where `other` is another member of the field's oneof.
fn is_other_member(field: &Field, other: &Field) -> bool
    ensures { result ≡ is_other_member_of field.now other.now }
{
    match (field.shape, other.shape) {
        (Shape::Member(oneof), Shape::Member(its)) => {
            other.number != field.number && oneof == its
        }
        _ => false,
    }
}

/// Clears the other members of the field's oneof.
fn clear_others(fields: &[Field], field: &Field, value: &mut Value)
    ensures { slots_of value.new ≡ without_others field.now fields.now (slots_of value.old) }
{
    for other in fields {
        if is_other_member(field, other) {
            value.clear(other.number);
        }
    }
}

/// The value with a field that holds the slot, or nothing, and without the other members of its oneof.
pub(crate) fn set_field(
    fields: &[Field],
    field: &Field,
    held: Option<Slot>,
    value: Value,
) -> Result<Value, NoMemory>
    ensures { IfOk result (λ w. w ≡ field_set fields.now field.now held value) }
{
    let mut changed = value;
    clear_others(fields, field, &mut changed);
    match held {
        Some(slot) => changed.set(field.number, slot)?,
        None => {
            changed.clear(field.number);
        }
    }
    Ok(changed)
}
