//! What the name of a parameter names (google/api/http.proto, HttpRule).
ghost use Rattle.std.specs.Prelude.{◌≡◌, IfOk, option_map};
ghost use Rattle.std.specs.Option.{option_copied};
ghost use Rattle.message_types.specs.declared.fields.Shape.{Shape as ShapeOf};
ghost use Rattle.query_settings.specs.QueryTargets.{passes, step_of, target_at, target_of};
ghost use Rattle.schema.specs.Validity.{oneof_of};

use base::{List, NoMemory};
use field_index::IndexedTypes;
use linked_api::{inner_message, is_singular};
use query_parameters::first_piece;
use schema::{Field, Kind, Shape, TypeId, Types};
use std::alloc::Global;

/// A field on the way of a name.
#[derive(Clone, Copy, Debug)]
pub struct Step {
    /// Its number.
    pub number: u32,
    /// The index of the oneof of which it is a member.
    pub oneof: Option<u32>,
}

/// What a name names: a field, of the message or of one inside it.
#[derive(Debug, Drop)]
pub struct Target {
    /// The fields on the way, of which the last is the field.
    pub steps: List<Step>,
    /// What one value of the field is.
    pub kind: Kind,
    /// How many values it has.
    pub shape: Shape,
}

/// A field as a step.
fn step_of(field: &Field) -> Step
    ensures { result ≡ step_of field.now }
{
    let oneof = match field.shape {
        Shape::Member(oneof) => Some(oneof),
        _ => None,
    };
    Step {
        number: field.number,
        oneof,
    }
}

/// The plain message that a way passes into at a field.
fn passes(types: &Types, field: &Field) -> Option<TypeId>
    ensures { result ≡ passes types.now field.now }
{
    if is_singular(field.shape) {
        return inner_message(types, field.kind);
    }
    None
}

/// What a whole name names in a message of a type. Takes time in the length of the name and the logarithm of the
/// number of a message's fields.
pub(crate) fn target_of(
    alloc: Global,
    types: &IndexedTypes<'_>,
    input: TypeId,
    name: &[u8],
) -> Result<Option<Target>, NoMemory>
    ensures { IfOk result (λ target. target ≡ target_of types.now input name.now) }
{
    let mut steps = List::new(alloc);
    let mut inner = input;
    let mut left = Some(name);
    while let Some(names) = left {
        let (part, behind) = first_piece(names, b'.');
        let Some(field) = types.field_by_key(inner, part) else {
            return Ok(None);
        };
        steps.push(step_of(field))?;
        if behind.is_none() {
            return Ok(Some(Target {
                steps,
                kind: field.kind,
                shape: field.shape,
            }));
        }
        let Some(next) = passes(types.types(), field) else {
            return Ok(None);
        };
        inner = next;
        left = behind;
    }
    Ok(None)
}
