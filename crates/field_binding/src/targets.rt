//! Where the variables of a binding end.
ghost use Rattle.std.specs.Prelude.{◌≡◌, ◌<◌, ◌↔◌, IsTrue, List, ℕ, length};
ghost use Rattle.std.specs.List.{AllByRecursion};
ghost use Rattle.std.specs.Option.{option_copied};
ghost use Rattle.field_binding.specs.PathSettings.{BindsScalars, EndsAtScalar};
ghost use Rattle.linked_api.specs.LinkedApi.{IsLinked};
ghost use Rattle.linked_api.specs.NumberPaths.{last_field};

use crate::calls::call_of;
use base::List;
use linked_api::{Api, inner_message};
use schema::{Field, Kind, Scalar, TypeId, Types, find_field};

/// The field at the end of a path of numbers.
pub(crate) fn last_field<'a>(types: &'a Types, id: TypeId, numbers: &[u32]) -> Option<&'a Field>
    ensures { option_copied result ≡ last_field types.now id numbers.now }
{
    let mut inner = id;
    let mut left = numbers;
    while let Some((number, behind)) = left.split_first() {
        let field = find_field(types.fields(inner), *number)?;
        if behind.is_empty() {
            return Some(field);
        }
        inner = inner_message(types, field.kind)?;
        left = behind;
    }
    None
}

/// True where a path of numbers ends at a scalar other than bytes.
fn ends_at_scalar(types: &Types, id: TypeId, numbers: &[u32]) -> bool
    ensures { IsTrue result ↔ EndsAtScalar types.now id numbers.now }
{
    match last_field(types, id, numbers) {
        Some(field) => match field.kind {
            Kind::One(scalar) => scalar != Scalar::Bytes,
            Kind::Message(_) => false,
        },
        None => false,
    }
}

/// True where each path of numbers ends at a scalar other than bytes.
fn end_at_scalars(types: &Types, id: TypeId, paths: &[List<u32>]) -> bool
    ensures { IsTrue result ↔ AllByRecursion (EndsAtScalar types.now id) paths.now }
{
    for numbers in paths {
        if !ends_at_scalar(types, id, numbers.as_slice()) {
            return false;
        }
    }
    true
}

/// True where each variable of a binding ends at a scalar other than bytes, so that `bind_path` reads it. Takes no
/// memory.
pub fn binds_scalars(api: &Api, binding: u32) -> bool
    requires linked { IsLinked api.now }
    requires binding { binding < length api.now.bindings }
    ensures { IsTrue result ↔ BindsScalars api.now binding }
{
    let (bound, method) = call_of(api, binding);
    end_at_scalars(&api.types, method.input, bound.paths.as_slice())
}
