//! The numbers of the fields of a path (google/api/http.proto, FieldPath).
ghost use Rattle.std.specs.Prelude.{◌≡◌, ◌++◌, ◌∷◌, [], option_map, IfOk};
ghost use Rattle.std.specs.Option.{option_copied};
ghost use Rattle.linked_api.specs.FieldPaths.{inner_named, leaf_named, path_numbers, singular_named};

use crate::field_names::FieldNames;
use base::{List, NoMemory, Text};
use linked_api::{inner_message, is_leaf, is_singular};
use schema::{Field, TypeId};
use std::alloc::Global;

/// The field of a name, where it is singular.
fn singular_named<'a>(names: &FieldNames<'a>, id: TypeId, name: &str) -> Option<&'a Field>
    ensures { option_copied result ≡ singular_named names.now id name.now }
{
    match names.field_named(id, name) {
        Some(field) => {
            if is_singular(field.shape) {
                return Some(field);
            }
            None
        }
        None => None,
    }
}

/// The number of the field of a name, where it is a singular leaf.
fn leaf_named(names: &FieldNames<'_>, id: TypeId, name: &str) -> Option<u32>
    ensures { result ≡ leaf_named names.now id name.now }
{
    match singular_named(names, id, name) {
        Some(field) => {
            if is_leaf(names.types(), field.kind) {
                return Some(field.number);
            }
            None
        }
        None => None,
    }
}

/// The number of the field of a name, and the plain message that it leads into.
fn inner_named(names: &FieldNames<'_>, id: TypeId, name: &str) -> Option<(u32, TypeId)>
    ensures { result ≡ inner_named names.now id name.now }
{
    let field = singular_named(names, id, name)?;
    let inner = inner_message(names.types(), field.kind)?;
    Some((field.number, inner))
}

/// The numbers so far with that of the leaf, if there is one.
fn with_leaf(numbers: List<u32>, leaf: Option<u32>) -> Result<Option<List<u32>>, NoMemory>
    ensures { IfOk result (λ o. o ≡ option_map (λ n. numbers ++ n ∷ []) leaf) }
{
    let mut numbers = numbers;
    match leaf {
        Some(number) => {
            numbers.push(number)?;
            Ok(Some(numbers))
        }
        None => Ok(None),
    }
}

/// The numbers of the fields of a path that begins at a type, if it leads to a leaf.
pub(crate) fn path_numbers(
    alloc: Global,
    names: &FieldNames<'_>,
    id: TypeId,
    path: &[Text],
) -> Result<Option<List<u32>>, NoMemory>
    ensures { IfOk result (λ o. o ≡ path_numbers names.now id path.now) }
{
    let mut numbers = List::new(alloc);
    let mut from = id;
    let mut left = path;
    while let Some((name, rest)) = left.split_first() {
        if rest.is_empty() {
            return with_leaf(numbers, leaf_named(names, from, name.as_str()));
        }
        match inner_named(names, from, name.as_str()) {
            Some((number, inner)) => {
                numbers.push(number)?;
                from = inner;
                left = rest;
            }
            None => return Ok(None),
        }
    }
    Ok(None)
}
