//! What is wrong with the name of a parameter (google/api/http.proto, HttpRule).
ghost use Rattle.std.specs.Prelude.{◌≡◌, List, nat_lt, IfOk};
ghost use Rattle.linked_api.specs.LinkedApi.{begins_path};
ghost use Rattle.query_settings.specs.ParameterFaults.{body_takes, is_no_map, is_settable, is_taken, left_by, levels_of};
ghost use Rattle.query_settings.specs.QuerySettings.{Assignment};
ghost use Rattle.query_settings.specs.QuerySteps.{IsJudging, Stands};
ghost use Rattle.query_settings.specs.QueryTargets.{target_of};

use crate::fault::{ParameterFault, ParameterKind};
use crate::gathered::{Gathered, numbers_of};
use crate::targets::{Target, target_of};
use base::{List, NoMemory};
use field_index::IndexedTypes;
use http_rules::{Binding, Body};
use linked_api::is_leaf;
use schema::{Kind, MAX_LEVELS, Shape, TypeId, Types};
use std::alloc::Global;

/// What a name names in a request: nothing where the body is the whole message.
pub(crate) fn target_in(
    alloc: Global,
    types: &IndexedTypes<'_>,
    input: TypeId,
    body: &Body,
    name: &[u8],
) -> Result<Option<Target>, NoMemory>
    ensures { IfOk result (λ target. target ≡ left_by body.now (target_of types.now input name.now)) }
{
    match body {
        Body::Whole => Ok(None),
        _ => target_of(alloc, types, input, name),
    }
}

/// True where one path begins another.
fn begins_path(path: &[u32], other: &[u32]) -> bool
    ensures { result ≡ begins_path path.now other.now }
{
    let mut left = path;
    let mut right = other;
    while let Some((n, behind)) = left.split_first() {
        let Some((m, rest)) = right.split_first() else {
            return false;
        };
        if *n != *m {
            return false;
        }
        left = behind;
        right = rest;
    }
    true
}

/// True where the body's field is at these numbers or above them.
fn body_takes(body: &Body, numbers: &[u32]) -> bool
    ensures { result ≡ body_takes body.now numbers.now }
{
    match body {
        Body::Nothing => false,
        Body::Whole => true,
        Body::Part(n) => match numbers.first() {
            Some(first) => *n == *first,
            None => false,
        },
    }
}

/// True where a variable's field, or the body's, is at these numbers or above them.
fn is_taken(paths: &[List<u32>], body: &Body, numbers: &[u32]) -> bool
    ensures { result ≡ is_taken paths.now body.now numbers.now }
{
    for path in paths {
        if begins_path(path.as_slice(), numbers) {
            return true;
        }
    }
    body_takes(body, numbers)
}

/// True for a field that is no map.
fn is_no_map(shape: Shape) -> bool
    ensures { result ≡ is_no_map shape }
{
    match shape {
        Shape::Map(_) => false,
        _ => true,
    }
}

/// True where a field can be set by a text, or by one for each item.
fn is_settable(types: &Types, target: &Target) -> bool
    ensures { result ≡ is_settable types.now target.now }
{
    is_no_map(target.shape) && is_leaf(types, target.kind)
}

/// True where the message would have over 100 levels.
fn is_too_deep(target: &Target) -> bool
    ensures { result ≡ nat_lt 100 (levels_of target.now) }
{
    let most = match target.kind {
        Kind::One(_) => MAX_LEVELS as usize,
        Kind::Message(_) => MAX_LEVELS as usize - 1,
    };
    target.steps.len() > most
}

/// Judges what a name names. Gives its numbers where it may be set.
pub(crate) fn judge(
    alloc: Global,
    types: &Types,
    binding: &Binding,
    gathered: &Gathered,
    target: &Target,
) -> Result<Vec<u32>, ParameterFault>
    ensures { (made : List Assignment) → Stands gathered.now made
        → IsJudging types.now binding.now.paths binding.now.body made target.now result }
{
    let numbers = numbers_of(alloc, target.steps.as_slice())?;
    if is_taken(binding.paths.as_slice(), &binding.body, numbers.as_slice()) {
        return Err(ParameterFault::Wrong(ParameterKind::Taken));
    }
    if !is_settable(types, target) {
        return Err(ParameterFault::Wrong(ParameterKind::NotALeaf));
    }
    if gathered.clashes(alloc, target, numbers.as_slice())? {
        return Err(ParameterFault::Wrong(ParameterKind::Twice));
    }
    if is_too_deep(target) {
        return Err(ParameterFault::Wrong(ParameterKind::TooDeep));
    }
    Ok(numbers)
}
