//! The real oneofs of a message (descriptor.proto, proto3_optional), counted once.
ghost use Rattle.std.specs.Prelude.{◌≡◌, ◌||◌, ◌<◌, ℕ, false, IfOk, OnOk, nat_eq};
ghost use Rattle.std.specs.BTreeSet.{contains};
ghost use Rattle.std.specs.List.{list_any};
ghost use Rattle.std.specs.Option.{option_map_or};
ghost use Rattle.std.specs.Ordering.{nat_cmp};
ghost use Rattle.linked_types.specs.LinkedTypes.{is_real, makes_real, natural, real_before, real_number, real_oneof};
ghost use Rattle.linked_types.specs.RealNumbers.{AreRealNumbers};

use base::NoMemory;
use descriptors::FieldInfo;
use std::alloc::Global;
use std::collections::BTreeSet;

/// The index of the oneof that a field makes a real one: it is a member, and not optional in proto3.
fn real_index(field: &FieldInfo) -> Option<u32>
    ensures { (i : ℕ) → makes_real i field.now ≡ option_map_or (nat_eq i) result false }
{
    if field.proto3_optional {
        return None;
    }
    match field.oneof_index {
        Some(index) => match u32::try_from(index) {
            Ok(index) => Some(index),
            Err(_) => None,
        },
        None => None,
    }
}

/// Adds the oneof that a field makes a real one.
fn put_real(reals: &mut BTreeSet<u32>, field: &FieldInfo) -> Result<(), NoMemory>
    ensures { OnOk result ((i : ℕ) → contains nat_cmp reals.new i ≡ (contains nat_cmp reals.old i || makes_real i field.now)) }
{
    match real_index(field) {
        Some(index) => {
            reals.insert(index)?;
            Ok(())
        }
        None => Ok(()),
    }
}

/// The indexes of the real oneofs of fields.
fn real_set(alloc: Global, fields: &[FieldInfo]) -> Result<BTreeSet<u32>, NoMemory>
    ensures { IfOk result (λ reals. (i : ℕ) → contains nat_cmp reals i ≡ is_real fields.now i) }
{
    let mut reals = BTreeSet::new(alloc);
    for field in fields {
        put_real(&mut reals, field)?;
    }
    Ok(reals)
}

/// The number of each of so many oneofs among the real ones.
pub(crate) fn real_numbers(
    alloc: Global,
    fields: &[FieldInfo],
    len: u32,
) -> Result<Vec<Option<u32>>, NoMemory>
    ensures { IfOk result (λ numbers. AreRealNumbers fields.now numbers.items) }
{
    let reals = real_set(alloc, fields)?;
    let mut numbers = Vec::new(alloc);
    let mut count = 0;
    for at in 0..len {
        if reals.contains(&at) {
            numbers.push(Some(count))?;
            count += 1;
        } else {
            numbers.push(None)?;
        }
    }
    Ok(numbers)
}

/// True where a field makes the oneof of an index a real one.
fn makes_real(index: u32, field: &FieldInfo) -> bool
    ensures { result ≡ makes_real index field.now }
{
    match field.oneof_index {
        Some(own) => i64::from(own) == i64::from(index) && !field.proto3_optional,
        None => false,
    }
}

/// True where a oneof is real: not all of its members are optional in proto3.
fn is_real(fields: &[FieldInfo], index: u32) -> bool
    ensures { result ≡ is_real fields.now index }
{
    for field in fields {
        if makes_real(index, field) {
            return true;
        }
    }
    false
}

/// The number of the real oneof of an index among the real ones, searched in all fields.
fn searched_number(fields: &[FieldInfo], index: u32) -> Option<u32>
    ensures { result ≡ real_number fields.now index }
{
    if !is_real(fields, index) {
        return None;
    }
    let mut count = 0;
    for at in 0..index {
        count += u32::from(is_real(fields, at));
    }
    Some(count)
}

/// The number of the real oneof of an index among the real ones: of a declared one it is at hand.
fn real_number(fields: &[FieldInfo], numbers: &[Option<u32>], index: u32) -> Option<u32>
    requires { AreRealNumbers fields.now numbers.now }
    ensures { result ≡ real_number fields.now index }
{
    match numbers.get(index as usize) {
        Some(number) => *number,
        None => searched_number(fields, index),
    }
}

/// A number that is not negative.
pub(crate) fn natural(number: i32) -> Option<u32>
    ensures { result ≡ natural number }
{
    match u32::try_from(number) {
        Ok(number) => Some(number),
        Err(_) => None,
    }
}

/// The number of the real oneof of an index; a negative one is that of none.
pub(crate) fn real_oneof(
    fields: &[FieldInfo],
    numbers: &[Option<u32>],
    index: Option<i32>,
) -> Option<u32>
    requires { AreRealNumbers fields.now numbers.now }
    ensures { result ≡ real_oneof fields.now index }
{
    match u32::try_from(index?) {
        Ok(index) => real_number(fields, numbers, index),
        Err(_) => None,
    }
}
