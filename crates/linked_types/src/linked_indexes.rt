//! The places of messages and enums among those that are linked, by their indexes in the set.
ghost use Rattle.std.specs.Prelude.{◌≡◌, ◌<◌, ◌^◌, ◌≤◌, fold, length, IfOk, OnOk};
ghost use Rattle.std.specs.List.{flat_map};
ghost use Rattle.linked_types.specs.LinkedTypes.{index_from};
ghost use Rattle.linked_types.specs.IndexSteps.{HasIndexes, IsIndexOf};
ghost use Rattle.descriptor_pool.specs.ReachableTypes.{message_enums, messages_of, named_enum, reached_enums, with_index};

use base::NoMemory;
use descriptor_pool::{Joined, SetTypes};
use descriptors::FieldInfo;
use std::alloc::Global;
use std::collections::{BTreeMap, BTreeSet};
use std::marker::Model;

/// Indexes of the set, in the order in which they are linked.
#[derive(Drop)]
pub(crate) struct Places {
    indexes: Vec<usize>,
    by_index: BTreeMap<usize, u32>,
}

impl Model for Places {
    ghost use Rattle.std.specs.Prelude.{ℕ, List};
    ghost use Rattle.linked_types.specs.IndexSteps.{IsIndexOf};

    ghost Value = { List ℕ };

    ghost view = { λ p. p.indexes.items };

    ghost invariant = { λ p. IsIndexOf p.by_index p.indexes.items };
}

/// Where each index stands among some: the first that is it.
fn index_of(alloc: Global, indexes: &[usize]) -> Result<BTreeMap<usize, u32>, NoMemory>
    requires { length indexes.now < 2 ^ 32 }
    ensures { IfOk result (λ m. IsIndexOf m indexes.now) }
{
    let mut places = BTreeMap::new(alloc);
    let mut at = indexes.len() as u32;
    while at > 0 {
        at -= 1;
        places.insert(indexes[at as usize], at)?;
    }
    Ok(places)
}

impl Places {
    /// The places of indexes.
    fn new(alloc: Global, indexes: Vec<usize>) -> Result<Places, NoMemory>
        requires { length indexes.items < 2 ^ 32 }
        ensures { IfOk result (λ places. places ≡ indexes.items) }
    {
        let by_index = index_of(alloc, indexes.as_slice())?;
        Ok(Places { indexes, by_index })
    }

    /// The indexes, in order.
    pub(crate) fn indexes(&self) -> &[usize]
        ensures { result.now ≡ self.now }
    {
        self.indexes.as_slice()
    }

    /// The place of an index: of the first that is it.
    pub(crate) fn place(&self, index: usize) -> Option<u32>
        ensures { result ≡ index_from 0 self.now index }
    {
        self.by_index.get(&index).copied()
    }
}

/// The indexes of the messages that are reached.
fn message_indexes(alloc: Global, reached: &[Joined<'_>]) -> Result<Vec<usize>, NoMemory>
    ensures { IfOk result (λ is. is.items ≡ messages_of reached.now) }
{
    let mut indexes = Vec::new(alloc);
    for joined in reached {
        indexes.push(joined.message)?;
    }
    Ok(indexes)
}

/// The places of the messages that are reached.
pub(crate) fn message_places(alloc: Global, reached: &[Joined<'_>]) -> Result<Places, NoMemory>
    requires { length reached.now < 2 ^ 32 }
    ensures { IfOk result (λ places. places ≡ messages_of reached.now) }
{
    Places::new(alloc, message_indexes(alloc, reached)?)
}

/// Appends the index of an enum, where it is new.
fn put_enum<'a>(
    enums: &mut Vec<usize>,
    seen: &mut BTreeSet<usize>,
    types: &SetTypes<'a>,
    field: &'a FieldInfo,
) -> Result<(), NoMemory>
    requires { HasIndexes seen.old enums.old.items }
    ensures enums { OnOk result (enums.new.items ≡ fold with_index enums.old.items (named_enum types.now field.now)) }
    ensures seen { OnOk result (HasIndexes seen.new enums.new.items) }
{
    let value = types.value_field(field);
    match types.field_enum(value) {
        Some(index) => {
            if seen.insert(index)? {
                enums.push(index)?;
            }
            Ok(())
        }
        None => Ok(()),
    }
}

/// Appends the indexes of the enums that fields name, each where it is new.
fn put_enums<'a>(
    enums: &mut Vec<usize>,
    seen: &mut BTreeSet<usize>,
    types: &SetTypes<'a>,
    fields: &'a [FieldInfo],
) -> Result<(), NoMemory>
    requires { HasIndexes seen.old enums.old.items }
    ensures enums { OnOk result (enums.new.items ≡ fold with_index enums.old.items (flat_map (named_enum types.now) fields.now)) }
    ensures seen { OnOk result (HasIndexes seen.new enums.new.items) }
{
    for field in fields {
        put_enum(enums, seen, types, field)?;
    }
    Ok(())
}

/// The indexes of the enums that are reached, each where it is first named.
fn enum_indexes(
    alloc: Global,
    types: &SetTypes<'_>,
    reached: &[Joined<'_>],
) -> Result<Vec<usize>, NoMemory>
    ensures is { IfOk result (λ is. is.items ≡ reached_enums types.now reached.now) }
    ensures len { IfOk result (λ is. length is.items ≤ length types.now.enums) }
{
    let mut enums = Vec::new(alloc);
    let mut seen = BTreeSet::new(alloc);
    for joined in reached {
        put_enums(
            &mut enums,
            &mut seen,
            types,
            types.fields_at(joined.message),
        )?;
    }
    enums.truncate(types.enums().len());
    Ok(enums)
}

/// The places of the enums that are reached.
pub(crate) fn enum_places(
    alloc: Global,
    types: &SetTypes<'_>,
    reached: &[Joined<'_>],
) -> Result<Places, NoMemory>
    requires { length types.now.enums < 2 ^ 32 }
    ensures { IfOk result (λ places. places ≡ reached_enums types.now reached.now) }
{
    Places::new(alloc, enum_indexes(alloc, types, reached)?)
}
