//! Fields by their names.
ghost use Rattle.std.specs.Prelude.{◌≡◌, map, option_and_then, slice_get, IfOk};
ghost use Rattle.std.specs.Option.{option_copied};
ghost use Rattle.descriptor_pool.specs.NameIndex.{index_at};
ghost use Rattle.linked_api.specs.FieldPaths.{field_named};
ghost use Rattle.linked_bindings.specs.FieldIndexes.{AreFieldIndexes, IsFieldIndex};
ghost use Rattle.message_types.specs.Types.{fields_of};
ghost use Rattle.message_types.specs.declared.fields.Field.{Field as FieldOf};

use base::NoMemory;
use descriptor_pool::index_of;
use schema::{Field, MessageType, TypeId, Types};
use std::alloc::Global;
use std::collections::BTreeMap;
use std::marker::Model;

/// The types, and the places of their fields by name, so that a field is found in the logarithm of their
/// number.
#[derive(Drop)]
pub struct FieldNames<'a> {
    types: &'a Types,
    indexes: Vec<BTreeMap<&'a [u8], usize>>,
}

impl<'a> Model for FieldNames<'a> {
    ghost use Rattle.message_types.specs.declared.messages.Types.{Types as Seen};
    ghost use Rattle.linked_bindings.specs.FieldIndexes.{AreFieldIndexes};

    ghost Value = { Seen };

    ghost view = { λ n. n.types.now };

    ghost invariant = { λ n. AreFieldIndexes n.types.now.messages n.indexes.items };
}

/// The names of fields.
fn names_of<'a>(alloc: Global, fields: &'a [Field]) -> Result<Vec<&'a [u8]>, NoMemory>
    ensures { IfOk result (λ ns. map (λ n. n.now) ns.items ≡ map (λ f. f.name) fields.now) }
{
    let mut names = Vec::new(alloc);
    for field in fields {
        names.push(field.name.as_str().as_bytes())?;
    }
    Ok(names)
}

/// The place of each name among fields: that of the first field which has it.
fn field_index<'a>(
    alloc: Global,
    fields: &'a [Field],
) -> Result<BTreeMap<&'a [u8], usize>, NoMemory>
    ensures { IfOk result (λ index. IsFieldIndex fields.now index) }
{
    let names = names_of(alloc, fields)?;
    index_of(alloc, names.as_slice())
}

/// The places of the fields of each message type.
fn field_indexes<'a>(
    alloc: Global,
    messages: &'a [MessageType],
) -> Result<Vec<BTreeMap<&'a [u8], usize>>, NoMemory>
    ensures { IfOk result (λ indexes. AreFieldIndexes messages.now indexes.items) }
{
    let mut indexes = Vec::new(alloc);
    for message in messages {
        indexes.push(field_index(alloc, message.fields.as_slice())?)?;
    }
    Ok(indexes)
}

/// The field at a place, if there is one.
fn field_at(fields: &[Field], place: Option<usize>) -> Option<&Field>
    ensures { option_copied result ≡ option_and_then (λ k. slice_get fields.now k) place }
{
    match place {
        Some(place) => fields.get(place),
        None => None,
    }
}

/// The places of the fields of a message type, if there is such a type.
fn index_of_type<'a, 'b>(
    indexes: &'b [BTreeMap<&'a [u8], usize>],
    id: TypeId,
) -> Option<&'b BTreeMap<&'a [u8], usize>>
    ensures { option_copied result ≡ slice_get indexes.now id.0 }
{
    indexes.get(id.0 as usize)
}

/// The place of a name.
fn place_named(index: &BTreeMap<&[u8], usize>, name: &str) -> Option<usize>
    ensures { result ≡ index_at index.now name.now }
{
    index.get(name.as_bytes()).copied()
}

impl<'a> FieldNames<'a> {
    /// The names of the fields of these types. Takes time n log n in all fields.
    pub fn new(alloc: Global, types: &'a Types) -> Result<FieldNames<'a>, NoMemory>
        ensures { IfOk result (λ names. names ≡ types.now) }
    {
        let indexes = field_indexes(alloc, types.messages.as_slice())?;
        Ok(FieldNames { types, indexes })
    }

    /// The types.
    pub fn types(&self) -> &'a Types
        ensures { result.now ≡ self.now }
    {
        self.types
    }

    /// The first field of a message type that has this name (the name in the .proto file).
    pub fn field_named(&self, id: TypeId, name: &str) -> Option<&'a Field>
        ensures { option_copied result ≡ field_named (fields_of self.now id) name.now }
    {
        match index_of_type(self.indexes.as_slice(), id) {
            Some(index) => field_at(self.types.fields(id), place_named(index, name)),
            None => None,
        }
    }
}
