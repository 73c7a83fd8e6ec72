//! All types that are declared, with the maps of their fields and values.
ghost use Rattle.std.specs.Prelude.{◌≡◌, map, IfOk};
ghost use Rattle.std.specs.Option.{option_copied};
ghost use Rattle.json_meanings.specs.EnumNames.{values_of};
ghost use Rattle.json_meanings.specs.PartialMessages.{field_named};
ghost use Rattle.message_types.specs.Types.{field_in, fields_of};

use crate::indexed_enums::IndexedEnum;
use crate::indexed_fields::IndexedFields;
use base::NoMemory;
use message_types::{EnumId, EnumType, Field, MessageType, TypeId, Types};
use std::alloc::Global;
use std::marker::Model;

/// The types, with the maps of the fields of each message type and of the values of each enum.
#[derive(Drop)]
pub struct IndexedTypes<'a> {
    types: &'a Types,
    messages: Vec<IndexedFields<'a>>,
    enums: Vec<IndexedEnum<'a>>,
    no_fields: IndexedFields<'a>,
    no_values: IndexedEnum<'a>,
}

impl<'a> Model for IndexedTypes<'a> {
    ghost use Rattle.message_types.specs.declared.messages.Types.{Types as Seen};
    ghost use Rattle.field_index.specs.TypeIndexes.{AreIndexes};

    ghost Value = { Seen };

    ghost view = { λ t. t.types.now };

    ghost invariant = { λ t. AreIndexes t.types.now t.messages.items t.enums.items t.no_fields t.no_values };
}

/// The maps of the fields of each message type.
fn message_indexes<'a>(
    alloc: Global,
    messages: &'a [MessageType],
) -> Result<Vec<IndexedFields<'a>>, NoMemory>
    ensures { IfOk result (λ is. is.items ≡ map (λ m. m.fields) messages.now) }
{
    let mut indexes = Vec::new(alloc);
    for message in messages {
        indexes.push(IndexedFields::new(alloc, message.fields.as_slice())?)?;
    }
    Ok(indexes)
}

/// The maps of the values of each enum.
fn enum_indexes<'a>(alloc: Global, enums: &'a [EnumType]) -> Result<Vec<IndexedEnum<'a>>, NoMemory>
    ensures { IfOk result (λ is. is.items ≡ map (λ e. e.values) enums.now) }
{
    let mut indexes = Vec::new(alloc);
    for declared in enums {
        indexes.push(IndexedEnum::new(alloc, declared.values.as_slice())?)?;
    }
    Ok(indexes)
}

impl<'a> IndexedTypes<'a> {
    /// The maps of these types. Takes time n log n in all fields and all values of enums.
    pub fn new(alloc: Global, types: &'a Types) -> Result<IndexedTypes<'a>, NoMemory>
        ensures { IfOk result (λ t. t ≡ types.now) }
    {
        let messages = message_indexes(alloc, types.messages.as_slice())?;
        let enums = enum_indexes(alloc, types.enums.as_slice())?;
        let no_fields = IndexedFields::new(alloc, &[])?;
        let no_values = IndexedEnum::new(alloc, &[])?;
        Ok(IndexedTypes {
            types,
            messages,
            enums,
            no_fields,
            no_values,
        })
    }

    /// The types.
    pub fn types(&self) -> &'a Types
        ensures { result.now ≡ self.now }
    {
        self.types
    }

    /// The fields of a message type; none where there is no such type.
    pub fn fields(&self, id: TypeId) -> &IndexedFields<'a>
        ensures { result.now ≡ fields_of self.now id }
    {
        let Some(fields) = self.messages.get(id.0 as usize) else {
            return &self.no_fields;
        };
        fields
    }

    /// The values of an enum; none where there is no such enum.
    pub fn values(&self, id: EnumId) -> &IndexedEnum<'a>
        ensures { result.now ≡ values_of self.now id }
    {
        let Some(values) = self.enums.get(id.0 as usize) else {
            return &self.no_values;
        };
        values
    }

    /// The first field of a message type that a key names, by its JSON name or by its name in the .proto file; none
    /// where no field has it. The bytes of the key need not be UTF-8. Takes time log n in the fields, and no memory.
    pub fn field_by_key(&self, id: TypeId, key: &[u8]) -> Option<&'a Field>
        ensures { option_copied result ≡ field_named key.now (fields_of self.now id) }
    {
        self.fields(id).by_key(key)
    }

    /// The first field of a message type that has the number.
    pub fn field_by_number(&self, id: TypeId, number: u32) -> Option<&'a Field>
        ensures { option_copied result ≡ field_in (fields_of self.now id) number }
    {
        self.fields(id).by_number(number)
    }
}
