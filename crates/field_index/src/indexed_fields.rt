//! The fields of one message type, by name and by number.
ghost use Rattle.std.specs.Prelude.{◌≡◌, IfOk, OnOk};
ghost use Rattle.std.specs.Option.{option_copied};
ghost use Rattle.field_index.specs.FieldMaps.{HasField, HasKeys, IsKeyMap, IsNumberMap};
ghost use Rattle.json_meanings.specs.PartialMessages.{field_named};
ghost use Rattle.message_types.specs.Types.{field_in};

use base::NoMemory;
use message_types::Field;
use std::alloc::Global;
use std::collections::BTreeMap;
use std::marker::Model;

/// The fields of a message type, in declared order, with a map from their names and one from their numbers.
#[derive(Drop)]
pub struct IndexedFields<'a> {
    fields: &'a [Field],
    by_key: BTreeMap<&'a [u8], &'a Field>,
    by_number: BTreeMap<u32, &'a Field>,
}

impl<'a> Model for IndexedFields<'a> {
    ghost use Rattle.std.specs.Prelude.{List};
    ghost use Rattle.field_index.specs.FieldMaps.{AreMaps};
    ghost use Rattle.message_types.specs.declared.fields.Field.{Field as Seen};

    ghost Value = { List Seen };

    ghost view = { λ f. f.fields.now };

    ghost invariant = { λ f. AreMaps f.fields.now f.by_key f.by_number };
}

/// Puts a field under its two names, in place of what was under them.
fn put_keys<'a>(map: &mut BTreeMap<&'a [u8], &'a Field>, field: &'a Field) -> Result<(), NoMemory>
    ensures { OnOk result (HasKeys map.old field.now map.new) }
{
    map.insert(field.name.as_str().as_bytes(), field)?;
    map.insert(field.json.as_str().as_bytes(), field)?;
    Ok(())
}

/// The map from names to the first field that has each.
fn key_map<'a>(
    alloc: Global,
    fields: &'a [Field],
) -> Result<BTreeMap<&'a [u8], &'a Field>, NoMemory>
    ensures { IfOk result (λ m. IsKeyMap m fields.now) }
{
    let mut map = BTreeMap::new(alloc);
    let mut at = fields.len();
    while at > 0 {
        at -= 1;
        put_keys(&mut map, &fields[at])?;
    }
    Ok(map)
}

/// Puts a field under its number, in place of what was under it.
#[tactic(auto, using(crate::proofs::MapLemmas::number_put))]
fn put_number<'a>(map: &mut BTreeMap<u32, &'a Field>, field: &'a Field) -> Result<(), NoMemory>
    ensures { OnOk result (HasField map.old field.now map.new) }
{
    map.insert(field.number, field)?;
    Ok(())
}

/// The map from numbers to the first field that has each.
fn number_map<'a>(alloc: Global, fields: &'a [Field]) -> Result<BTreeMap<u32, &'a Field>, NoMemory>
    ensures { IfOk result (λ m. IsNumberMap m fields.now) }
{
    let mut map = BTreeMap::new(alloc);
    let mut at = fields.len();
    while at > 0 {
        at -= 1;
        put_number(&mut map, &fields[at])?;
    }
    Ok(map)
}

impl<'a> IndexedFields<'a> {
    /// The maps of these fields. Takes time n log n in them.
    pub fn new(alloc: Global, fields: &'a [Field]) -> Result<IndexedFields<'a>, NoMemory>
        ensures { IfOk result (λ f. f ≡ fields.now) }
    {
        let by_key = key_map(alloc, fields)?;
        let by_number = number_map(alloc, fields)?;
        Ok(IndexedFields {
            fields,
            by_key,
            by_number,
        })
    }

    /// The first field that a key names, by its JSON name or by its name in the .proto file; none where no field has
    /// it. The bytes of the key need not be UTF-8. Takes time log n in the fields, and no memory.
    pub fn by_key(&self, key: &[u8]) -> Option<&'a Field>
        ensures { option_copied result ≡ field_named key.now self.now }
    {
        self.by_key.get(key).copied()
    }

    /// The first field that has the number.
    pub fn by_number(&self, number: u32) -> Option<&'a Field>
        ensures { option_copied result ≡ field_in self.now number }
    {
        self.by_number.get(&number).copied()
    }
}
