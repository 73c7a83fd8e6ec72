//! The values of one enum, by name and by number.
ghost use Rattle.std.specs.Prelude.{◌≡◌, IfOk, OnOk};
ghost use Rattle.std.specs.Option.{option_copied};
ghost use Rattle.field_index.specs.EnumMaps.{HasName, HasValue, IsNameMap, IsValueMap, value_with};
ghost use Rattle.json_meanings.specs.EnumNames.{number_named};

use base::NoMemory;
use message_types::EnumValue;
use std::alloc::Global;
use std::collections::BTreeMap;
use std::marker::Model;

/// The values of an enum, in declared order, with a map from their names and one from their numbers.
#[derive(Drop)]
pub struct IndexedEnum<'a> {
    values: &'a [EnumValue],
    by_name: BTreeMap<&'a [u8], &'a EnumValue>,
    by_number: BTreeMap<i128, &'a EnumValue>,
}

impl<'a> Model for IndexedEnum<'a> {
    ghost use Rattle.std.specs.Prelude.{List};
    ghost use Rattle.field_index.specs.EnumMaps.{AreEnumMaps};
    ghost use Rattle.message_types.specs.declared.enums.EnumValue.{EnumValue as Seen};

    ghost Value = { List Seen };

    ghost view = { λ e. e.values.now };

    ghost invariant = { λ e. AreEnumMaps e.values.now e.by_name e.by_number };
}

/// Puts a value under its name, in place of what was under it.
fn put_name<'a>(
    map: &mut BTreeMap<&'a [u8], &'a EnumValue>,
    value: &'a EnumValue,
) -> Result<(), NoMemory>
    ensures { OnOk result (HasName map.old value.now map.new) }
{
    map.insert(value.name.as_str().as_bytes(), value)?;
    Ok(())
}

/// The map from names to the first value that has each.
fn name_map<'a>(
    alloc: Global,
    values: &'a [EnumValue],
) -> Result<BTreeMap<&'a [u8], &'a EnumValue>, NoMemory>
    ensures { IfOk result (λ m. IsNameMap m values.now) }
{
    let mut map = BTreeMap::new(alloc);
    let mut at = values.len();
    while at > 0 {
        at -= 1;
        put_name(&mut map, &values[at])?;
    }
    Ok(map)
}

/// Puts a value under its number, in place of what was under it.
#[tactic(auto, using(crate::proofs::MapLemmas::value_put))]
fn put_value<'a>(
    map: &mut BTreeMap<i128, &'a EnumValue>,
    value: &'a EnumValue,
) -> Result<(), NoMemory>
    ensures { OnOk result (HasValue map.old value.now map.new) }
{
    map.insert(i128::from(value.number), value)?;
    Ok(())
}

/// The map from numbers to the first value that has each.
fn value_map<'a>(
    alloc: Global,
    values: &'a [EnumValue],
) -> Result<BTreeMap<i128, &'a EnumValue>, NoMemory>
    ensures { IfOk result (λ m. IsValueMap m values.now) }
{
    let mut map = BTreeMap::new(alloc);
    let mut at = values.len();
    while at > 0 {
        at -= 1;
        put_value(&mut map, &values[at])?;
    }
    Ok(map)
}

impl<'a> IndexedEnum<'a> {
    /// The maps of these values. Takes time n log n in them.
    pub fn new(alloc: Global, values: &'a [EnumValue]) -> Result<IndexedEnum<'a>, NoMemory>
        ensures { IfOk result (λ e. e ≡ values.now) }
    {
        let by_name = name_map(alloc, values)?;
        let by_number = value_map(alloc, values)?;
        Ok(IndexedEnum {
            values,
            by_name,
            by_number,
        })
    }

    /// The number of the first value that has the name; none where no value has it. The bytes of the name need not be
    /// UTF-8. Takes time log n in the values, and no memory.
    pub fn number_named(&self, name: &[u8]) -> Option<i32>
        ensures { result ≡ number_named self.now name.now }
    {
        match self.by_name.get(name) {
            Some(value) => Some(value.number),
            None => None,
        }
    }

    /// The first value that has the number.
    pub fn value_with(&self, number: i128) -> Option<&'a EnumValue>
        ensures { option_copied result ≡ value_with self.now number }
    {
        self.by_number.get(&number).copied()
    }
}
