//! Equal values, in memory of their own.
ghost use Rattle.std.specs.Prelude.{◌≡◌, IfOk};

use crate::key::Key;
use crate::value::{Item, Pairs, Slot, Value};
use base::{Blob, List, NoMemory, Text};
use std::alloc::Global;

impl Item {
    /// An equal item.
    #[cycle(copy)]
    pub fn copy(&self, alloc: Global) -> Result<Item, NoMemory>
        ensures { IfOk result (λ i. i ≡ self.now) }
    {
        match self {
            Item::Number(number) => Ok(Item::Number(*number)),
            Item::Truth(truth) => Ok(Item::Truth(*truth)),
            Item::Text(text) => Ok(Item::Text(Text::copy_of(alloc, text.as_str())?)),
            Item::Bytes(bytes) => Ok(Item::Bytes(Blob::copy_of(alloc, bytes.as_slice())?)),
            Item::Message(value) => Ok(Item::Message(value.copy(alloc)?)),
        }
    }
}

/// Equal items.
#[cycle(copy)]
fn copy_items(alloc: Global, items: &[Item]) -> Result<List<Item>, NoMemory>
    ensures { IfOk result (λ is. is ≡ items.now) }
{
    let mut copies = List::new(alloc);
    for item in items {
        copies.push(item.copy(alloc)?)?;
    }
    Ok(copies)
}

/// Equal entries.
#[cycle(copy)]
fn copy_entries(alloc: Global, entries: &[(Key, Item)]) -> Result<List<(Key, Item)>, NoMemory>
    ensures { IfOk result (λ es. es ≡ entries.now) }
{
    let mut copies = List::new(alloc);
    for (key, item) in entries {
        copies.push((key.copy(alloc)?, item.copy(alloc)?))?;
    }
    Ok(copies)
}

impl Slot {
    /// An equal slot.
    #[cycle(copy)]
    pub fn copy(&self, alloc: Global) -> Result<Slot, NoMemory>
        ensures { IfOk result (λ s. s ≡ self.now) }
    {
        match self {
            Slot::One(item) => Ok(Slot::One(item.copy(alloc)?)),
            Slot::Many(items) => Ok(Slot::Many(copy_items(alloc, items.as_slice())?)),
            Slot::Pairs(pairs) => Ok(Slot::Pairs(Pairs {
                entries: copy_entries(alloc, pairs.entries.as_slice())?,
            })),
        }
    }
}

impl Value {
    /// An equal value.
    #[cycle(copy)]
    pub fn copy(&self, alloc: Global) -> Result<Value, NoMemory>
        ensures { IfOk result (λ v. v ≡ self.now) }
    {
        let mut fields = List::new(alloc);
        for (number, slot) in self.fields.as_slice() {
            fields.push((*number, slot.copy(alloc)?))?;
        }
        Ok(Value { fields })
    }
}
