//! The entries of a map as they come: of each key the last one (the encoding guide, "Maps").
ghost use Rattle.std.specs.Prelude.{◌≡◌, IfOk, OnOk};
ghost use Rattle.schema.specs.Pairs.{entries_of, with_item, KeysRise};

use base::{List, NoMemory};
use schema::{Item, Key, Pairs};
use std::alloc::Global;
use std::collections::BTreeMap;

/// Puts an entry, in place of one of its key.
#[tactic(auto, using(crate::proofs::decoding::EntryLemmas::inserted))]
pub(crate) fn put_last(
    entries: &mut BTreeMap<Key, Item>,
    key: Key,
    item: Item,
) -> Result<(), NoMemory>
    ensures { OnOk result (entries.new.entries ≡ with_item entries.old.entries key item) }
{
    entries.insert(key, item)?;
    Ok(())
}

/// The entries as those of a map field.
pub(crate) fn entries_pairs(alloc: Global, entries: BTreeMap<Key, Item>) -> Result<Pairs, NoMemory>
    requires { KeysRise entries.entries }
    ensures { IfOk result (λ ps. entries_of ps ≡ entries.entries) }
{
    let mut list = List::new(alloc);
    for entry in entries {
        list.push(entry)?;
    }
    Ok(Pairs::from_entries(list))
}
