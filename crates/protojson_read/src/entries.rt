//! The entries of a map that is open.
ghost use Rattle.std.specs.Prelude.{◌≡◌, [], IfOk, is_some};
ghost use Rattle.schema.specs.Pairs.{KeysRise, entries_of, item_at, with_item};
ghost use Rattle.protojson_read.specs.MessageSeen.{entries_seen};

use base::{List, NoMemory};
use schema::{Item, Key, Pairs};
use std::alloc::Global;
use std::collections::BTreeMap;

/// The entries of a map that is open. A key is found, and an entry put, in a time by the logarithm of their number.
#[derive(Drop)]
pub(crate) struct MapEntries {
    pub(crate) map: BTreeMap<Key, Item>,
}

/// The entries of a map as those of a map field.
fn listed_pairs(alloc: Global, map: BTreeMap<Key, Item>) -> Result<Pairs, NoMemory>
    requires { KeysRise map.entries }
    ensures { IfOk result (λ pairs. entries_of pairs ≡ map.entries) }
{
    let mut list = List::new(alloc);
    for entry in map {
        list.push(entry)?;
    }
    Ok(Pairs::from_entries(list))
}

impl MapEntries {
    /// No entries. Takes no memory.
    pub(crate) fn new(alloc: Global) -> MapEntries
        ensures { entries_seen result ≡ [] }
    {
        MapEntries {
            map: BTreeMap::new(alloc),
        }
    }

    /// Whether an entry has the key.
    #[tactic(auto, using(crate::proofs::EntryLemmas::found))]
    pub(crate) fn has(&self, key: &Key) -> bool
        ensures { result ≡ is_some (item_at (entries_seen self.now) key.now) }
    {
        self.map.contains_key(key)
    }

    /// Puts an entry, in place of one of its key.
    #[tactic(auto, using(crate::proofs::EntryLemmas::inserted))]
    pub(crate) fn put(&mut self, key: Key, item: Item) -> Result<(), NoMemory>
        ensures { IfOk result (λ r. entries_seen self.new ≡ with_item (entries_seen self.old) key item) }
    {
        self.map.insert(key, item)?;
        Ok(())
    }

    /// The entries as those of a map field.
    #[tactic(auto, using(crate::proofs::EntryLemmas::keys_rise))]
    pub(crate) fn into_pairs(self, alloc: Global) -> Result<Pairs, NoMemory>
        ensures { IfOk result (λ pairs. entries_of pairs ≡ entries_seen self) }
    {
        let _keys_rise = self.map.len();
        listed_pairs(alloc, self.map)
    }
}
