//! The entries of a map field: a finite map from keys to items (protobuf encoding guide, "Maps").
ghost use Rattle.std.specs.Prelude.{◌≡◌, [], if◌then◌else◌, length, OnOk, OnErr};
ghost use Rattle.std.specs.Option.{option_copied};
ghost use Rattle.std.specs.Ordering.{is_eq as is_eq_order};
ghost use Rattle.std.specs.Iterator.{at_most};
ghost use Rattle.std.specs.Map.Iter.{TakesFirst, deref_pair};
ghost use Rattle.schema.specs.Pairs.{entries_of, item_at, key_cmp, with_item, KeysRise};
ghost use Rattle.schema.specs.SlotSearch.{key_search_in};
ghost use Rattle.schema.specs.declared.key.Key.{Key as KeyOf};

use crate::key::Key;
use crate::value::{Item, Pairs};
use base::{List, NoMemory};
use std::alloc::Global;
use std::cmp::Ordering;
use std::iter::ExactSizeIterator;
use std::marker::Model;

/// The index of a key, or that at which it would stand.
fn search(entries: &[(Key, Item)], key: &Key) -> Result<usize, usize>
    ensures { result ≡ key_search_in entries.now key.now }
{
    for (i, (k, _)) in entries.iter().enumerate() {
        match k.cmp(key) {
            Ordering::Less => {}
            Ordering::Equal => return Ok(i),
            Ordering::Greater => return Err(i),
        }
    }
    Err(entries.len())
}

/// Replaces one item, or puts it where it belongs.
#[tactic(auto, using(crate::proofs::KeySearchLemmas::found_below, crate::proofs::KeySearchLemmas::found_set, crate::proofs::KeySearchLemmas::gap_within, crate::proofs::KeySearchLemmas::gap_insert))]
fn put_entry(entries: &mut List<(Key, Item)>, key: Key, item: Item) -> Result<(), NoMemory>
    ensures ok { OnOk result (entries.new ≡ with_item entries.old key item) }
    ensures err { OnErr result (entries.new ≡ entries.old) }
{
    match search(entries.as_slice(), &key) {
        Ok(at) => {
            entries.set(at, (key, item));
            Ok(())
        }
        Err(at) => entries.insert(at, (key, item)),
    }
}

impl Pairs {
    /// No entries. Takes no memory.
    pub fn new(alloc: Global) -> Pairs
        ensures entries { entries_of result ≡ [] }
        ensures rising { KeysRise (entries_of result) }
    {
        Pairs {
            entries: List::new(alloc),
        }
    }

    /// The entries of a list, which has each key once, by rising key. Takes no memory.
    pub fn from_entries(entries: List<(Key, Item)>) -> Pairs
        requires { KeysRise entries }
        ensures entries { entries_of result ≡ entries }
        ensures rising { KeysRise (entries_of result) }
    {
        Pairs { entries }
    }

    /// The number of entries.
    pub fn len(&self) -> usize
        ensures { result ≡ length (entries_of self.now) }
    {
        self.entries.len()
    }

    /// The keys with their items, by rising key.
    pub fn entries(&self) -> &[(Key, Item)]
        ensures entries { result.now ≡ entries_of self.now }
        ensures rising { KeysRise (entries_of self.now) → KeysRise result.now }
    {
        self.entries.as_slice()
    }

    /// The item of a key.
    pub fn get(&self, key: &Key) -> Option<&Item>
        ensures { option_copied result ≡ item_at (entries_of self.now) key.now }
    {
        for (k, item) in self.entries.as_slice() {
            if k.cmp(key).is_eq() {
                return Some(item);
            }
        }
        None
    }

    /// An iterator over the entries, by rising key. Takes no memory.
    pub fn iter(&self) -> PairIter<'_>
        ensures entries { result ≡ entries_of self.now }
        ensures rising { KeysRise (entries_of self.now) → KeysRise result }
    {
        PairIter {
            entries: self.entries.as_slice(),
        }
    }

    /// Replaces one entry, or adds it, and leaves all others. Key and item are dropped where no
    /// memory is found for them.
    pub fn put(&mut self, key: Key, item: Item) -> Result<(), NoMemory>
        ensures ok { OnOk result (entries_of self.new ≡ with_item (entries_of self.old) key item) }
        ensures items { OnOk result ((k : KeyOf) → item_at (entries_of self.new) k ≡ (if is_eq_order (key_cmp key k) then Some item else item_at (entries_of self.old) k)) }
        ensures rising { OnOk result (KeysRise (entries_of self.old) → KeysRise (entries_of self.new)) }
        ensures err { OnErr result (self.new ≡ self.old) }
    {
        put_entry(&mut self.entries, key, item)
    }
}

/// The entries of a map field, one after another, by rising key.
#[derive(Drop)]
pub struct PairIter<'a> {
    entries: &'a [(Key, Item)],
}

impl<'a> Model for PairIter<'a> {
    ghost use Rattle.std.specs.Prelude.{List};
    ghost use Rattle.std.specs.Coded.{codes};
    ghost use Rattle.schema.specs.contracts.value.Item as items;
    ghost use Rattle.schema.specs.declared.key.Key.{Key as KeyOf};
    ghost use Rattle.schema.specs.declared.value.Item.{Item as ItemOf};

    ghost Value = { List (KeyOf × ItemOf) };

    ghost coded = { Prim.hlevel (codes, items.the_row.coded) };

    ghost view = { λ p. p.entries.now };
}

impl<'a> Iterator for PairIter<'a> {
    type Item = (&'a Key, &'a Item);

    ghost next_gives = { TakesFirst deref_pair };

    ghost remaining = { λ s. at_most (length s) };

    fn next(&mut self) -> Option<(&'a Key, &'a Item)> {
        let (first, rest) = self.entries.split_first()?;
        self.entries = rest;
        Some((&first.0, &first.1))
    }

    fn size_hint(&self) -> (usize, Option<usize>) {
        let len = self.len();
        (len, Some(len))
    }
}

impl<'a> ExactSizeIterator for PairIter<'a> {
    fn len(&self) -> usize {
        self.entries.len()
    }
}
