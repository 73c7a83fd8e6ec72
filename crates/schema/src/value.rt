//! What a message holds: a finite map from field numbers to slots, in a form that leads back to
//! itself. Contracts see the fields by `slot_at`, and the order of the numbers by `RiseFrom`.
ghost use Rattle.std.specs.Prelude.{◌≡◌, ◌≢◌, ◌==◌, ◌<◌, ℕ, [], if◌then◌else◌, OnOk, OnErr};
ghost use Rattle.std.specs.Option.{option_copied};
ghost use Rattle.schema.specs.SlotSearch.{search_in, first_in};
ghost use Rattle.schema.specs.Value.{slots_of, slot_at, slot_in, RiseFrom, with_slot, without_slot};

use crate::key::Key;
use base::{Blob, List, NoMemory, Text};
use std::alloc::Global;

/// One value of a field.
#[cycle(value)]
#[derive(Drop)]
pub enum Item {
    /// A number of any scalar kind, or an enum's number.
    Number(i128),
    /// A bool.
    Truth(bool),
    /// A string.
    Text(Text),
    /// A bytes value.
    Bytes(Blob),
    /// A message.
    Message(Value),
}

/// What a field holds.
#[cycle(value)]
#[derive(Drop)]
pub enum Slot {
    /// The value of a singular field.
    One(Item),
    /// The values of a repeated field, in order.
    Many(List<Item>),
    /// The entries of a map field.
    Pairs(Pairs),
}

/// The entries of a map field, each key once, by rising key.
#[cycle(value)]
#[derive(Drop)]
pub struct Pairs {
    pub(crate) entries: List<(Key, Item)>,
}

/// What a message holds: each field number once, by rising number.
#[cycle(value)]
#[derive(Drop)]
pub struct Value {
    pub(crate) fields: List<(u32, Slot)>,
}

/// The index of a number, or that at which it would stand.
fn search(fields: &[(u32, Slot)], number: u32) -> Result<usize, usize>
    ensures { result ≡ search_in fields.now number }
{
    for (i, (n, _)) in fields.iter().enumerate() {
        if *n == number {
            return Ok(i);
        }
        if *n > number {
            return Err(i);
        }
    }
    Err(fields.len())
}

/// The index of a number.
fn position_of(fields: &[(u32, Slot)], number: u32) -> Option<usize>
    ensures { result ≡ first_in fields.now number }
{
    for (i, (n, _)) in fields.iter().enumerate() {
        if *n == number {
            return Some(i);
        }
    }
    None
}

/// Replaces one slot, or puts it where it belongs.
#[tactic(auto, using(crate::proofs::SearchLemmas::found_below, crate::proofs::SearchLemmas::found_set, crate::proofs::SearchLemmas::gap_within, crate::proofs::SearchLemmas::gap_insert))]
fn put(fields: &mut List<(u32, Slot)>, number: u32, slot: Slot) -> Result<(), NoMemory>
    ensures ok { OnOk result (fields.new ≡ with_slot fields.old number slot) }
    ensures err { OnErr result (fields.new ≡ fields.old) }
{
    match search(fields.as_slice(), number) {
        Ok(at) => {
            fields.set(at, (number, slot));
            Ok(())
        }
        Err(at) => fields.insert(at, (number, slot)),
    }
}

/// Removes one slot, if it is there, and gives it.
#[tactic(auto, using(crate::proofs::SearchLemmas::position_is, crate::proofs::SearchLemmas::first_remove))]
fn remove(fields: &mut List<(u32, Slot)>, number: u32) -> Option<Slot>
    ensures slot { result ≡ slot_in fields.old number }
    ensures fields { fields.new ≡ without_slot fields.old number }
{
    match position_of(fields.as_slice(), number) {
        Some(at) => {
            let (_, slot) = fields.remove(at);
            Some(slot)
        }
        None => None,
    }
}

impl Value {
    /// No fields: the empty message. Takes no memory.
    pub fn new(alloc: Global) -> Value
        ensures { slots_of result ≡ [] }
    {
        Value {
            fields: List::new(alloc),
        }
    }

    /// The field numbers with their slots, by rising number.
    pub fn fields(&self) -> &[(u32, Slot)]
        ensures { result.now ≡ slots_of self.now }
    {
        self.fields.as_slice()
    }

    /// The slot of a field number.
    pub fn get(&self, number: u32) -> Option<&Slot>
        ensures { option_copied result ≡ slot_at self.now number }
    {
        for (n, slot) in self.fields.as_slice() {
            if *n == number {
                return Some(slot);
            }
        }
        None
    }

    /// Replaces one slot, or adds it, and leaves all others. The slot is dropped where no memory is
    /// found for it.
    pub fn set(&mut self, number: u32, slot: Slot) -> Result<(), NoMemory>
        ensures ok { OnOk result (slots_of self.new ≡ with_slot (slots_of self.old) number slot) }
        ensures slots { OnOk result ((q : ℕ) → slot_at self.new q ≡ (if number == q then Some slot else slot_at self.old q)) }
        ensures rising { OnOk result (0 < number → RiseFrom 0 (slots_of self.old) → RiseFrom 0 (slots_of self.new)) }
        ensures err { OnErr result (self.new ≡ self.old) }
    {
        put(&mut self.fields, number, slot)
    }

    /// Removes the slot of a field number and gives it; leaves all others.
    pub fn clear(&mut self, number: u32) -> Option<Slot>
        ensures slot { result ≡ slot_at self.old number }
        ensures fields { slots_of self.new ≡ without_slot (slots_of self.old) number }
        ensures others { (q : ℕ) → number ≢ q → slot_at self.new q ≡ slot_at self.old q }
        ensures gone { RiseFrom 0 (slots_of self.old) → slot_at self.new number ≡ None }
        ensures rising { RiseFrom 0 (slots_of self.old) → RiseFrom 0 (slots_of self.new) }
    {
        remove(&mut self.fields, number)
    }
}
