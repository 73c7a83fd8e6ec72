//! A list of numbers that tells in the logarithm of its length whether a number is one of it.
ghost use Rattle.std.specs.Prelude.{◌≡◌, ◌++◌, ◌∷◌, [], OnOk, OnErr};
ghost use Rattle.json_meanings.specs.PartialMessages.{has_number};

use base::NoMemory;
use std::alloc::Global;
use std::collections::BTreeSet;
use std::marker::Model;

/// Numbers in the order in which they came, with the set of them.
#[derive(Drop)]
pub struct NumberList {
    numbers: Vec<u32>,
    set: BTreeSet<u32>,
}

impl Model for NumberList {
    ghost use Rattle.std.specs.Prelude.{ℕ, List};
    ghost use Rattle.field_index.specs.NumberSets.{IsSetOf};

    ghost Value = { List ℕ };

    ghost view = { λ l. l.numbers.items };

    ghost invariant = { λ l. IsSetOf l.set l.numbers.items };
}

impl NumberList {
    /// No numbers. Takes no memory.
    pub fn new(alloc: Global) -> NumberList
        ensures { result ≡ [] }
    {
        NumberList {
            numbers: Vec::new(alloc),
            set: BTreeSet::new(alloc),
        }
    }

    /// Whether a number is one of these.
    pub fn has(&self, number: u32) -> bool
        ensures { result ≡ has_number number self.now }
    {
        self.set.contains(&number)
    }

    /// Appends a number. Without memory nothing is appended.
    pub fn push(&mut self, number: u32) -> Result<(), NoMemory>
        ensures ok { OnOk result (self.new ≡ self.old ++ number ∷ []) }
        ensures err { OnErr result (self.new ≡ self.old) }
    {
        self.numbers.push(number)?;
        match self.set.insert(number) {
            Ok(_) => Ok(()),
            Err(_) => {
                self.numbers.pop();
                Err(NoMemory)
            }
        }
    }
}
