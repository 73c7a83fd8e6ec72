//! The brackets around a place.

ghost use Rattle.std.specs.Prelude.{◌≡◌, ◌∷◌, [], drop, length, OnOk, OnErr};
ghost use Rattle.json_events.specs.NestingSteps.{top_of};

use crate::state::Bracket;
use std::alloc::{AllocError, Global};
use std::marker::Model;

/// Brackets, the inmost first.
#[derive(Debug, Drop)]
pub(crate) struct Stack {
    brackets: Vec<Bracket>,
}

impl Model for Stack {
    ghost use Rattle.std.specs.Prelude.{List, reverse};
    ghost use Rattle.json_events.specs.declared.state.Bracket.{Bracket};

    ghost Value = { List Bracket };

    ghost view = { λ s. reverse s.brackets.items };
}

impl Stack {
    pub fn new(alloc: Global) -> Stack
        ensures { result ≡ [] }
    {
        Stack {
            brackets: Vec::new(alloc),
        }
    }

    /// The inmost bracket.
    pub fn top(&self) -> Option<Bracket>
        ensures { result ≡ top_of self.now }
    {
        match self.brackets.last() {
            None => None,
            Some(&b) => Some(b),
        }
    }

    /// How many there are.
    pub fn len(&self) -> usize
        ensures { result ≡ length self.now }
    {
        self.brackets.len()
    }

    pub fn push(&mut self, b: Bracket) -> Result<(), AllocError>
        ensures ok { OnOk result (self.new ≡ b ∷ self.old) }
        ensures err { OnErr result (self.new ≡ self.old) }
    {
        self.brackets.push(b)?;
        Ok(())
    }

    /// Takes the inmost bracket off, where there is one.
    pub fn pop(&mut self)
        ensures { self.new ≡ drop 1 self.old }
    {
        self.brackets.pop();
    }
}
