//! Full names, as names in scopes (descriptor.proto): none is written out before it is wanted.
ghost use Rattle.std.specs.Prelude.{◌≡◌, ◌==◌, ◌++◌, [], length, IfOk, OnOk};
ghost use Rattle.std.specs.Str.{bytes_eq};
ghost use Rattle.std.specs.String.{string_bytes};
ghost use Rattle.base.specs.Extends.{Extends};
ghost use Rattle.descriptor_pool.specs.DeclaredNames.{in_scope};

use crate::name_order::compare;
use base::{NoMemory, Text};
use bumpalo::Bump;
use std::alloc::Global;
use std::cmp::Ordering;
use std::marker::Model;

/// A full name, seen by contracts as the list of its bytes: a name of the set and the full name of
/// the scope around it, where that is not empty. It takes the same memory whatever its length is.
#[derive(Drop)]
pub struct FullName<'a> {
    pub(crate) around: Option<&'a FullName<'a>>,
    pub(crate) name: &'a str,
}

impl<'a> Model for FullName<'a> {
    ghost use Rattle.std.specs.Prelude.{List, ℕ, length};

    ghost Value = { List ℕ };

    ghost use Rattle.descriptor_pool.specs.DeclaredNames.{in_scope};
    ghost use Rattle.descriptor_pool.specs.NameScopes.{IsAround, scope_text};

    ghost view = { λ n. in_scope (scope_text n.around) n.name.now };

    ghost invariant = { λ n. IsAround n.around };

    ghost size = { length };

    ghost use Rattle.descriptor_pool.specs.NameFalls.{scopes_are_shorter};

    ghost size_decreases = { scopes_are_shorter };
}

impl<'a> FullName<'a> {
    /// A text of the set, as a full name.
    pub fn plain(text: &'a str) -> FullName<'a>
        ensures { result ≡ text.now }
    {
        FullName {
            around: None,
            name: text,
        }
    }

    /// The same name. Takes no memory.
    pub fn copy(&self) -> FullName<'a>
        ensures { result ≡ self.now }
    {
        FullName {
            around: self.around,
            name: self.name,
        }
    }

    /// True where there is no byte.
    pub fn is_empty(&self) -> bool
        ensures { result ≡ (length self.now == 0) }
    {
        self.around.is_none() && self.name.is_empty()
    }

    /// True where it is this text.
    pub fn is(&self, text: &str) -> bool
        ensures { result ≡ bytes_eq self.now text.now }
    {
        compare(self, &FullName::plain(text)) == Ordering::Equal
    }

    /// Appends it. Where memory is not found a part of it may be appended.
    #[tactic(auto, using(base::proofs::ExtendsLemmas::extends_more, base::proofs::ExtendsLemmas::extends_self))]
    pub fn put(&self, out: &mut String) -> Result<(), NoMemory>
        ensures ok { OnOk result (string_bytes out.new ≡ string_bytes out.old ++ self.now) }
        ensures begins { Extends (string_bytes out.old) (string_bytes out.new) }
    {
        match self.around {
            Some(around) => {
                around.put(out)?;
                out.push_str(".")?;
            }
            None => {}
        }
        out.push_str(self.name)?;
        Ok(())
    }

    /// A text of its own.
    pub fn to_text(&self, alloc: Global) -> Result<Text, NoMemory>
        ensures { IfOk result (λ text. text ≡ self.now) }
    {
        let mut text = String::new(alloc);
        self.put(&mut text)?;
        Ok(Text::from_string(text))
    }
}

/// Where the full names of a set's declarations stand: each once, however many names it is the scope
/// of.
#[derive(Drop)]
pub struct Names {
    names: Bump,
}

impl Names {
    /// Takes no memory.
    pub fn new(alloc: Global) -> Names {
        Names {
            names: Bump::new(alloc),
        }
    }

    /// Keeps a name.
    fn keep<'a>(&'a self, name: FullName<'a>) -> Result<&'a FullName<'a>, NoMemory>
        ensures { IfOk result (λ kept. kept.now ≡ name.entry) }
    {
        let kept: &'a FullName<'a> = self.names.try_alloc(name)?;
        Ok(kept)
    }

    /// Keeps a text as a full name.
    pub(crate) fn plain<'a>(&'a self, text: &'a str) -> Result<&'a FullName<'a>, NoMemory>
        ensures { IfOk result (λ kept. kept.now ≡ text.now) }
    {
        self.keep(FullName::plain(text))
    }

    /// Keeps the full name of a name in a scope.
    pub(crate) fn within<'a>(
        &'a self,
        scope: &'a FullName<'a>,
        name: &'a str,
    ) -> Result<&'a FullName<'a>, NoMemory>
        ensures { IfOk result (λ kept. kept.now ≡ in_scope scope.now name.now) }
    {
        if scope.is_empty() {
            return self.plain(name);
        }
        self.keep(FullName {
            around: Some(scope),
            name,
        })
    }
}
