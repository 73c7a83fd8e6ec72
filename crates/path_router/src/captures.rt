//! What the variables of a template take of a path.
ghost use Rattle.std.specs.Prelude.{◌≡◌, ◌==◌, ◌<◌, ◌≤◌, ◌++◌, ◌∷◌, [], length, slice_get};
ghost use Rattle.path_router.specs.declared.captures.Span.{Span};

use std::marker::Model;

/// The most variables of a template.
const MAX_SPANS: usize = 16;

/// The bytes of a path from one offset to another.
#[derive(Clone, Copy, Debug, PartialEq, Eq)]
pub struct Span {
    /// The offset of the first byte.
    pub from: u32,
    /// The offset behind the last byte.
    pub to: u32,
}

/// The spans of a template's variables in their order, at most 16. They take no memory but their own.
#[derive(Debug, Drop)]
pub struct Captures {
    spans: [Span; MAX_SPANS],
    len: usize,
}

impl Model for Captures {
    ghost use Rattle.std.specs.Prelude.{◌≡◌, ◌≤◌, List, length, take};
    ghost use Rattle.path_router.specs.declared.captures.Span.{Span};

    ghost Value = { List Span };

    ghost view = { λ c. take c.len c.spans };

    ghost invariant = { λ c. (c.len ≤ 16) × (length c.spans ≡ 16) };
}

impl Captures {
    /// No spans.
    pub(crate) fn new() -> Captures
        ensures { result ≡ [] }
    {
        Captures {
            spans: [Span { from: 0, to: 0 }; MAX_SPANS],
            len: 0,
        }
    }

    /// Puts a span behind the others.
    pub(crate) fn push(&mut self, span: Span)
        requires { length self.old < 16 }
        ensures { self.new ≡ self.old ++ span ∷ [] }
    {
        self.spans[self.len] = span;
        self.len += 1;
    }

    /// The number of spans, one for each variable of the template.
    pub fn len(&self) -> usize
        ensures len { result ≡ length self.now }
        ensures few { result ≤ 16 }
    {
        self.len
    }

    /// True where the template has no variable.
    pub fn is_empty(&self) -> bool
        ensures { result ≡ (length self.now == 0) }
    {
        self.len == 0
    }

    /// The span of the variable of an index, counted from 0.
    pub fn get(&self, i: usize) -> Option<Span>
        ensures { result ≡ slice_get self.now i }
    {
        if i < self.len {
            Some(self.spans[i])
        } else {
            None
        }
    }
}
