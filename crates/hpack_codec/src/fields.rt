//! The fields that a block spells.
ghost use Rattle.std.specs.Prelude.{◌≡◌, ◌==◌, ◌+◌, ◌<◌, ◌≤◌, ◌++◌, ◌∷◌, [], length, get_or, IfOk};
ghost use Rattle.hpack_codec.specs.DynamicTable.{fields_size};

use base::{NoMemory, append_within};
use std::alloc::Global;
use std::marker::Model;

/// The limit of a header list's size, where a field's size is its name, its value and 32 (RFC 9113,
/// section 6.5.2).
pub(crate) const MAX_LIST_SIZE: usize = 65_536;

/// What a field adds to the size beside its bytes (RFC 7541, section 4.1).
pub(crate) const FIELD_OVERHEAD: usize = 32;

/// How many fields of no bytes reach the limit.
const MAX_FIELDS: usize = 2_048;

/// Where a field lies in the bytes: its name, and its value behind it.
#[derive(Clone, Copy, Debug, Drop)]
struct FieldSpan {
    start: usize,
    middle: usize,
    end: usize,
}

/// The fields that a block spells, seen by contracts as the list of pairs of a name and a value. Room for
/// a list of the largest size is reserved once.
#[derive(Debug, Drop)]
pub struct Fields {
    bytes: Vec<u8>,
    spans: Vec<FieldSpan>,
}

impl Model for Fields {
    ghost use Rattle.std.specs.Prelude.{◌≡◌, ◌≤◌, ◌+◌, ◌*◌, List, ℕ, length, vec_capacity};
    ghost use Rattle.hpack_codec.specs.FieldSpans.{fields_in, AreSpans};
    ghost use Rattle.hpack_codec.specs.StaticTable.{HeaderField};

    ghost Value = { List HeaderField };

    ghost view = { λ f. fields_in f.bytes.items f.spans.items };

    ghost invariant = { λ f. AreSpans f.bytes.items f.spans.items × (length f.bytes.items + 32 * length f.spans.items ≤ 65536) × (65536 ≤ vec_capacity f.bytes) × (2048 ≤ vec_capacity f.spans) };
}

impl Fields {
    /// No fields, with all room reserved.
    pub fn new(alloc: Global) -> Result<Fields, NoMemory>
        ensures { IfOk result (λ f. f ≡ []) }
    {
        Ok(Fields {
            bytes: Vec::with_capacity(alloc, MAX_LIST_SIZE)?,
            spans: Vec::with_capacity(alloc, MAX_FIELDS)?,
        })
    }

    /// The number of fields.
    pub fn len(&self) -> usize
        ensures { result ≡ length self.now }
    {
        self.spans.len()
    }

    /// True where there is no field.
    pub fn is_empty(&self) -> bool
        ensures { result ≡ (length self.now == 0) }
    {
        self.spans.is_empty()
    }

    /// The name of a field, counted from 0.
    pub fn name(&self, i: usize) -> &[u8]
        requires { i < length self.now }
        ensures { result.now ≡ (get_or self.now i ([], [])).0 }
    {
        let span = self.spans[i];
        &self.bytes[span.start..span.middle]
    }

    /// The value of a field, counted from 0.
    pub fn value(&self, i: usize) -> &[u8]
        requires { i < length self.now }
        ensures { result.now ≡ (get_or self.now i ([], [])).1 }
    {
        let span = self.spans[i];
        &self.bytes[span.middle..span.end]
    }

    /// What the sizes of further fields may add up to.
    pub(crate) fn room(&self) -> usize
        ensures { result + fields_size self.now ≡ 65536 }
    {
        MAX_LIST_SIZE - self.bytes.len() - FIELD_OVERHEAD * self.spans.len()
    }

    /// Takes all fields away.
    pub(crate) fn clear(&mut self)
        ensures { self.new ≡ [] }
    {
        self.bytes.clear();
        self.spans.clear();
    }

    /// Appends a field.
    pub(crate) fn push(&mut self, name: &[u8], value: &[u8])
        requires { fields_size self.old + (length name.now + length value.now + 32) ≤ 65536 }
        ensures { self.new ≡ self.old ++ (name.now, value.now) ∷ [] }
    {
        let start = self.bytes.len();
        let middle = start + name.len();
        let end = middle + value.len();
        append_within(&mut self.bytes, name);
        append_within(&mut self.bytes, value);
        match self.spans.push(FieldSpan { start, middle, end }) {
            Ok(()) => {}
            Err(_) => unreachable!(),
        }
    }
}
