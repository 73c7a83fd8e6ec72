//! The head of a request, kept in room that is reserved once (RFC 9112, section 3).
ghost use Rattle.std.specs.Prelude.{◌≡◌, ◌≤◌, ◌<◌, ◌+◌, ◌++◌, ◌∷◌, [], length, slice_get, option_map, Some, IfOk};
ghost use Rattle.gate_world.specs.KeptHead.{started_head, with_ending, with_fields};

use crate::body_length::BodyLength;
use base::{NoMemory, append_within};
use std::alloc::Global;
use std::marker::Model;

/// Where a name and the value behind it lie in the bytes of a head.
#[derive(Debug, Clone, Copy)]
pub(crate) struct FieldSpan {
    /// Where the name begins.
    pub(crate) start: usize,
    /// Where it ends, and the value begins.
    pub(crate) middle: usize,
    /// Where the value ends.
    pub(crate) end: usize,
}

/// What the head of a request says. Its room is reserved when it is made: the other calls take no
/// memory.
#[derive(Debug, Drop)]
pub struct Head {
    bytes: Vec<u8>,
    method_end: usize,
    target_end: usize,
    spans: Vec<FieldSpan>,
    body: BodyLength,
    close: bool,
    expect: bool,
}

impl Model for Head {
    ghost use Rattle.std.specs.Prelude.{◌≤◌, length, take, vec_capacity};
    ghost use Rattle.std.specs.List.{All};
    ghost use Rattle.gate_world.specs.KeptHead.{KeptHead, LiesWithin, bytes_between, fields_at};

    ghost Value = { KeptHead };

    ghost view = { λ h. record {
      head = record {
        method = take h.method_end h.bytes.items;
        target = bytes_between h.bytes.items h.method_end h.target_end;
        fields = fields_at h.bytes.items h.spans.items;
        body = h.body;
        close = h.close;
        expect = h.expect;
      };
      used = length h.bytes.items;
      room = vec_capacity h.bytes;
      field_room = vec_capacity h.spans;
    } };

    ghost invariant = { λ h. (h.method_end ≤ h.target_end) × (h.target_end ≤ length h.bytes.items)
        × All (LiesWithin (length h.bytes.items)) h.spans.items };
}

impl Head {
    /// An empty head with room for so many bytes and so many fields.
    pub fn reserved(alloc: Global, bytes: usize, fields: usize) -> Result<Head, NoMemory>
        ensures head { IfOk result (λ kept. kept.head ≡ started_head [] []) }
        ensures used { IfOk result (λ kept. kept.used ≡ 0) }
        ensures room { IfOk result (λ kept. bytes ≤ kept.room) }
        ensures fields { IfOk result (λ kept. fields ≤ kept.field_room) }
    {
        Ok(Head {
            bytes: Vec::with_capacity(alloc, bytes)?,
            method_end: 0,
            target_end: 0,
            spans: Vec::with_capacity(alloc, fields)?,
            body: BodyLength::Nothing,
            close: false,
            expect: false,
        })
    }

    /// Empties it, and keeps its room.
    pub fn clear(&mut self)
        ensures head { self.new.head ≡ started_head [] [] }
        ensures used { self.new.used ≡ 0 }
        ensures room { self.old.room ≤ self.new.room }
        ensures fields { self.old.field_room ≤ self.new.field_room }
    {
        self.begin(b"", b"");
    }

    /// Drops what it says, and takes the method and the target of a request line.
    pub fn begin(&mut self, method: &[u8], target: &[u8])
        requires { length method.now + length target.now ≤ self.old.room }
        ensures head { self.new.head ≡ started_head method.now target.now }
        ensures used { self.new.used ≡ length method.now + length target.now }
        ensures room { self.old.room ≤ self.new.room }
        ensures fields { self.old.field_room ≤ self.new.field_room }
    {
        self.bytes.clear();
        self.spans.clear();
        append_within(&mut self.bytes, method);
        self.method_end = self.bytes.len();
        append_within(&mut self.bytes, target);
        self.target_end = self.bytes.len();
        self.body = BodyLength::Nothing;
        self.close = false;
        self.expect = false;
    }

    /// Takes one more field behind those that it has.
    pub fn field(&mut self, name: &[u8], value: &[u8])
        requires room { self.old.used + length name.now + length value.now ≤ self.old.room }
        requires fields { length self.old.head.fields < self.old.field_room }
        ensures head { self.new.head
            ≡ with_fields self.old.head (self.old.head.fields ++ (name.now, value.now) ∷ []) }
        ensures used { self.new.used ≡ self.old.used + length name.now + length value.now }
        ensures room { self.old.room ≤ self.new.room }
        ensures fields { self.old.field_room ≤ self.new.field_room }
    {
        let start = self.bytes.len();
        append_within(&mut self.bytes, name);
        let middle = self.bytes.len();
        append_within(&mut self.bytes, value);
        let end = self.bytes.len();
        match self.spans.push(FieldSpan { start, middle, end }) {
            Ok(()) => {}
            Err(_) => unreachable!(),
        }
    }

    /// Takes how long the body is, whether the client wants the connection closed, and whether it
    /// waits for `100 Continue`.
    pub fn finish(&mut self, body: BodyLength, close: bool, expect: bool)
        ensures head { self.new.head ≡ with_ending self.old.head body close expect }
        ensures used { self.new.used ≡ self.old.used }
        ensures room { self.old.room ≤ self.new.room }
        ensures fields { self.old.field_room ≤ self.new.field_room }
    {
        self.body = body;
        self.close = close;
        self.expect = expect;
    }

    /// The method.
    pub fn method(&self) -> &[u8]
        ensures { result.now ≡ self.now.head.method }
    {
        &self.bytes[..self.method_end]
    }

    /// The target.
    pub fn target(&self) -> &[u8]
        ensures { result.now ≡ self.now.head.target }
    {
        &self.bytes[self.method_end..self.target_end]
    }

    /// The number of fields.
    pub fn len(&self) -> usize
        ensures { result ≡ length self.now.head.fields }
    {
        self.spans.len()
    }

    /// The name of a field, counted from 0.
    pub fn name(&self, i: usize) -> &[u8]
        requires { i < length self.now.head.fields }
        ensures { option_map (λ f. f.0) (slice_get self.now.head.fields i) ≡ Some result.now }
    {
        let span = self.spans[i];
        &self.bytes[span.start..span.middle]
    }

    /// The value of a field, counted from 0.
    pub fn value(&self, i: usize) -> &[u8]
        requires { i < length self.now.head.fields }
        ensures { option_map (λ f. f.1) (slice_get self.now.head.fields i) ≡ Some result.now }
    {
        let span = self.spans[i];
        &self.bytes[span.middle..span.end]
    }

    /// How long the body is.
    pub fn body(&self) -> BodyLength
        ensures { result ≡ self.now.head.body }
    {
        self.body
    }

    /// Whether the client wants the connection closed behind the answer.
    pub fn close(&self) -> bool
        ensures { result ≡ self.now.head.close }
    {
        self.close
    }

    /// Whether the client waits for `100 Continue`.
    pub fn expect(&self) -> bool
        ensures { result ≡ self.now.head.expect }
    {
        self.expect
    }
}
