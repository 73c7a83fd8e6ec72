//! The dynamic table (RFC 7541, sections 2.3.2 and 4), kept in two rings.
ghost use Rattle.std.specs.Prelude.{◌≡◌, ◌+◌, ◌<◌, ◌≤◌, ◌++◌, [], ◌∷◌, length, get_or, vec_capacity, IfOk};
ghost use Rattle.hpack_codec.specs.DynamicTable.{added_to, first_table, fields_size, kept_within, resized_to};
ghost use Rattle.hpack_codec.specs.TableRings.{IsEvicted};

use crate::field_starts::{append_range, field_start};
use crate::fields::FIELD_OVERHEAD;
use base::NoMemory;
use circular_buffer::HeapCircularBuffer;
use std::alloc::Global;
use std::marker::Model;

/// The most that the size may be set to, and the size of a new table (RFC 7540, section 6.5.2).
pub(crate) const MAX_TABLE_SIZE: usize = 4_096;

/// How many fields of no bytes a table of the largest size holds.
const MAX_FIELDS: usize = 128;

/// How many bytes the name and the value of a field have.
#[derive(Clone, Copy, Debug, Drop)]
pub(crate) struct FieldLengths {
    /// The bytes of the name.
    pub(crate) name: usize,
    /// The bytes of the value.
    pub(crate) value: usize,
}

/// Appends lengths, for which there is room.
fn push_lengths(ring: &mut HeapCircularBuffer<FieldLengths>, lengths: FieldLengths)
    requires { length ring.old.items < ring.old.capacity }
    ensures items { ring.new.items ≡ ring.old.items ++ lengths ∷ [] }
    ensures capacity { ring.new.capacity ≡ ring.old.capacity }
{
    let _ = ring.push_back(lengths);
}

/// Appends bytes, for which there is room.
fn push_bytes(ring: &mut HeapCircularBuffer<u8>, bytes: &[u8])
    requires { length ring.old.items + length bytes.now ≤ ring.old.capacity }
    ensures items { ring.new.items ≡ ring.old.items ++ bytes.now }
    ensures capacity { ring.new.capacity ≡ ring.old.capacity }
{
    ring.extend_from_slice(bytes);
}

/// The dynamic table, seen by contracts as its fields, the newest first, and the size that they may
/// have. All room is reserved once.
#[derive(Drop)]
pub(crate) struct DynamicTable {
    lengths: HeapCircularBuffer<FieldLengths>,
    bytes: HeapCircularBuffer<u8>,
    size: usize,
    max_size: usize,
}

impl Model for DynamicTable {
    ghost use Rattle.std.specs.Prelude.{◌≡◌, ◌≤◌, ◌+◌, ◌*◌, length};
    ghost use Rattle.hpack_codec.specs.TableRings.{bytes_len, table_of};
    ghost use Rattle.hpack_codec.specs.DynamicTable.{HeaderTable};

    ghost Value = { HeaderTable };

    ghost view = { λ t. table_of t.lengths.items t.bytes.items t.max_size };

    ghost invariant = { λ t. (t.lengths.capacity ≡ 128) × (t.bytes.capacity ≡ 4096) × (bytes_len t.lengths.items ≡ length t.bytes.items) × (t.size ≡ length t.bytes.items + 32 * length t.lengths.items) × (t.size ≤ t.max_size) × (t.max_size ≤ 4096) };
}

impl DynamicTable {
    /// An empty table of the largest size.
    pub(crate) fn new(alloc: Global) -> Result<DynamicTable, NoMemory>
        ensures { IfOk result (λ t. t ≡ first_table) }
    {
        Ok(DynamicTable {
            lengths: HeapCircularBuffer::with_capacity(alloc, MAX_FIELDS)?,
            bytes: HeapCircularBuffer::with_capacity(alloc, MAX_TABLE_SIZE)?,
            size: 0,
            max_size: MAX_TABLE_SIZE,
        })
    }

    /// The size of all fields.
    pub(crate) fn used(&self) -> usize
        ensures { result ≡ fields_size self.now.fields }
    {
        self.size
    }

    /// The number of fields.
    pub(crate) fn len(&self) -> usize
        ensures { result ≡ length self.now.fields }
    {
        self.lengths.len()
    }

    /// Appends the name of a field, counted from 0 at the newest, for which there is room.
    pub(crate) fn put_name(&self, i: usize, out: &mut Vec<u8>)
        requires within { i < length self.now.fields }
        requires room { length out.old.items + 4096 ≤ vec_capacity out.old }
        ensures name { out.new.items ≡ out.old.items ++ (get_or self.now.fields i ([], [])).0 }
        ensures capacity { vec_capacity out.old ≤ vec_capacity out.new }
    {
        let (start, lengths) = field_start(&self.lengths, i);
        append_range(&self.bytes, start, start + lengths.name, out);
    }

    /// Appends the name and the value of a field, counted from 0 at the newest, for which there is room,
    /// and tells how long the name is.
    pub(crate) fn put_field(&self, i: usize, out: &mut Vec<u8>) -> usize
        requires within { i < length self.now.fields }
        requires room { length out.old.items + 4096 ≤ vec_capacity out.old }
        ensures field { let f = get_or self.now.fields i ([], []) in out.new.items ≡ out.old.items ++ (f.0 ++ f.1) }
        ensures name { result ≡ length (get_or self.now.fields i ([], [])).0 }
        ensures capacity { vec_capacity out.old ≤ vec_capacity out.new }
    {
        let (start, lengths) = field_start(&self.lengths, i);
        let end = start + lengths.name + lengths.value;
        append_range(&self.bytes, start, end, out);
        lengths.name
    }

    /// Takes the oldest field off.
    fn evict_oldest(&mut self)
        requires { 0 < fields_size self.old.fields }
        ensures { IsEvicted self.old self.new }
    {
        match self.lengths.pop_front() {
            Some(oldest) => {
                let n = oldest.name + oldest.value;
                let left = self.bytes.len() - n;
                self.bytes.truncate_front(left);
                self.size -= n + FIELD_OVERHEAD;
            }
            None => unreachable!(),
        }
    }

    /// Evicts the oldest fields until those that are left have this size at most.
    fn evict_to(&mut self, size: usize)
        ensures table { self.new ≡ record self.old { fields = kept_within size self.old.fields } }
        ensures size { fields_size self.new.fields ≤ size }
    {
        if self.used() > size {
            self.evict_oldest();
            self.evict_to(size);
        }
    }

    /// Sets the size that the fields may have.
    pub(crate) fn resize(&mut self, max_size: usize)
        requires { max_size ≤ 4096 }
        ensures { self.new ≡ resized_to self.old max_size }
    {
        self.evict_to(max_size);
        self.max_size = max_size;
    }

    /// Takes all fields off.
    fn clear(&mut self)
        ensures { self.new ≡ record self.old { fields = [] } }
    {
        self.lengths.clear();
        self.bytes.clear();
        self.size = 0;
    }

    /// Adds a field as the newest.
    fn append(&mut self, name: &[u8], value: &[u8])
        requires { fields_size self.old.fields + (length name.now + length value.now + 32) ≤ self.old.max_size }
        ensures { self.new ≡ record self.old { fields = (name.now, value.now) ∷ self.old.fields } }
    {
        self.size = self.size + name.len() + value.len() + FIELD_OVERHEAD;
        let lengths = FieldLengths {
            name: name.len(),
            value: value.len(),
        };
        push_lengths(&mut self.lengths, lengths);
        push_bytes(&mut self.bytes, name);
        push_bytes(&mut self.bytes, value);
    }

    /// Adds a field, for which the oldest are evicted. A field that is larger than the table empties it.
    pub(crate) fn add(&mut self, name: &[u8], value: &[u8])
        requires { length name.now + length value.now ≤ 65536 }
        ensures { self.new ≡ added_to self.old (name.now, value.now) }
    {
        let size = name.len() + value.len() + FIELD_OVERHEAD;
        if self.max_size < size {
            self.clear();
            return;
        }
        let room = self.max_size - size;
        self.evict_to(room);
        self.append(name, value);
    }
}
