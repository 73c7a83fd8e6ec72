//! Where a field of the dynamic table lies in its two rings.
ghost use Rattle.std.specs.Prelude.{◌≡◌, ◌+◌, ◌-◌, ◌<◌, ◌≤◌, ◌++◌, length, take, drop, vec_capacity, slice_get};
ghost use Rattle.hpack_codec.specs.TableRings.{bytes_len, IsFieldStart};

use crate::dynamic_table::FieldLengths;
use base::append_within;
use circular_buffer::HeapCircularBuffer;

/// The lengths of the field behind so many older ones.
fn lengths_at(lengths: &HeapCircularBuffer<FieldLengths>, older: usize) -> FieldLengths
    requires { older < length lengths.now.items }
    ensures { slice_get lengths.now.items older ≡ Some result }
{
    match lengths.get(older) {
        Some(found) => *found,
        None => unreachable!(),
    }
}

/// How many bytes the oldest `count` fields have.
fn oldest_bytes(lengths: &HeapCircularBuffer<FieldLengths>, count: usize) -> usize
    requires count { count ≤ length lengths.now.items }
    requires few { bytes_len lengths.now.items ≤ 4096 }
    ensures { result ≡ bytes_len (take count lengths.now.items) }
{
    let mut sum = 0;
    for older in 0..count {
        let field = lengths_at(lengths, older);
        sum += field.name + field.value;
    }
    sum
}

/// Where the field begins that is the `i`-th newest, counted from 0, and its lengths.
pub(crate) fn field_start(
    lengths: &HeapCircularBuffer<FieldLengths>,
    i: usize,
) -> (usize, FieldLengths)
    requires within { i < length lengths.now.items }
    requires few { bytes_len lengths.now.items ≤ 4096 }
    ensures { IsFieldStart lengths.now.items i result.0 result.1 }
{
    let older = lengths.len() - 1 - i;
    (oldest_bytes(lengths, older), lengths_at(lengths, older))
}

/// Appends the bytes of the ring from `start` to `end`, for which there is room.
pub(crate) fn append_range(
    ring: &HeapCircularBuffer<u8>,
    start: usize,
    end: usize,
    out: &mut Vec<u8>,
)
    requires ordered { start ≤ end }
    requires within { end ≤ length ring.now.items }
    requires room { length out.old.items + (end - start) ≤ vec_capacity out.old }
    ensures items { out.new.items ≡ out.old.items ++ take (end - start) (drop start ring.now.items) }
    ensures capacity { vec_capacity out.old ≤ vec_capacity out.new }
{
    let (front, back) = ring.as_slices();
    let from = start.min(front.len());
    let to = end.min(front.len());
    append_within(out, &front[from..to]);
    append_within(out, &back[start - from..end - to]);
}
