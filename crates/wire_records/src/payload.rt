//! Tags and payloads (the encoding guide, "Message Structure").
ghost use Rattle.std.specs.Prelude.{◌≡◌, ◌≤◌, ◌+◌, ◌<◌, length, IfOk};
ghost use Rattle.wire_records.specs.Outcome.{Gives};
ghost use Rattle.wire_records.specs.RecordViews.{tag_of as seen_tag, piece_of as seen_piece, sized_len};
ghost use Rattle.wire_records.specs.WireRecord.{IsPlainWire, tag_in, payload_in, sized_in};

use crate::fault::WireKind;
use crate::varint::number_of;
use crate::wire_types::{I64, LEN, VARINT};

/// A payload, in place.
#[derive(Debug, Clone, Copy)]
pub enum Payload<'a> {
    /// A varint's 64 bits.
    Varint(u64),
    /// Eight bytes, little-endian.
    I64(u64),
    /// Bytes behind their length.
    Len(&'a [u8]),
    /// A group, with its end.
    Group,
    /// Four bytes, little-endian.
    I32(u32),
}

/// The field number, wire type and length of the tag at the front.
#[tactic(auto, unfolding(crate::specs::WireRecord::tag_in))]
pub(crate) fn tag_of(bytes: &[u8]) -> Result<(u32, u8, usize), WireKind>
    ensures value { Gives seen_tag result (tag_in bytes.now) }
    ensures small { IfOk result (λ t. (t.1 < 6) × (1 ≤ t.2) × (t.2 ≤ 10) × (t.2 ≤ length bytes.now)) }
{
    let (tag, len) = number_of(bytes)?;
    if tag < 1 << 32 && 7 < tag && tag % 8 < 6 {
        return Ok(((tag / 8) as u32, (tag % 8) as u8, len));
    }
    Err(WireKind::BadTag)
}

/// The bytes of this many at the front, behind a length that ends at `from`.
fn sized_of(size: u64, from: usize, rest: &[u8]) -> Result<(Payload<'_>, usize, usize), WireKind>
    requires { (1 ≤ from) × (from ≤ 10) }
    ensures value { Gives seen_piece result (sized_in size from rest.now) }
    ensures within { IfOk result (λ p. (1 ≤ p.2) × (p.1 + sized_len p.0 ≤ p.2) × (p.2 ≤ from + length rest.now)) }
{
    if (rest.len() as u64) < size {
        return Err(WireKind::Short);
    }
    let (bytes, _) = rest.split_at(size as usize);
    Ok((Payload::Len(bytes), from, from + size as usize))
}

/// The payload of eight bytes at the front.
#[tactic(auto, unfolding(crate::specs::WireRecord::payload_in))]
fn i64_of(rest: &[u8]) -> Result<(Payload<'_>, usize, usize), WireKind>
    ensures value { Gives seen_piece result (payload_in 1 rest.now) }
    ensures within { IfOk result (λ p. (1 ≤ p.2) × (p.1 + sized_len p.0 ≤ p.2) × (p.2 ≤ length rest.now)) }
{
    if rest.len() < 8 {
        return Err(WireKind::Short);
    }
    let (front, _) = rest.split_at(8);
    let n = u64::from_le_bytes([
        front[0], front[1], front[2], front[3], front[4], front[5], front[6], front[7],
    ]);
    Ok((Payload::I64(n), 0, 8))
}

/// The payload at the front, of a wire type that is no group's, and from where to where it lies, counted
/// from the front.
#[tactic(auto, unfolding(crate::specs::WireRecord::payload_in))]
pub fn payload_of(wire: u8, rest: &[u8]) -> Result<(Payload<'_>, usize, usize), WireKind>
    requires { IsPlainWire wire }
    ensures value { Gives seen_piece result (payload_in wire rest.now) }
    ensures within { IfOk result (λ p. (1 ≤ p.2) × (p.1 + sized_len p.0 ≤ p.2) × (p.2 ≤ length rest.now)) }
{
    match wire {
        VARINT => {
            let (n, len) = number_of(rest)?;
            Ok((Payload::Varint(n), 0, len))
        }
        I64 => i64_of(rest),
        LEN => {
            let (size, len) = number_of(rest)?;
            let (_, after) = rest.split_at(len);
            sized_of(size, len, after)
        }
        _ => {
            if rest.len() < 4 {
                return Err(WireKind::Short);
            }
            let (front, _) = rest.split_at(4);
            let n = u32::from_le_bytes([front[0], front[1], front[2], front[3]]);
            Ok((Payload::I32(n), 0, 4))
        }
    }
}
