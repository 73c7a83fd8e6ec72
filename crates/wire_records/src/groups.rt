//! Records at the front of bytes, groups with all that is in them (the encoding guide, "Groups").
ghost use Rattle.std.specs.Prelude.{◌≡◌, ◌≤◌, ◌+◌, length, IfOk, IfErr, IfSome};
ghost use Rattle.wire_records.specs.Outcome.{Gives};
ghost use Rattle.wire_records.specs.RecordViews.{raw_of, sized_len};
ghost use Rattle.wire_records.specs.WireRecord.{tag_in, record_with as record_with_of, group_in, end_of as end_of_tag, record_in};

use crate::fault::WireKind;
use crate::payload::{Payload, payload_of, tag_of};
use crate::wire_types::{END_GROUP, START_GROUP};

/// A record at the front of bytes, with its payload in place.
#[derive(Debug, Clone, Copy)]
pub struct RawRecord<'a> {
    /// The field number.
    pub number: u32,
    /// What follows the tag.
    pub payload: Payload<'a>,
    /// Where the payload begins, counted from the record's first byte.
    pub head: usize,
    /// How many bytes the record takes.
    pub size: usize,
}

impl<'a> RawRecord<'a> {
    fn new(number: u32, payload: Payload<'a>, head: usize, size: usize) -> RawRecord<'a>
        ensures { result ≡ record { number = number; payload = payload.entry; head = head; size = size } }
    {
        RawRecord {
            number,
            payload,
            head,
            size,
        }
    }
}

/// How long the end of a group of this number is, if it stands at the front.
fn end_of(bytes: &[u8], number: u32) -> Option<usize>
    ensures value { result ≡ end_of_tag number (tag_in bytes.now) }
    ensures within { IfSome result (λ len. len ≤ length bytes.now) }
{
    match tag_of(bytes) {
        Ok((n, wire, len)) => {
            if wire == END_GROUP && n == number {
                return Some(len);
            }
            None
        }
        Err(_) => None,
    }
}

/// The record at the front, with groups in this many levels.
#[cycle(record)]
#[tactic(auto, unfolding(crate::specs::WireRecord::record_with))]
fn record_with(bytes: &[u8], level: u32) -> Result<RawRecord<'_>, Option<(usize, WireKind)>>
    ensures value { Gives raw_of result (record_with_of (group_in level) bytes.now) }
    ensures within { IfOk result (λ r. (1 ≤ r.size) × (r.head + sized_len r.payload ≤ r.size) × (r.size ≤ length bytes.now)) }
    ensures near { IfErr result (λ stop. IfSome stop (λ e. e.0 ≤ length bytes.now)) }
{
    match tag_of(bytes) {
        Err(kind) => Err(Some((0, kind))),
        Ok((number, wire, len)) => {
            let (_, rest) = bytes.split_at(len);
            if wire == START_GROUP {
                let size = group_of(rest, number, len, level)?;
                return Ok(RawRecord::new(number, Payload::Group, len, size));
            }
            if wire == END_GROUP {
                return Err(Some((0, WireKind::BadGroup)));
            }
            match payload_of(wire, rest) {
                Err(kind) => Err(Some((0, kind))),
                Ok((payload, from, to)) => {
                    Ok(RawRecord::new(number, payload, len + from, len + to))
                }
            }
        }
    }
}

/// The length of a group with its tag, which is `len` long, and its end.
#[cycle(record)]
fn group_of(
    rest: &[u8],
    number: u32,
    len: usize,
    level: u32,
) -> Result<usize, Option<(usize, WireKind)>>
    requires { len ≤ 10 }
    ensures value { result ≡ group_in level len number rest.now }
    ensures within { IfOk result (λ size. (len ≤ size) × (size ≤ len + length rest.now)) }
    ensures near { IfErr result (λ stop. IfSome stop (λ e. e.0 ≤ len + length rest.now)) }
{
    if level == 0 {
        return Err(Some((0, WireKind::TooDeep)));
    }
    let mut at = 0;
    while at < rest.len() {
        let (_, left) = rest.split_at(at);
        match end_of(left, number) {
            Some(end) => return Ok(len + at + end),
            None => {}
        }
        match record_with(left, level - 1) {
            Ok(found) => at += found.size,
            Err(None) => return Err(None),
            Err(Some((place, kind))) => return Err(Some((len + at + place, kind))),
        }
    }
    Err(None)
}

/// The record at the front, with groups in so many levels, or what is wrong and where.
#[tactic(auto, unfolding(crate::specs::WireRecord::record_in))]
pub fn record_of(bytes: &[u8], level: u32) -> Result<RawRecord<'_>, (usize, WireKind)>
    ensures value { Gives raw_of result (record_in level bytes.now) }
    ensures within { IfOk result (λ r. (1 ≤ r.size) × (r.head + sized_len r.payload ≤ r.size) × (r.size ≤ length bytes.now)) }
    ensures near { IfErr result (λ e. e.0 ≤ length bytes.now) }
{
    match record_with(bytes, level) {
        Ok(found) => Ok(found),
        Err(None) => Err((0, WireKind::BadGroup)),
        Err(Some(stop)) => Err(stop),
    }
}
