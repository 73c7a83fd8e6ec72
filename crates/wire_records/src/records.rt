//! The records of one level of a message, one after another (the encoding guide, "Message
//! Structure").
ghost use Rattle.std.specs.Prelude.{◌≡◌};
ghost use Rattle.wire_records.specs.RecordReader.{IsNext, TellsFirst, wire_type as wire_type_of};
ghost use Rattle.wire_records.specs.RecordViews.{payload_of};

use crate::fault::WireFault;
use crate::groups::record_of;
use crate::payload::Payload;
use crate::wire_types::{I32, I64, LEN, START_GROUP, VARINT};
use std::marker::Model;

/// Where a record lies. All offsets are from the first byte of what is read.
#[derive(Debug, Clone, Copy, PartialEq, Eq)]
pub struct Record {
    /// The field number.
    pub number: u32,
    /// The wire type: `VARINT`, `I64`, `LEN`, `START_GROUP` or `I32`.
    pub wire: u8,
    /// The offset of the record's first byte.
    pub place: u64,
    /// The offset of the payload's first byte.
    pub from: u64,
    /// The offset behind the payload's last byte, and so behind the end tag of a group.
    pub to: u64,
}

/// The wire type of a payload.
fn wire_type(payload: Payload<'_>) -> u8
    ensures { result ≡ wire_type_of (payload_of payload.entry) }
{
    match payload {
        Payload::Varint(_) => VARINT,
        Payload::I64(_) => I64,
        Payload::Len(_) => LEN,
        Payload::Group => START_GROUP,
        Payload::I32(_) => I32,
    }
}

/// How deep groups nest below the level that is read.
const GROUP_LEVELS: u32 = 99;

/// The records of one level, one after another, of every wire type. A group is one record, and what
/// is in it is read for faults alone; groups nest in 99 levels.
#[derive(Drop)]
pub struct Records<'a> {
    bytes: &'a [u8],
    at: usize,
}

impl<'a> Model for Records<'a> {
    ghost use Rattle.std.specs.Prelude.{List, ℕ, length, ◌≤◌};

    ghost Value = { List ℕ × ℕ };

    ghost view = { λ r. (r.bytes.now, r.at) };

    ghost invariant = { λ r. r.at ≤ length r.bytes.now };
}

impl<'a> Records<'a> {
    /// A reader at the first byte. Contracts see the bytes and where the reader stands in them.
    pub fn new(bytes: &'a [u8]) -> Records<'a>
        ensures { result ≡ (bytes.now, 0) }
    {
        Records { bytes, at: 0 }
    }

    /// The next record, or None at the end. The reader then stands behind the record. From `from` to
    /// `to` its payload lies, the end of a group included. A fault changes nothing, so that it comes
    /// again. Takes no memory.
    pub fn next(&mut self) -> Option<Result<Record, WireFault>>
        ensures { TellsFirst self.old result self.new }
    {
        self.step()
    }

    /// The record where the reader stands.
    fn step(&mut self) -> Option<Result<Record, WireFault>>
        ensures { IsNext self.old result self.new }
    {
        if self.at == self.bytes.len() {
            return None;
        }
        let place = self.at;
        match record_of(&self.bytes[place..], GROUP_LEVELS) {
            Ok(found) => {
                self.at = place + found.size;
                Some(Ok(Record {
                    number: found.number,
                    wire: wire_type(found.payload),
                    place: place as u64,
                    from: (place + found.head) as u64,
                    to: (place + found.size) as u64,
                }))
            }
            Err((near, kind)) => Some(Err(WireFault {
                place: (place + near) as u64,
                kind,
            })),
        }
    }
}
