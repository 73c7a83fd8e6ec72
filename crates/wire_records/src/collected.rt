//! All records of one level (the encoding guide, "Message Structure").
ghost use Rattle.std.specs.Prelude.{◌≡◌, map, IfOk};
ghost use Rattle.wire_records.specs.RecordViews.{raw_of};
ghost use Rattle.wire_records.specs.WireRecord.{records};

use crate::groups::{RawRecord, record_of};
use base::NoMemory;
use std::alloc::Global;

/// The records of bytes up to the first fault, with groups in so many levels.
pub fn records_of(alloc: Global, bytes: &[u8], level: u32) -> Result<Vec<RawRecord<'_>>, NoMemory>
    ensures { IfOk result (λ v. map raw_of v.items ≡ records level 0 bytes.now) }
{
    let mut found = Vec::new(alloc);
    let mut at = 0;
    while at < bytes.len() {
        let (_, left) = bytes.split_at(at);
        match record_of(left, level) {
            Ok(record) => {
                at += record.size;
                found.push(record)?;
            }
            Err(_) => return Ok(found),
        }
    }
    Ok(found)
}
