//! What is written of a record (the encoding guide, "Message Structure"). Where memory is not found,
//! a part may stand.
ghost use Rattle.std.specs.Prelude.{◌≡◌, ◌++◌, OnOk, OnErr};
ghost use Rattle.base.specs.Extends.{Extends};
ghost use Rattle.wire_records.specs.RecordBytes.{tag, delimited};

use crate::varint::put_varint;
use base::NoMemory;

/// Appends bytes.
pub fn put_bytes(out: &mut Vec<u8>, bytes: &[u8]) -> Result<(), NoMemory>
    ensures ok { OnOk result (out.new.items ≡ out.old.items ++ bytes.now) }
    ensures err { OnErr result (Extends out.old.items out.new.items) }
{
    out.extend_from_slice(bytes)?;
    Ok(())
}

/// Appends the tag of a field number and a wire type.
pub fn put_tag(out: &mut Vec<u8>, number: u32, wire: u8) -> Result<(), NoMemory>
    ensures ok { OnOk result (out.new.items ≡ out.old.items ++ tag number wire) }
    ensures err { OnErr result (Extends out.old.items out.new.items) }
{
    put_varint(out, u64::from(number) * 8 + u64::from(wire))
}

/// Appends bytes behind their length.
pub fn put_delimited(out: &mut Vec<u8>, bytes: &[u8]) -> Result<(), NoMemory>
    ensures ok { OnOk result (out.new.items ≡ out.old.items ++ delimited bytes.now) }
    ensures err { OnErr result (Extends out.old.items out.new.items) }
{
    put_varint(out, bytes.len() as u64)?;
    put_bytes(out, bytes)
}
