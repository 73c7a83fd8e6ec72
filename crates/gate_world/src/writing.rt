//! Writes bytes whole.
ghost use Rattle.std.specs.Prelude.{◌≤◌, OnOk, OnErr};
ghost use Rattle.gate_world.specs.Causes.{Rose};
ghost use Rattle.gate_world.specs.Sinks.{Gains, GainsPart};

use crate::sink::{Sink, Wrote};

/// A write failed. What was written before it stays.
#[derive(Debug, Clone, Copy, PartialEq, Eq)]
pub struct WriteFailed;

/// Writes all of the bytes, in as many pieces as the sink takes. Where a write fails, the sink has
/// gained a prefix of them, and not all.
pub fn write_all<O: Sink>(out: &mut O, bytes: &[u8]) -> Result<(), WriteFailed>
    ensures written { OnOk result (Gains (O.written out.old) (O.written out.new) bytes.now) }
    ensures part { OnErr result (GainsPart (O.written out.old) (O.written out.new) bytes.now) }
    ensures later { O.faults out.old ≤ O.faults out.new }
    ensures failed { OnErr result (Rose (O.faults out.old) (O.faults out.new)) }
{
    let mut done = 0;
    while done < bytes.len() {
        match out.write(&bytes[done..]) {
            Wrote::Taken(n) => done += n,
            Wrote::Failed => return Err(WriteFailed),
        }
    }
    Ok(())
}
