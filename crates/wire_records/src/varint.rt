//! Base 128 varints (the encoding guide, "Base 128 Varints").
ghost use Rattle.std.specs.Prelude.{◌≡◌, ◌++◌, ◌≤◌, length, IfOk, OnOk, OnErr};
ghost use Rattle.base.specs.Extends.{Extends};
ghost use Rattle.wire_records.specs.Varint.{varint, number_in, varint_fault as kind_of};

use crate::fault::WireKind;
use base::{GroupFault, NoMemory, groups_len, put_groups, read_groups};

/// What is wrong with a varint.
fn varint_fault(fault: GroupFault) -> WireKind
    ensures { result ≡ kind_of fault }
{
    match fault {
        GroupFault::Short => WireKind::Short,
        GroupFault::Long => WireKind::LongVarint,
    }
}

/// The number of 64 bits at the front, and how many bytes it takes. Bits past 64 are dropped.
#[tactic(auto, unfolding(crate::specs::Varint::number_in))]
pub(crate) fn number_of(bytes: &[u8]) -> Result<(u64, usize), WireKind>
    ensures value { result ≡ number_in bytes.now }
    ensures len { IfOk result (λ r. (1 ≤ r.1) × (r.1 ≤ 10) × (r.1 ≤ length bytes.now)) }
{
    match read_groups(bytes, 10) {
        Ok((n, len)) => Ok(((n % (1 << 64)) as u64, len)),
        Err(fault) => Err(varint_fault(fault)),
    }
}

/// How many bytes the shortest varint has.
#[tactic(auto, unfolding(crate::specs::Varint::varint))]
pub fn varint_len(n: u64) -> usize
    ensures len { result ≡ length (varint n) }
    ensures few { result ≤ 10 }
{
    groups_len(n, 10)
}

/// Appends the shortest varint. Where memory is not found, a part may stand.
#[tactic(auto, unfolding(crate::specs::Varint::varint))]
pub fn put_varint(out: &mut Vec<u8>, n: u64) -> Result<(), NoMemory>
    ensures ok { OnOk result (out.new.items ≡ out.old.items ++ varint n) }
    ensures err { OnErr result (Extends out.old.items out.new.items) }
{
    put_groups(out, n, 10)
}
