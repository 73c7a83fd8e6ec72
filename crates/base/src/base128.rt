//! Numbers in groups of seven bits, the least first: each byte but the last has its high bit set.
//! Varints of protobuf (the encoding guide, "Base 128 Varints") and the integers of HPACK (RFC 7541,
//! section 5.1) are made of them.
ghost use Rattle.std.specs.Prelude.{◌≡◌, ◌++◌, ◌^◌, ◌<◌, ◌≤◌, length, IfOk, OnOk, OnErr};
ghost use Rattle.base.specs.Extends.{Extends};
ghost use Rattle.base.specs.Base128.{groups_in, groups_of};

use crate::no_memory::NoMemory;

/// Why no number stands at the front.
#[derive(Debug, Clone, Copy, PartialEq, Eq)]
pub enum GroupFault {
    /// The bytes end before the last group.
    Short,
    /// There are more groups than are read.
    Long,
}

/// The number of the groups at the front, and how many bytes they take, of `left` at most.
#[tactic(auto, using(crate::proofs::PowerLemmas::steps))]
pub fn read_groups(bytes: &[u8], left: usize) -> Result<(u128, usize), GroupFault>
    requires { left ≤ 10 }
    ensures value { result ≡ groups_in left bytes.now }
    ensures small { IfOk result (λ r. r.0 < 128 ^ left) }
    ensures len { IfOk result (λ r. (1 ≤ r.1) × (r.1 ≤ left) × (r.1 ≤ length bytes.now)) }
{
    if left == 0 {
        return Err(GroupFault::Long);
    }
    let Some((first, rest)) = bytes.split_first() else {
        return Err(GroupFault::Short);
    };
    if *first < 128 {
        return Ok((*first as u128, 1));
    }
    let (high, len) = read_groups(rest, left - 1)?;
    Ok(((*first - 128) as u128 + 128 * high, len + 1))
}

/// How many of `left` groups at most a number has.
#[tactic(auto, using(crate::proofs::PowerLemmas::steps))]
pub fn groups_len(n: u64, left: usize) -> usize
    requires room { left ≤ 10 }
    requires fits { n < 128 ^ left }
    ensures len { result ≡ length (groups_of left n) }
    ensures few { result ≤ left }
{
    if left == 0 {
        return 0;
    }
    if n < 128 {
        return 1;
    }
    groups_len(n / 128, left - 1) + 1
}

/// Appends a number in groups, `left` of them at most. Where memory is not found, a part may stand.
#[tactic(auto, using(crate::proofs::PowerLemmas::steps))]
pub fn put_groups(out: &mut Vec<u8>, n: u64, left: usize) -> Result<(), NoMemory>
    requires { n < 128 ^ left }
    ensures ok { OnOk result (out.new.items ≡ out.old.items ++ groups_of left n) }
    ensures err { OnErr result (Extends out.old.items out.new.items) }
{
    if left == 0 {
        return Ok(());
    }
    if n < 128 {
        out.push(n as u8)?;
        return Ok(());
    }
    out.push((n % 128 + 128) as u8)?;
    put_groups(out, n / 128, left - 1)
}
