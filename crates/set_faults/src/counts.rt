//! How large a set may be.
ghost use Rattle.std.specs.Prelude.{◌≡◌, map, IfOk};
ghost use Rattle.std.specs.Set.{distinct_count};
ghost use Rattle.std.specs.Str.{bytes_eq};
ghost use Rattle.set_faults.specs.LinkFaults.{IsFirstOf};
ghost use Rattle.set_faults.specs.NameFaults.{too_many};
ghost use Rattle.descriptor_pool.specs.DeclaredNames.{declarations};

use crate::fault::{LinkFault, LinkKind, refuse_if};
use base::NoMemory;
use descriptor_pool::{BoundMethod, has_types, rule_methods, rules_of};
use descriptors::FileSet;
use std::alloc::Global;
use std::collections::BTreeSet;

/// The most messages and enums of a set.
const MAX_TYPES: usize = 10_000;

/// The most bindings of a set.
const MAX_BINDINGS: usize = 10_000;

/// The most distinct HTTP methods of a set.
const MAX_METHODS: usize = 64;

/// The number of distinct texts.
pub(crate) fn distinct_len(alloc: Global, texts: Vec<&[u8]>) -> Result<usize, NoMemory>
    ensures { IfOk result (λ n. n ≡ distinct_count bytes_eq (map (λ t. t.now) texts.entry.items)) }
{
    let set = BTreeSet::from_iter(alloc, texts)?;
    Ok(set.len())
}

/// Refuses a set with too many messages and enums, bindings or HTTP methods. Call it first: the set's
/// own declarations are counted, before any of them is listed or named.
#[tactic(auto, using(crate::proofs::Theorems::first_faults))]
pub fn check_size(
    alloc: Global,
    set: &FileSet,
    methods: &[BoundMethod<'_>],
) -> Result<(), LinkFault>
    ensures { IsFirstOf result (too_many (declarations set.now) methods.now) }
{
    let kind = LinkKind::TooMany;
    refuse_if(alloc, has_types(set, MAX_TYPES + 1), kind, "types", "")?;
    let rules = rules_of(alloc, methods)?;
    refuse_if(alloc, MAX_BINDINGS < rules.len(), kind, "bindings", "")?;
    let distinct = distinct_len(alloc, rule_methods(alloc, rules.as_slice())?)?;
    refuse_if(alloc, MAX_METHODS < distinct, kind, "methods", "")
}
