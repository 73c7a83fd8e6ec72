//! Maps from texts and from full names to the indexes at which they first stand.
ghost use Rattle.std.specs.Prelude.{◌≡◌, ℕ, List, map, IfOk};
ghost use Rattle.std.specs.List.{list_any};
ghost use Rattle.std.specs.Str.{bytes_eq};
ghost use Rattle.descriptor_pool.specs.DeclaredTypes.{first_from};
ghost use Rattle.descriptor_pool.specs.NameIndex.{index_at};
ghost use Rattle.descriptor_pool.specs.NameOrder.{at_name, has_name};

use crate::full_name::FullName;
use base::NoMemory;
use std::alloc::Global;
use std::collections::{BTreeMap, BTreeSet};

/// The index of each text, counted from 0: that of the first which is it.
pub fn index_of<'a>(
    alloc: Global,
    names: &[&'a [u8]],
) -> Result<BTreeMap<&'a [u8], usize>, NoMemory>
    ensures { IfOk result (λ m. (q : List ℕ) → index_at m q ≡ first_from 0 (map (λ n. n.now) names.now) q) }
{
    let mut index = BTreeMap::new(alloc);
    let mut at = names.len();
    while at > 0 {
        at -= 1;
        index.insert(names[at], at)?;
    }
    Ok(index)
}

/// The index of each full name, counted from 0: that of the first which is it.
pub(crate) fn name_index<'a>(
    alloc: Global,
    names: &[&'a FullName<'a>],
) -> Result<BTreeMap<FullName<'a>, usize>, NoMemory>
    ensures { IfOk result (λ m. (q : List ℕ) → at_name m q ≡ first_from 0 (map (λ n. n.now) names.now) q) }
{
    let mut index = BTreeMap::new(alloc);
    let mut at = names.len();
    while at > 0 {
        at -= 1;
        let name = names[at];
        index.insert(name.copy(), at)?;
    }
    Ok(index)
}

/// The set of full names.
pub(crate) fn name_set<'a>(
    alloc: Global,
    names: &[FullName<'a>],
) -> Result<BTreeSet<FullName<'a>>, NoMemory>
    ensures { IfOk result (λ s. (q : List ℕ) → has_name s q ≡ list_any (bytes_eq q) names.now) }
{
    let mut set = BTreeSet::new(alloc);
    for name in names {
        set.insert(name.copy())?;
    }
    Ok(set)
}
