//! Names that came before.
ghost use Rattle.std.specs.Prelude.{◌≡◌, ◌||◌, [], ℕ, List, IfOk, OnOk};
ghost use Rattle.set_faults.specs.LinkFaults.{IsFirstOf};
ghost use Rattle.set_faults.specs.NameFaults.{double_names, is_file_named, is_named};
ghost use Rattle.descriptor_pool.specs.NameOrder.{has_name};
ghost use Rattle.descriptor_pool.specs.TextSets.{is_known};

use crate::fault::{LinkFault, LinkKind};
use crate::told_name::{ToldName, fault_of};
use base::NoMemory;
use descriptor_pool::{Declaration, Declared, FullName};
use std::alloc::Global;
use std::collections::BTreeSet;

/// Whether a name came before, in its set of names; it is among them from now on. An extension is
/// under no name of its own.
fn came_before<'a>(
    files: &mut BTreeSet<FullName<'a>>,
    names: &mut BTreeSet<FullName<'a>>,
    declaration: &Declaration<'a>,
) -> Result<bool, NoMemory>
    ensures value { IfOk result (λ b. b ≡ is_known (has_name files.old) (has_name names.old) declaration.now) }
    ensures files { OnOk result ((q : List ℕ) → has_name files.new q ≡ (has_name files.old q || is_file_named q declaration.now)) }
    ensures names { OnOk result ((q : List ℕ) → has_name names.new q ≡ (has_name names.old q || is_named q declaration.now)) }
{
    let name = declaration.name.copy();
    match declaration.declared {
        Declared::File => Ok(!files.insert(name)?),
        Declared::Message(_, _) => Ok(!names.insert(name)?),
        Declared::Enum(_) => Ok(!names.insert(name)?),
        Declared::Service => Ok(!names.insert(name)?),
        Declared::Extension(_) => Ok(false),
    }
}

/// Refuses a name that came before: of a file, or of a message, an enum or a service. Call it before
/// names are looked up: where no two of them are equal, a look-up meets at most one that is equal to its
/// own.
pub fn check_names<'a>(alloc: Global, declarations: &[Declaration<'a>]) -> Result<(), LinkFault>
    ensures { IsFirstOf result (double_names declarations.now) }
{
    let mut files = BTreeSet::new(alloc);
    let mut names = BTreeSet::new(alloc);
    for declaration in declarations {
        if came_before(&mut files, &mut names, declaration)? {
            let name = ToldName::Full(declaration.name());
            return Err(fault_of(alloc, LinkKind::DoubleName, name, ToldName::Nothing));
        }
    }
    Ok(())
}
