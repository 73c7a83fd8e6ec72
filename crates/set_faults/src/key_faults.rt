//! Names and JSON names of fields that came before.
ghost use Rattle.std.specs.Prelude.{◌≡◌, ◌||◌, ◌++◌, [], ℕ, List, OnOk, length, map};
ghost use Rattle.std.specs.Str.{bytes_eq};
ghost use Rattle.descriptor_pool.specs.JsonFieldNames.{json_of};
ghost use Rattle.set_faults.specs.LinkFaults.{IsFirstOf, fault_if};
ghost use Rattle.set_faults.specs.MessageFaults.{json_faults};
ghost use Rattle.descriptor_pool.specs.TextSets.{has};

use crate::fault::{LinkFault, LinkKind};
use crate::told_name::{ToldName, refuse_where};
use base::{NoMemory, Text};
use descriptor_pool::{DeclaredMessage, FullName, json_names_of};
use std::alloc::Global;
use std::collections::BTreeSet;

/// Refuses a name or a JSON name that is among keys that came before.
#[tactic(auto, using(crate::proofs::Theorems::first_faults))]
fn check_key_pair(
    alloc: Global,
    message: &FullName<'_>,
    before: &BTreeSet<&[u8]>,
    name: &str,
    json: &str,
) -> Result<(), LinkFault>
    ensures { IsFirstOf result (fault_if (has before.now name.now) (LinkFault.At LinkKind.SameJsonName message.now name.now) ++ fault_if (has before.now json.now) (LinkFault.At LinkKind.SameJsonName message.now json.now)) }
{
    let name_came = before.contains(name.as_bytes());
    let json_came = before.contains(json.as_bytes());
    let (kind, full) = (LinkKind::SameJsonName, ToldName::Full(message));
    refuse_where(alloc, name_came, kind, full, ToldName::Plain(name))?;
    refuse_where(alloc, json_came, kind, full, ToldName::Plain(json))
}

/// Adds a key.
fn add_key<'a>(keys: &mut BTreeSet<&'a [u8]>, key: &'a [u8]) -> Result<(), NoMemory>
    ensures { OnOk result ((q : List ℕ) → has keys.new q ≡ (has keys.old q || bytes_eq q key.now)) }
{
    keys.insert(key)?;
    Ok(())
}

/// Refuses the first name that is one of an earlier field, of fields with these JSON names.
#[tactic(auto, using(crate::proofs::Theorems::first_faults))]
fn check_keys_with(
    alloc: Global,
    message: &DeclaredMessage<'_>,
    names: &[Text],
) -> Result<(), LinkFault>
    requires { names.now ≡ map json_of message.now.fields }
    ensures { IsFirstOf result (json_faults message.now [] message.now.fields) }
{
    let mut before = BTreeSet::new(alloc);
    for (at, field) in message.info.field.as_slice().iter().enumerate() {
        let (name, json) = (field.name.as_str(), names[at].as_str());
        check_key_pair(alloc, message.name, &before, name, json)?;
        add_key(&mut before, name.as_bytes())?;
        add_key(&mut before, json.as_bytes())?;
    }
    Ok(())
}

/// Refuses the first name that is one of an earlier field.
pub(crate) fn check_keys(alloc: Global, message: &DeclaredMessage<'_>) -> Result<(), LinkFault>
    ensures { IsFirstOf result (json_faults message.now [] message.now.fields) }
{
    let names = json_names_of(alloc, message.info.field.as_slice())?;
    check_keys_with(alloc, message, names.as_slice())
}
