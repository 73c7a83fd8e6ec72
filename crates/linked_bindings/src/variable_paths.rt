//! The paths of a template's variables (google/api/http.proto).
ghost use Rattle.std.specs.Prelude.{◌≡◌, ◌++◌, ◌∷◌, ◌||◌, [], List, Some, IfOk, OnOk};
ghost use Rattle.std.specs.List.{flat_map};
ghost use Rattle.std.specs.String.{string_bytes};
ghost use Rattle.http_rules.specs.Template.{joined};
ghost use Rattle.linked_api.specs.FieldPaths.{path_numbers};
ghost use Rattle.linked_bindings.specs.BindingFaults.{begins_names, is_beginning, path_fault, path_faults, path_faults_at};
ghost use Rattle.linked_bindings.specs.LinkedBinding.{paths_of};
ghost use Rattle.set_faults.specs.LinkFaults.{IsFirst, IsFirstOf};

use crate::field_names::FieldNames;
use crate::field_paths::path_numbers;
use base::{List, NoMemory, Text};
use http_rules::Variable;
use linked_api::MethodInfo;
use set_faults::{LinkFault, LinkKind, fault_at};
use std::alloc::Global;

/// True where a path is another one, or the beginning of it.
fn begins_names(path: &[Text], other: &[Text]) -> bool
    ensures { result ≡ begins_names path.now other.now }
{
    let mut left = path;
    let mut others = other;
    while let Some((name, rest)) = left.split_first() {
        match others.split_first() {
            Some((first, more)) => {
                if name.as_str() != first.as_str() {
                    return false;
                }
                left = rest;
                others = more;
            }
            None => return false,
        }
    }
    true
}

/// True where the path of a variable is that of another one, or the beginning of it.
fn is_beginning(variable: &Variable, others: &[Variable]) -> bool
    ensures { result ≡ is_beginning variable.now others.now }
{
    for other in others {
        if begins_names(variable.path.as_slice(), other.path.as_slice()) {
            return true;
        }
    }
    false
}

/// Appends names, each behind a dot.
fn put_dotted(out: &mut String, names: &[Text]) -> Result<(), NoMemory>
    ensures { OnOk result (string_bytes out.new ≡ string_bytes out.old ++ flat_map (λ y. 46 ∷ y) names.now) }
{
    for name in names {
        out.push('.')?;
        out.push_str(name.as_str())?;
    }
    Ok(())
}

/// A path as it is written: its names with dots between them.
fn dotted(alloc: Global, path: &[Text]) -> Result<Text, NoMemory>
    ensures { IfOk result (λ t. t ≡ joined 46 path.now) }
{
    match path.split_first() {
        Some((first, more)) => {
            let mut text = String::from_str(alloc, first.as_str())?;
            put_dotted(&mut text, more)?;
            Ok(Text::from_string(text))
        }
        None => Ok(Text::new(alloc)),
    }
}

/// The fault of a variable's path.
fn fault_of_path(alloc: Global, method: &MethodInfo, variable: &Variable) -> LinkFault
    ensures { (rest : List LinkFault) → IsFirst result (path_fault method.now variable.now ∷ rest) }
{
    match dotted(alloc, variable.path.as_slice()) {
        Ok(path) => fault_at(
            alloc,
            LinkKind::PathField,
            method.path.as_str(),
            path.as_str(),
        ),
        Err(_) => LinkFault::NoMemory,
    }
}

/// The numbers of the fields of one variable's path, between other variables.
fn link_path(
    alloc: Global,
    names: &FieldNames<'_>,
    method: &MethodInfo,
    before: &[Variable],
    variable: &Variable,
    behind: &[Variable],
) -> Result<List<u32>, LinkFault>
    ensures first { IsFirstOf result (path_faults_at names.now method.now (before.now ++ behind.now) variable.now) }
    ensures numbers { IfOk result (λ ns. path_numbers names.now method.now.input variable.now.path ≡ Some ns) }
{
    match path_numbers(alloc, names, method.input, variable.path.as_slice())? {
        Some(numbers) => {
            if is_beginning(variable, before) || is_beginning(variable, behind) {
                return Err(fault_of_path(alloc, method, variable));
            }
            Ok(numbers)
        }
        None => Err(fault_of_path(alloc, method, variable)),
    }
}

/// For each variable the numbers of the fields of its path, or the first fault of a path.
#[tactic(auto, using(set_faults::proofs::Theorems::first_faults))]
pub(crate) fn link_paths(
    alloc: Global,
    names: &FieldNames<'_>,
    method: &MethodInfo,
    variables: &[Variable],
) -> Result<List<List<u32>>, LinkFault>
    ensures first { IsFirstOf result (path_faults names.now method.now [] variables.now) }
    ensures paths { IfOk result (λ ps. paths_of names.now method.now.input variables.now ≡ Some ps) }
{
    let mut paths = List::new(alloc);
    for (at, variable) in variables.iter().enumerate() {
        let (before, behind) = (&variables[..at], &variables[at + 1..]);
        paths.push(link_path(alloc, names, method, before, variable, behind)?)?;
    }
    Ok(paths)
}
