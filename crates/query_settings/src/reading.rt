//! The parameters of a query, judged in their order (google/api/http.proto, HttpRule).
ghost use Rattle.std.specs.Prelude.{◌≡◌, ◌-◌, ◌<◌, ◌^◌, List, length};
ghost use Rattle.std.specs.List.{list_any};
ghost use Rattle.std.specs.Str.{bytes_eq};
ghost use Rattle.form_urlencoded.specs.Form.{decode};
ghost use Rattle.query_parameters.specs.ParameterParts.{encoded_of};
ghost use Rattle.query_settings.specs.QueryScopes.{scope_of};
ghost use Rattle.query_settings.specs.QuerySettings.{Assignment, IsQueryReading};
ghost use Rattle.query_settings.specs.QuerySteps.{IsItemRead, IsNamedStep, IsParameterStep, IsPlaced, Stands};

use crate::fault::{ParameterFault, ParameterKind, QueryFault, fault_of_scalar};
use crate::gathered::Gathered;
use crate::judging::{judge, target_in};
use base::{List, Text};
use field_index::IndexedTypes;
use field_settings::Setting;
use http_rules::Binding;
use leaf_texts::read_leaf;
use query_parameters::{Parameter, Parameters, decoded};
use schema::{Item, Kind, TypeId};
use std::alloc::Global;

/// Whether a name is one of a list.
fn is_one_of(names: &[Text], name: &[u8]) -> bool
    ensures { result ≡ list_any (bytes_eq name.now) names.now }
{
    for other in names {
        if name == other.as_str().as_bytes() {
            return true;
        }
    }
    false
}

/// The item that a text means as a value of a kind.
fn read_item(
    alloc: Global,
    types: &IndexedTypes<'_>,
    kind: Kind,
    text: &[u8],
) -> Result<Item, ParameterFault>
    ensures { IsItemRead types.now kind text.now result }
{
    match read_leaf(alloc, types, kind, text) {
        Ok(item) => Ok(item),
        Err(fault) => Err(fault_of_scalar(fault)),
    }
}

/// Sets the field that a parameter of this name names to what its value means.
fn set_named(
    alloc: Global,
    types: &IndexedTypes<'_>,
    input: TypeId,
    binding: &Binding,
    gathered: &mut Gathered,
    name: &[u8],
    value: &[u8],
) -> Result<(), ParameterFault>
    requires { IsPlaced gathered.old }
    ensures { (made : List Assignment) → Stands gathered.old made
        → IsNamedStep (scope_of types.now input binding.now) made name.now (decode value.now) gathered.new result }
{
    let Some(target) = target_in(alloc, types, input, &binding.body, name)? else {
        return Err(ParameterFault::Wrong(ParameterKind::Unknown));
    };
    let numbers = judge(alloc, types.types(), binding, gathered, &target)?;
    let text = decoded(alloc, value)?;
    let item = read_item(alloc, types, target.kind, text.as_slice())?;
    gathered.set(alloc, &target, numbers, item)?;
    Ok(())
}

/// Sets what a parameter sets, where its name is not ignored.
fn set_parameter(
    alloc: Global,
    types: &IndexedTypes<'_>,
    input: TypeId,
    binding: &Binding,
    ignore: &[Text],
    gathered: &mut Gathered,
    parameter: Parameter<'_>,
) -> Result<(), QueryFault>
    requires { IsPlaced gathered.old }
    ensures { (made : List Assignment) → Stands gathered.old made
        → IsParameterStep (scope_of types.now input binding.now) ignore.now made (encoded_of parameter.entry)
        gathered.new result }
{
    let name = decoded(alloc, parameter.name)?;
    if is_one_of(ignore, name.as_slice()) {
        return Ok(());
    }
    match set_named(
        alloc,
        types,
        input,
        binding,
        gathered,
        name.as_slice(),
        parameter.value,
    ) {
        Ok(()) => Ok(()),
        Err(ParameterFault::Wrong(kind)) => Err(QueryFault::Parameter(parameter.number, kind)),
        Err(ParameterFault::NoMemory) => Err(QueryFault::NoMemory),
    }
}

/// What the parameters of a query set of a message of the input type, beside what the path and the body of the binding
/// take. Parameters whose names, decoded, are of the list `ignore` are skipped. The first parameter at fault counts.
pub fn read_query(
    alloc: Global,
    types: &IndexedTypes<'_>,
    input: TypeId,
    binding: &Binding,
    ignore: &List<Text>,
    query: &[u8],
) -> Result<List<Setting>, QueryFault>
    requires { length query.now < 2 ^ 32 - 1 }
    ensures { IsQueryReading (scope_of types.now input binding.now) ignore.now query.now result }
{
    let mut gathered = Gathered::new(alloc);
    let mut left = Parameters::of(query);
    while let Some(parameter) = left.next() {
        let set = set_parameter(
            alloc,
            types,
            input,
            binding,
            ignore.as_slice(),
            &mut gathered,
            parameter,
        );
        if let Err(fault) = set {
            return Err(fault);
        }
    }
    Ok(List::from_vec(gathered.settings))
}
