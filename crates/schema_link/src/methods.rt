//! The methods of an API: those of a set that are bound, with the ids of their types.
ghost use Rattle.std.specs.Prelude.{◌≡◌, map, IfOk, IsSome, Some};
ghost use Rattle.std.specs.List.{AllByRecursion};
ghost use Rattle.schema_link.specs.SetApi.{linked_method};

use base::{List, NoMemory};
use descriptor_pool::{BoundMethod, SetTypes};
use linked_api::MethodInfo;
use linked_types::MessageIds;
use std::alloc::Global;

/// The method that is linked of a bound one.
fn linked_method<'a>(
    alloc: Global,
    types: &SetTypes<'a>,
    ids: &MessageIds<'a>,
    method: &BoundMethod<'a>,
) -> Result<MethodInfo, NoMemory>
    requires { IsSome (linked_method types.now ids.now method.now) }
    ensures { IfOk result (λ m. linked_method types.now ids.now method.now ≡ Some m) }
{
    let input = ids.named(types, method.rpc.input_type.as_str());
    let output = ids.named(types, method.rpc.output_type.as_str());
    match (input, output) {
        (Some(input), Some(output)) => Ok(MethodInfo {
            path: method.path.to_text(alloc)?,
            input,
            output,
            client_streams: method.rpc.client_streaming,
            server_streams: method.rpc.server_streaming,
        }),
        _ => unreachable!(),
    }
}

/// The methods that are linked of bound ones, in order.
pub(crate) fn linked_methods<'a>(
    alloc: Global,
    types: &SetTypes<'a>,
    ids: &MessageIds<'a>,
    methods: &[BoundMethod<'a>],
) -> Result<List<MethodInfo>, NoMemory>
    requires { AllByRecursion (λ m. IsSome (linked_method types.now ids.now m)) methods.now }
    ensures { IfOk result (λ ms. map (λ m. Some m) ms ≡ map (linked_method types.now ids.now) methods.now) }
{
    let mut linked = List::new(alloc);
    for method in methods {
        linked.push(linked_method(alloc, types, ids, method)?)?;
    }
    Ok(linked)
}
