//! Bindings with the methods that they call.
ghost use Rattle.std.specs.Prelude.{◌<◌, length};
ghost use Rattle.field_binding.specs.PathSettings.{IsCall};
ghost use Rattle.http_rules.specs.Template.{IsTemplate};
ghost use Rattle.linked_api.specs.LinkedApi.{IsLinked};
ghost use Rattle.linked_api.specs.NumberPaths.{IsServable};

use http_rules::Binding;
use linked_api::{Api, MethodInfo, laws};

/// The binding of an index, and the method that it calls.
pub(crate) fn call_of(api: &Api, binding: u32) -> (&Binding, &MethodInfo)
    requires linked { IsLinked api.now }
    requires binding { binding < length api.now.bindings }
    ensures call { IsCall api.now binding result.0.now result.1.now }
    ensures servable { IsServable api.now result.0.now }
    ensures template { IsTemplate result.0.now.template }
{
    laws::bindings_are_servable();
    let bound = &api.bindings.as_slice()[binding as usize];
    let method = &api.methods.as_slice()[bound.call as usize];
    (bound, method)
}
