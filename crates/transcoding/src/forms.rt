//! Which requests are of a form that is built.
ghost use Rattle.std.specs.Prelude.{◌≡◌, ◌<◌, IsTrue, ◌↔◌, Some, length, slice_get};
ghost use Rattle.field_binding.specs.PathSettings.{IsCall};
ghost use Rattle.field_binding.specs.RequestMessages.{IsBodyless};
ghost use Rattle.linked_api.specs.LinkedApi.{IsLinked};
ghost use Rattle.transcoding.specs.BuiltForms.{HasQuery, IsBuilt, TakesOneMessage};

use field_binding::binds_scalars;
use http_rules::{Binding, Body};
use linked_api::{Api, MethodInfo, laws};

/// The binding of an index.
fn binding_at(api: &Api, index: u32) -> &Binding
    requires { index < length api.now.bindings }
    ensures { slice_get api.now.bindings index ≡ Some result.now }
{
    &api.bindings.as_slice()[index as usize]
}

/// The method that the binding of an index calls.
pub(crate) fn method_at(api: &Api, index: u32) -> &MethodInfo
    requires linked { IsLinked api.now }
    requires binding { index < length api.now.bindings }
    ensures { (binding : Binding) × IsCall api.now index binding result.now }
{
    laws::bindings_are_servable();
    let binding = binding_at(api, index);
    &api.methods.as_slice()[binding.call as usize]
}

/// True where the binding of an index has no body.
fn is_bodyless(api: &Api, index: u32) -> bool
    requires { index < length api.now.bindings }
    ensures { IsTrue result ↔ IsBodyless api.now index }
{
    match binding_at(api, index).body {
        Body::Nothing => true,
        Body::Whole => false,
        Body::Part(_) => false,
    }
}

/// True where the method that the binding of an index calls takes one message.
fn takes_one_message(api: &Api, index: u32) -> bool
    requires linked { IsLinked api.now }
    requires binding { index < length api.now.bindings }
    ensures { IsTrue result ↔ TakesOneMessage api.now index }
{
    !method_at(api, index).client_streams
}

/// True where a target has a query.
fn has_query(target: &[u8]) -> bool
    ensures { IsTrue result ↔ HasQuery target.now }
{
    target.contains(&b'?')
}

/// True where a target and the binding of an index are of a form that is built. Takes no memory.
pub(crate) fn is_built(api: &Api, target: &[u8], index: u32) -> bool
    requires linked { IsLinked api.now }
    requires binding { index < length api.now.bindings }
    ensures { IsTrue result ↔ IsBuilt api.now target.now index }
{
    !has_query(target)
        && is_bodyless(api, index)
        && takes_one_message(api, index)
        && binds_scalars(api, index)
}
