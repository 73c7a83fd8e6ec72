//! The message of a request (google/api/http.proto, HttpRule).
ghost use Rattle.std.specs.Prelude.{◌≡◌, ◌<◌, IfErr, IfOk, length};
ghost use Rattle.field_binding.specs.RequestMessages.{IsBodyless, IsInput, IsOverlayOf, IsRequestMessage};
ghost use Rattle.field_binding.specs.declared.fault.BindFault.TheVariants.{NoMemory as no_memory};
ghost use Rattle.linked_api.specs.LinkedApi.{IsLinked};

use crate::calls::call_of;
use crate::fault::BindFault;
use crate::overlay::Overlay;
use field_settings::apply;
use linked_api::Api;
use schema::Value;
use std::alloc::Global;

/// The message of a request for a binding without a body: what the query sets, and over it what the path sets. The
/// bytes of the body count for nothing.
pub fn bind_body(
    alloc: Global,
    api: &Api,
    binding: u32,
    overlay: &Overlay,
    body: &[u8],
) -> Result<Value, BindFault>
    requires linked { IsLinked api.now }
    requires binding { binding < length api.now.bindings }
    requires overlay { IsOverlayOf api.now binding overlay.now }
    requires bodyless { IsBodyless api.now binding }
    ensures message { IfOk result (λ v. IsRequestMessage api.now binding overlay.now v) }
    ensures valid { IfOk result (λ v. IsInput api.now binding v) }
    ensures fault { IfErr result (λ fault. fault ≡ no_memory) }
{
    let (_, method) = call_of(api, binding);
    let (types, input) = (&api.types, method.input);
    let empty = Value::new(alloc);
    let queried = apply(alloc, types, input, overlay.query.as_slice(), empty)?;
    let message = apply(alloc, types, input, overlay.path.as_slice(), queried)?;
    Ok(message)
}
