//! The message of a request.
ghost use Rattle.std.specs.Prelude.{◌≡◌, ◌<◌, ◌∷◌, [], IfOk, length};
ghost use Rattle.field_binding.specs.PathSettings.{IsCall};
ghost use Rattle.field_binding.specs.RequestMessages.{IsBodyless, IsOverlayOf};
ghost use Rattle.http_rules.specs.declared.template.Binding.{Binding};
ghost use Rattle.linked_api.specs.LinkedApi.{IsLinked};
ghost use Rattle.linked_api.specs.declared.api.MethodInfo.{MethodInfo};
ghost use Rattle.schema.specs.Validity.{IsValid};
ghost use Rattle.transcoding.specs.TranscodedRequest.{IsMessageOf};
ghost use Rattle.wire_format.specs.CanonicalBytes.{canonical_bytes};

use crate::forms::method_at;
use base::{Blob, List, NoMemory};
use field_binding::{Overlay, bind_body};
use linked_api::Api;
use schema::{TypeId, Types, Value};
use std::alloc::Global;
use wire_format::encode;

/// The canonical bytes of a message.
fn bytes_of(alloc: Global, types: &Types, id: TypeId, message: &Value) -> Result<Vec<u8>, NoMemory>
    requires { IsValid types.now id message.now }
    ensures { IfOk result (λ bytes. bytes.items ≡ canonical_bytes types.now id message.now) }
{
    let mut bytes = Vec::new(alloc);
    encode(types, id, message, &mut bytes)?;
    Ok(bytes)
}

/// The canonical bytes of the message that a request means, for the method that its binding calls.
pub(crate) fn encoded(
    alloc: Global,
    api: &Api,
    index: u32,
    overlay: &Overlay,
    body: &[u8],
) -> Result<Vec<u8>, NoMemory>
    requires linked { IsLinked api.now }
    requires binding { index < length api.now.bindings }
    requires bodyless { IsBodyless api.now index }
    requires overlay { IsOverlayOf api.now index overlay.now }
    ensures { IfOk result (λ bytes. (binding : Binding) (method : MethodInfo)
        → IsCall api.now index binding method
        → IsMessageOf api.now index overlay.now method.path bytes.items) }
{
    let method = method_at(api, index);
    match bind_body(alloc, api, index, overlay, body) {
        Ok(message) => bytes_of(alloc, &api.types, method.input, &message),
        Err(_) => Err(NoMemory),
    }
}

/// One message.
pub(crate) fn one_message(alloc: Global, bytes: Vec<u8>) -> Result<List<Blob>, NoMemory>
    ensures { IfOk result (λ messages. messages ≡ bytes.items ∷ []) }
{
    let mut messages = List::new(alloc);
    messages.push(Blob::from_vec(bytes))?;
    Ok(messages)
}
