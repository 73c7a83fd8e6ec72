//! Which gRPC request a request means.
ghost use Rattle.std.specs.Prelude.{◌<◌, ℕ, List, length};
ghost use Rattle.linked_api.specs.LinkedApi.{IsLinked};
ghost use Rattle.path_router.specs.RoutableBindings.{IsRouterOf};
ghost use Rattle.transcoding.specs.TranscodedRequest.{IsReadable, IsTranscoding};
ghost use Rattle.transcoding.specs.TranscodedView.{answer_view};
ghost use Rattle.transcoding.specs.TranscodingSteps.{IsReady};

use crate::forms::{is_built, method_at};
use crate::message::{encoded, one_message};
use crate::refusal::RequestRefusal;
use crate::route::{Route, find_route};
use crate::transcoded::Transcoded;
use crate::values::bound;
use field_binding::laws;
use gate_world::Refusal;
use linked_api::Api;
use path_router::Router;
use std::alloc::Global;

/// The most bytes of a body.
pub const MAX_BODY_BYTES: usize = 1_048_576;

/// The most bytes of a message.
const MAX_MESSAGE_BYTES: usize = 1_048_576;

/// What a request means that is readable, with this body.
fn transcoded<'a>(
    alloc: Global,
    api: &'a Api,
    route: &Route<'_>,
    body: &[u8],
) -> Result<Transcoded<'a>, RequestRefusal>
    requires linked { IsLinked api.now }
    requires binding { route.now.binding < length api.now.bindings }
    requires ready { IsReady api.now route.now.binding route.now.path.now route.now.captures }
    ensures { (method target : List ℕ)
        → IsReadable api.now method target route.now.path.now route.now.binding route.now.captures
        → IsTranscoding api.now method target body.now (answer_view result) }
{
    laws::path_bindings_are_overlays();
    let method = method_at(api, route.binding);
    let overlay = bound(alloc, api, route)?;
    if body.len() > MAX_BODY_BYTES {
        return Err(RequestRefusal::Listed(Refusal::BodyTooLong));
    }
    let bytes = encoded(alloc, api, route.binding, &overlay, body)?;
    if bytes.len() > MAX_MESSAGE_BYTES {
        return Err(RequestRefusal::Listed(Refusal::MessageTooLong));
    }
    let messages = one_message(alloc, bytes)?;
    Ok(Transcoded {
        path: &method.path,
        messages,
    })
}

/// The gRPC request that a request means, or why it is refused: the first cause in the order of the table, with a form
/// that is not built behind a method that is not allowed. The router is that of the API's bindings. Only the number of
/// the body's bytes counts so far.
pub fn transcode<'a>(
    alloc: Global,
    api: &'a Api,
    router: &Router,
    method: &[u8],
    target: &[u8],
    body: &[u8],
) -> Result<Transcoded<'a>, RequestRefusal>
    requires linked { IsLinked api.now }
    requires router { IsRouterOf router.now api.now.bindings }
    ensures { IsTranscoding api.now method.now target.now body.now (answer_view result) }
{
    path_router::laws::found_spans_lie_inside();
    let route = find_route(api, router, method, target)?;
    if !is_built(api, target, route.binding) {
        return Err(RequestRefusal::NotBuilt);
    }
    transcoded(alloc, api, &route, body)
}
