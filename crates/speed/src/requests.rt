//! Requests, over the bindings of a set.
ghost use Rattle.std.specs.Prelude.{IfSome};
ghost use Rattle.linked_api.specs.LinkedApi.{IsLinked};
ghost use Rattle.path_router.specs.RoutableBindings.{IsRouterOf};

use descriptor_set::read_set;
use field_binding::laws;
use linked_api::Api;
use path_router::{Routed, Router};
use schema_link::link;
use std::alloc::Global;
use transcoding::transcode;

/// What is linked of a set; None where it is refused, or without memory.
fn linked(alloc: Global, set: &[u8]) -> Option<Api>
    ensures { IfSome result IsLinked }
{
    let Ok(read) = read_set(alloc, set) else {
        return None;
    };
    match link(alloc, &read) {
        Ok(api) => Some(api),
        Err(_) => None,
    }
}

/// The router of an API; None without memory.
fn router_of(alloc: Global, api: &Api) -> Option<Router>
    requires { IsLinked api.now }
    ensures { IfSome result (λ router. IsRouterOf router api.now.bindings) }
{
    laws::linked_bindings_are_routable();
    match Router::build(alloc, &api.bindings) {
        Ok(router) => Some(router),
        Err(_) => None,
    }
}

/// How many spans the variables of the found binding take, in so many rounds; 0 where none is found.
fn spans_of(api: &Api, router: &Router, method: &[u8], path: &[u8], rounds: usize) -> u64
    requires { IsRouterOf router.now api.now.bindings }
{
    let mut count = 0u64;
    for _ in 0..rounds {
        match router.route(&api.bindings, method, path) {
            Routed::Found(_, captures) => count = count.saturating_add(captures.len() as u64),
            _ => return 0,
        }
    }
    count
}

/// How many messages a request has in so many rounds; 0 where it is refused.
fn messages_of(
    alloc: Global,
    api: &Api,
    router: &Router,
    method: &[u8],
    target: &[u8],
    rounds: usize,
) -> u64
    requires linked { IsLinked api.now }
    requires router { IsRouterOf router.now api.now.bindings }
{
    let mut count = 0u64;
    for _ in 0..rounds {
        match transcode(alloc, api, router, method, target, b"") {
            Ok(request) => count = count.saturating_add(request.messages.len() as u64),
            Err(_) => return 0,
        }
    }
    count
}

/// A path that is routed so often among the bindings of a set.
pub fn route_rounds(alloc: Global, set: &[u8], method: &str, path: &str, rounds: usize) -> u64 {
    let Some(api) = linked(alloc, set) else {
        return 0;
    };
    let Some(router) = router_of(alloc, &api) else {
        return 0;
    };
    spans_of(&api, &router, method.as_bytes(), path.as_bytes(), rounds)
}

/// A target that is transcoded so often over a set.
pub fn bind_rounds(alloc: Global, set: &[u8], method: &str, target: &str, rounds: usize) -> u64 {
    let Some(api) = linked(alloc, set) else {
        return 0;
    };
    let Some(router) = router_of(alloc, &api) else {
        return 0;
    };
    messages_of(
        alloc,
        &api,
        &router,
        method.as_bytes(),
        target.as_bytes(),
        rounds,
    )
}
