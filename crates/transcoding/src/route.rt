//! Where a request leads (RFC 9110, section 9; google/api/http.proto).
ghost use Rattle.std.specs.Prelude.{◌↔◌, IfErr, IfOk, IsTrue};
ghost use Rattle.path_router.specs.RoutableBindings.{IsRouterOf};
ghost use Rattle.transcoding.specs.RoutedRequest.{IsMethodNotServed, IsRouted};
ghost use Rattle.transcoding.specs.TranscodingSteps.{IsRouteRefusal};

use crate::refusal::RequestRefusal;
use gate_world::Refusal;
use linked_api::Api;
use path_router::{Captures, Routed, Router, laws, target_path};

/// Where a request leads.
#[derive(Debug, Drop)]
pub(crate) struct Route<'t> {
    /// The path of its target.
    pub(crate) path: &'t [u8],
    /// The index of its binding.
    pub(crate) binding: u32,
    /// What the variables of the binding take of the path.
    pub(crate) captures: Captures,
}

/// True for the methods that are never served.
fn is_method_not_served(method: &[u8]) -> bool
    ensures { IsTrue result ↔ IsMethodNotServed method.now }
{
    method == b"HEAD".as_slice() || method == b"CONNECT".as_slice()
}

/// Where a request leads. Takes no memory.
pub(crate) fn find_route<'t>(
    api: &Api,
    router: &Router,
    method: &[u8],
    target: &'t [u8],
) -> Result<Route<'t>, RequestRefusal>
    requires router { IsRouterOf router.now api.now.bindings }
    ensures ok { IfOk result (λ route.
        IsRouted api.now method.now target.now route.path.now route.binding route.captures) }
    ensures err { IfErr result (IsRouteRefusal api.now method.now target.now) }
{
    laws::one_path_of_a_target();
    if is_method_not_served(method) {
        return Err(RequestRefusal::Listed(Refusal::MethodNotServed));
    }
    let Some(path) = target_path(target) else {
        return Err(RequestRefusal::Listed(Refusal::PathUnknown));
    };
    match router.route(&api.bindings, method, path) {
        Routed::Found(binding, captures) => Ok(Route {
            path,
            binding,
            captures,
        }),
        Routed::WrongMethod(_) => Err(RequestRefusal::Listed(Refusal::MethodNotAllowed)),
        Routed::NotFound => Err(RequestRefusal::Listed(Refusal::PathUnknown)),
    }
}
