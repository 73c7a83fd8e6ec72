//! What the path of a request sets, or which of its values is wrong.
ghost use Rattle.std.specs.Prelude.{◌≡◌, List, ℕ, IfErr, IfOk, Ok, Err};
ghost use Rattle.field_binding.specs.PathSettings.{IsPathBinding};
ghost use Rattle.linked_api.specs.LinkedApi.{IsLinked};
ghost use Rattle.linked_api.specs.declared.api.Api.{Api};
ghost use Rattle.path_router.specs.declared.captures.Span.{Span};
ghost use Rattle.transcoding.specs.TranscodedRequest.{value_fault_of};
ghost use Rattle.transcoding.specs.TranscodingSteps.{IsReady, IsValueRefusal};

use crate::refusal::RequestRefusal;
use crate::route::Route;
use field_binding::{BindFault, Overlay, ValueKind, bind_path};
use gate_world::{Refusal, ValueFault};
use linked_api::Api;
use std::alloc::Global;

/// What is wrong with the value of a variable, as it is told.
fn value_fault(kind: ValueKind) -> ValueFault
    ensures { result ≡ value_fault_of kind }
{
    match kind {
        ValueKind::BadText => ValueFault::BadText,
        ValueKind::BadNumber => ValueFault::BadNumber,
        ValueKind::OutOfRange => ValueFault::OutOfRange,
        ValueKind::BadEnum => ValueFault::BadEnum,
        ValueKind::NotUtf8 => ValueFault::NotUtf8,
        ValueKind::TooDeep => ValueFault::TooDeep,
    }
}

/// The refusal of a request that is not bound.
fn refusal_of(fault: BindFault) -> RequestRefusal
    ensures { (api : Api) (index : ℕ) (path : List ℕ) (spans : List Span)
        → IsPathBinding api index path spans (Err fault) → IsValueRefusal api index path spans result }
{
    match fault {
        BindFault::Path(number, kind) => {
            RequestRefusal::Listed(Refusal::PathValue(number, value_fault(kind)))
        }
        BindFault::NoMemory => RequestRefusal::Listed(Refusal::NoMemory),
    }
}

/// What the path of a request sets.
pub(crate) fn bound(alloc: Global, api: &Api, route: &Route<'_>) -> Result<Overlay, RequestRefusal>
    requires linked { IsLinked api.now }
    requires ready { IsReady api.now route.now.binding route.now.path.now route.now.captures }
    ensures ok { IfOk result (λ a.
        IsPathBinding api.now route.now.binding route.now.path.now route.now.captures (Ok a)) }
    ensures err { IfErr result (IsValueRefusal api.now route.now.binding route.now.path.now route.now.captures) }
{
    match bind_path(alloc, api, route.binding, route.path, &route.captures) {
        Ok(overlay) => Ok(overlay),
        Err(fault) => Err(refusal_of(fault)),
    }
}
