//! Laws of the definitions that the calls' contracts cite. Each is the contract of an empty function.
ghost use Rattle.std.specs.Prelude.{◌≡◌, ◌≢◌, ◌<◌, List, ℕ, Result, Err, length};
ghost use Rattle.field_binding.specs.Assignments.{Assignments};
ghost use Rattle.gate_world.specs.declared.refusal.Refusal.TheVariants as refusals;
ghost use Rattle.gate_world.specs.declared.value_fault.ValueFault.{ValueFault};
ghost use Rattle.linked_api.specs.LinkedApi.{IsLinked};
ghost use Rattle.linked_api.specs.declared.api.Api.{Api};
ghost use Rattle.path_router.specs.RouteChoice.{IsWrongMethod};
ghost use Rattle.path_router.specs.TargetPath.{IsTargetPath};
ghost use Rattle.path_router.specs.declared.captures.Span.{Span};
ghost use Rattle.transcoding.specs.CauseOrder.{MeansOnly};
ghost use Rattle.transcoding.specs.RoutedRequest.{IsMethodNotServed, IsPathUnknown};
ghost use Rattle.transcoding.specs.TranscodedRequest.{HasMessage, IsBoundRequest, IsNotBuilt, IsReadable, IsTranscoding, IsWrongValue, TranscodedRequest};
ghost use Rattle.transcoding.specs.declared.refusal.RequestRefusal.{RequestRefusal};
ghost use Rattle.transcoding.specs.declared.refusal.RequestRefusal.TheVariants as requests;

/// A request means one gRPC request, or is refused for one cause, but for out of memory.
pub fn one_transcoding()
    ensures { (api : Api) (method target body : List ℕ) (r s : Result TranscodedRequest RequestRefusal) → IsLinked api
        → IsTranscoding api method target body r → IsTranscoding api method target body s
        → r ≢ Err (requests.Listed refusals.NoMemory) → s ≢ Err (requests.Listed refusals.NoMemory) → r ≡ s }
{
    path_router::laws::one_path_of_a_target();
    path_router::laws::one_choice();
    field_binding::laws::one_path_binding();
    field_binding::laws::one_request_message();
}

/// Each request of a linked API means a gRPC request, or is refused for a cause other than out of memory.
pub fn each_request_is_answered()
    ensures { (api : Api) (method target body : List ℕ) → IsLinked api
        → (r : Result TranscodedRequest RequestRefusal) × IsTranscoding api method target body r
        × (r ≢ Err (requests.Listed refusals.NoMemory)) }
{
    path_router::laws::which_targets_have_paths();
    path_router::laws::one_path_of_a_target();
    path_router::laws::each_request_has_a_choice();
    path_router::laws::found_spans_lie_inside();
    field_binding::laws::each_path_is_bound();
    field_binding::laws::path_bindings_are_overlays();
    field_binding::laws::every_overlay_has_a_message();
    field_binding::laws::linked_bindings_are_routable();
    linked_api::laws::bindings_are_servable();
}

/// Where several causes meet the first one counts, whatever comes behind it: a method that is never served, before
/// the target; a path that is unknown; a method that is not allowed; a form that is not built; a wrong value; a long
/// body; a long message.
pub fn first_cause_counts()
    ensures method { (api : Api) (method target body : List ℕ) → IsLinked api → IsMethodNotServed method
        → MeansOnly api method target body (Err (requests.Listed refusals.MethodNotServed)) }
    ensures path { (api : Api) (method target body : List ℕ) → IsLinked api → IsPathUnknown api method target
        → MeansOnly api method target body (Err (requests.Listed refusals.PathUnknown)) }
    ensures wrong_method { (api : Api) (method target body path : List ℕ) (bits : ℕ) → IsLinked api
        → (IsMethodNotServed method → ⊥) → IsTargetPath target path → IsWrongMethod api.bindings method path bits
        → MeansOnly api method target body (Err (requests.Listed refusals.MethodNotAllowed)) }
    ensures not_built { (api : Api) (method target body : List ℕ) → IsLinked api → IsNotBuilt api method target
        → MeansOnly api method target body (Err requests.NotBuilt) }
    ensures value { (api : Api) (method target body path : List ℕ) (index : ℕ) (spans : List Span) (n : ℕ)
        (fault : ValueFault) → IsLinked api → IsReadable api method target path index spans
        → IsWrongValue api index path spans n fault
        → MeansOnly api method target body (Err (requests.Listed (refusals.PathValue n fault))) }
    ensures body { (api : Api) (method target body : List ℕ) (index : ℕ) (a : Assignments) → IsLinked api
        → IsBoundRequest api method target index a → 1048576 < length body
        → MeansOnly api method target body (Err (requests.Listed refusals.BodyTooLong)) }
    ensures message { (api : Api) (method target body path bytes : List ℕ) → IsLinked api
        → HasMessage api method target body path bytes → 1048576 < length bytes
        → MeansOnly api method target body (Err (requests.Listed refusals.MessageTooLong)) }
{
    path_router::laws::one_path_of_a_target();
    path_router::laws::one_choice();
    field_binding::laws::one_path_binding();
    field_binding::laws::one_request_message();
}
