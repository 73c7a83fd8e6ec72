//! Laws of the definitions that the calls' contracts cite. Each is the contract of an empty function.
ghost use Rattle.std.specs.Prelude.{◌≡◌, ◌≢◌, ℕ, List, Result, Ok, Err};
ghost use Rattle.field_binding.specs.Assignments.{Assignments};
ghost use Rattle.field_binding.specs.PathSettings.{AreCapturesOf, BindsScalars, IsPathBinding};
ghost use Rattle.field_binding.specs.RequestMessages.{IsInput, IsOverlayOf, IsRequestMessage};
ghost use Rattle.field_binding.specs.declared.fault.BindFault.{BindFault};
ghost use Rattle.field_binding.specs.declared.fault.BindFault.TheVariants.{NoMemory as no_memory};
ghost use Rattle.linked_api.specs.LinkedApi.{IsLinked};
ghost use Rattle.linked_api.specs.declared.api.Api.{Api};
ghost use Rattle.path_router.specs.RoutableBindings.{AreRoutable};
ghost use Rattle.path_router.specs.declared.captures.Span.{Span};
ghost use Rattle.schema.specs.declared.value.Value.{Value};

/// What is bound of a path is one thing, but for out of memory.
pub fn one_path_binding()
    ensures { (api : Api) (index : ℕ) (path : List ℕ) (spans : List Span) (r s : Result Assignments BindFault)
        → IsPathBinding api index path spans r → IsPathBinding api index path spans s
        → r ≢ Err no_memory → s ≢ Err no_memory → r ≡ s }
{
    scalar_texts::laws::one_reading_of_a_text();
}

/// Each path is bound, or a variable of it is at fault.
pub fn each_path_is_bound()
    ensures { (api : Api) (index : ℕ) (path : List ℕ) (spans : List Span) → IsLinked api
        → AreCapturesOf api index path spans → BindsScalars api index
        → (r : Result Assignments BindFault) × IsPathBinding api index path spans r × (r ≢ Err no_memory) }
{
    linked_api::laws::bindings_are_servable();
    scalar_texts::laws::every_text_is_read();
}

/// A request has one message.
pub fn one_request_message()
    ensures { (api : Api) (index : ℕ) (a : Assignments) (v w : Value)
        → IsRequestMessage api index a v → IsRequestMessage api index a w → v ≡ w }
{
    field_settings::laws::one_value_is_set();
}

/// Of what fits there is a message, and it is one of the input of the method.
pub fn every_overlay_has_a_message()
    ensures { (api : Api) (index : ℕ) (a : Assignments) → IsLinked api → IsOverlayOf api index a
        → (v : Value) × IsRequestMessage api index a v × IsInput api index v }
{
    field_settings::laws::what_fits_is_set();
}

/// What a path binds fits the input of the method that is called, so that a message can be made of it.
pub fn path_bindings_are_overlays()
    ensures { (api : Api) (index : ℕ) (path : List ℕ) (spans : List Span) (a : Assignments) → IsLinked api
        → IsPathBinding api index path spans (Ok a) → IsOverlayOf api index a }
{
    linked_api::laws::bindings_are_servable();
    scalar_texts::laws::readings_are_scalars();
}

/// A router can be built of the bindings of a linked API.
pub fn linked_bindings_are_routable()
    ensures { (api : Api) → IsLinked api → AreRoutable api.bindings }
{}
