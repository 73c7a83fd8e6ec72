//! The body and the response of a rule (google/api/http.proto, HttpRule).
ghost use Rattle.std.specs.Prelude.{◌≡◌, Some, IfOk};
ghost use Rattle.linked_bindings.specs.BindingFaults.{body_faults, response_faults};
ghost use Rattle.linked_bindings.specs.LinkedBinding.{body_of, number_named, response_of};
ghost use Rattle.message_types.specs.Types.{fields_of};
ghost use Rattle.set_faults.specs.LinkFaults.{IsFirstOf};

use crate::field_names::FieldNames;
use http_rules::Body;
use linked_api::MethodInfo;
use schema::TypeId;
use set_faults::{LinkFault, LinkKind, fault_at};
use std::alloc::Global;

/// The number of the field of a name.
fn number_named(names: &FieldNames<'_>, id: TypeId, name: &str) -> Option<u32>
    ensures { result ≡ number_named (fields_of names.now id) name.now }
{
    match names.field_named(id, name) {
        Some(field) => Some(field.number),
        None => None,
    }
}

/// What a body is: nothing, the whole message, or a field.
fn body_of(names: &FieldNames<'_>, id: TypeId, body: &str) -> Option<Body>
    ensures { result ≡ body_of (fields_of names.now id) body.now }
{
    if body.is_empty() {
        return Some(Body::Nothing);
    }
    if body == "*" {
        return Some(Body::Whole);
    }
    match number_named(names, id, body) {
        Some(number) => Some(Body::Part(number)),
        None => None,
    }
}

/// What a response is: the whole message, or a field.
fn response_of(names: &FieldNames<'_>, id: TypeId, name: &str) -> Option<Option<u32>>
    ensures { result ≡ response_of (fields_of names.now id) name.now }
{
    if name.is_empty() {
        return Some(None);
    }
    match number_named(names, id, name) {
        Some(number) => Some(Some(number)),
        None => None,
    }
}

/// The body of a method's rule, or its fault.
pub(crate) fn link_body(
    alloc: Global,
    names: &FieldNames<'_>,
    method: &MethodInfo,
    body: &str,
) -> Result<Body, LinkFault>
    ensures first { IsFirstOf result (body_faults names.now method.now body.now) }
    ensures body { IfOk result (λ b. body_of (fields_of names.now method.now.input) body.now ≡ Some b) }
{
    match body_of(names, method.input, body) {
        Some(found) => Ok(found),
        None => Err(fault_at(alloc, LinkKind::BodyField, method.path.as_str(), body)),
    }
}

/// The response of a method's rule, or its fault.
pub(crate) fn link_response(
    alloc: Global,
    names: &FieldNames<'_>,
    method: &MethodInfo,
    name: &str,
) -> Result<Option<u32>, LinkFault>
    ensures first { IsFirstOf result (response_faults names.now method.now name.now) }
    ensures response { IfOk result (λ r. response_of (fields_of names.now method.now.output) name.now ≡ Some r) }
{
    match response_of(names, method.output, name) {
        Some(found) => Ok(found),
        None => Err(fault_at(alloc, LinkKind::ResponseField, method.path.as_str(), name)),
    }
}
