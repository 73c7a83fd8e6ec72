//! Linking of one rule.
ghost use Rattle.std.specs.Prelude.{◌≡◌, Some, IfOk};
ghost use Rattle.linked_bindings.specs.BindingFaults.{binding_faults};
ghost use Rattle.linked_bindings.specs.LinkedBinding.{linked_binding};
ghost use Rattle.set_faults.specs.LinkFaults.{IsFirstOf};

use crate::bodies::{link_body, link_response};
use crate::field_names::FieldNames;
use crate::variable_paths::link_paths;
use base::Text;
use descriptors::HttpInfo;
use http_rules::{Binding, Template};
use linked_api::MethodInfo;
use set_faults::LinkFault;
use std::alloc::Global;

/// Links a rule of a method, which has this HTTP method and this template, or answers its first fault: of
/// its variables' paths in order, of its body, of its response. `call` is the method's index.
#[tactic(auto, using(set_faults::proofs::Theorems::first_faults))]
pub fn link_binding(
    alloc: Global,
    names: &FieldNames<'_>,
    method: &MethodInfo,
    call: u32,
    http_method: &str,
    rule: &HttpInfo,
    template: Template,
) -> Result<Binding, LinkFault>
    ensures first { IsFirstOf result (binding_faults names.now method.now rule.now template) }
    ensures binding { IfOk result (λ b.
        linked_binding names.now method.now call http_method.now rule.now template ≡ Some b) }
{
    let paths = link_paths(alloc, names, method, template.variables.as_slice())?;
    let body = link_body(alloc, names, method, rule.body.as_str())?;
    let response = link_response(alloc, names, method, rule.response_body.as_str())?;
    Ok(Binding {
        method: Text::copy_of(alloc, http_method)?,
        template,
        paths,
        body,
        response,
        call,
    })
}
