//! When bindings are one route (google/api/http.proto, HttpRule).
ghost use Rattle.std.specs.Prelude.{◌≡◌, ◌++◌, ◌∷◌, ℕ, List, map, option_map, slice_get, IfOk, OnOk};
ghost use Rattle.std.specs.List.{AllByRecursion};
ghost use Rattle.http_rules.specs.Routes.{repeated_routes, route_text};
ghost use Rattle.http_rules.specs.Template.{IsTemplate};

use crate::printer::{put_slashed, put_verb};
use crate::template::Binding;
use base::{Blob, NoMemory};
use std::alloc::Global;
use std::collections::BTreeMap;

/// The text of the route of a binding: its segments and its verb, a space, and its method.
fn route_text(alloc: Global, binding: &Binding) -> Result<Blob, NoMemory>
    ensures { IfOk result (λ text. text ≡ route_text binding.now) }
{
    let mut text = Vec::new(alloc);
    put_slashed(&mut text, binding.template.segments.as_slice())?;
    put_verb(&mut text, &binding.template.verb)?;
    text.push(b' ')?;
    text.extend_from_slice(binding.method.as_str().as_bytes())?;
    Ok(Blob::from_vec(text))
}

/// The texts of the routes of bindings.
fn route_texts(alloc: Global, bindings: &[Binding]) -> Result<Vec<Blob>, NoMemory>
    ensures { IfOk result (λ texts. texts.items ≡ map route_text bindings.now) }
{
    let mut texts = Vec::new(alloc);
    for binding in bindings {
        texts.push(route_text(alloc, binding)?)?;
    }
    Ok(texts)
}

/// The first binding that is one route with an earlier one, behind the earliest such one; None where
/// no two bindings are one route. Routes are looked up by their texts in a map that is in order, so
/// no binding is compared with each other one; the memory is that of the texts.
pub fn first_repeated_route<'a>(
    alloc: Global,
    bindings: &'a [Binding],
) -> Result<Option<(&'a Binding, &'a Binding)>, NoMemory>
    requires { AllByRecursion (λ b. IsTemplate b.template) bindings.now }
    ensures { IfOk result (λ pair. option_map (λ p. (p.0.now, p.1.now)) pair
        ≡ slice_get (repeated_routes bindings.now) 0) }
{
    let texts = route_texts(alloc, bindings)?;
    let mut first = BTreeMap::new(alloc);
    for (i, text) in texts.iter().enumerate() {
        let binding = &bindings[i];
        if let Some(earlier) = first.get(text.as_slice()).copied() {
            return Ok(Some((earlier, binding)));
        }
        first.insert(text.as_slice(), binding)?;
    }
    Ok(None)
}
