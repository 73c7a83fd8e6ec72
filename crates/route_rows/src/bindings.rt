//! Bindings that are read of texts.
ghost use Rattle.std.specs.Prelude.{◌≤◌, map, IfOk, IfSome, IsTrue};
ghost use Rattle.std.specs.List.{AllByRecursion};
ghost use Rattle.std.specs.Set.{distinct_count};
ghost use Rattle.std.specs.Str.{bytes_eq};
ghost use Rattle.http_rules.specs.Routes.{AreRoutesApart};
ghost use Rattle.http_rules.specs.Template.{IsTemplate};
ghost use Rattle.path_router.specs.RoutableBindings.{AreRoutable};

use base::{List, Text};
use http_rules::{Binding, Body, TemplateFault, first_repeated_route, laws, parse_template};
use path_router::method_count;
use std::alloc::Global;
use std::io;

/// The failure of a row for which no memory was found.
fn no_memory() -> io::Error {
    io::Error::from(io::ErrorKind::OutOfMemory)
}

/// A binding without fields, or None where the text is no template.
fn read_binding(alloc: Global, method: &str, template: &str) -> io::Result<Option<Binding>>
    ensures { IfOk result (λ read. IfSome read (λ b. IsTemplate b.template)) }
{
    let Ok(method) = Text::copy_of(alloc, method) else {
        return Err(no_memory());
    };
    match parse_template(alloc, template) {
        Ok(template) => Ok(Some(Binding {
            method,
            template,
            paths: List::new(alloc),
            body: Body::Nothing,
            response: None,
            call: 0,
        })),
        Err(TemplateFault::NoMemory) => Err(no_memory()),
        Err(_) => Ok(None),
    }
}

/// The bindings of texts, or None where one is no template.
pub(crate) fn read_bindings(
    alloc: Global,
    texts: &[(Text, Text)],
) -> io::Result<Option<List<Binding>>>
    ensures { IfOk result (λ read. IfSome read (λ bs. AllByRecursion (λ b. IsTemplate b.template) bs)) }
{
    let mut bindings: List<Binding> = List::new(alloc);
    for (method, template) in texts {
        match read_binding(alloc, method.as_str(), template.as_str())? {
            Some(binding) => {
                if bindings.push(binding).is_err() {
                    return Err(no_memory());
                }
            }
            None => return Ok(None),
        }
    }
    Ok(Some(bindings))
}

/// True where no two bindings are one route.
fn is_apart(alloc: Global, bindings: &[Binding]) -> io::Result<bool>
    requires { AllByRecursion (λ b. IsTemplate b.template) bindings.now }
    ensures { IfOk result (λ apart. IsTrue apart → AreRoutesApart bindings.now) }
{
    laws::routes_apart_repeat_none();
    match first_repeated_route(alloc, bindings) {
        Ok(Some(_)) => Ok(false),
        Ok(None) => Ok(true),
        Err(_) => Err(no_memory()),
    }
}

/// True where bindings have at most 64 methods.
fn has_few_methods(alloc: Global, bindings: &[Binding]) -> io::Result<bool>
    ensures { IfOk result (λ few. IsTrue few → distinct_count bytes_eq (map (λ b. b.method) bindings.now) ≤ 64) }
{
    match method_count(alloc, bindings) {
        Ok(count) => Ok(count <= 64),
        Err(_) => Err(no_memory()),
    }
}

/// True where a router can be built of the bindings.
pub(crate) fn is_routable(alloc: Global, bindings: &List<Binding>) -> io::Result<bool>
    requires { AllByRecursion (λ b. IsTemplate b.template) bindings.now }
    ensures { IfOk result (λ routable. IsTrue routable → AreRoutable bindings.now) }
{
    if bindings.len() >= 1 << 32 || !has_few_methods(alloc, bindings.as_slice())? {
        return Ok(false);
    }
    is_apart(alloc, bindings.as_slice())
}
