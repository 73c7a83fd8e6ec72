//! Methods and bindings that are linked.

use crate::types::message_name;
use http_rules::Binding;
use schema::{List, Types};
use schema_link::{Api, MethodInfo};
use std::alloc::Global;
use std::io;

/// Appends a method with its types.
fn put_method(
    alloc: Global,
    out: &mut String,
    types: &Types,
    method: &MethodInfo,
) -> io::Result<()> {
    let (input, output) = (
        message_name(types, method.input),
        message_name(types, method.output),
    );
    let (path, from_client, from_server) = (
        method.path.as_str(),
        method.client_streams,
        method.server_streams,
    );
    let told = format!(in alloc; "method {path} {input} {output} {from_client} {from_server};")?;
    Ok(out.push_str(told.as_str())?)
}

/// Appends the numbers of the fields of a path.
fn put_path(alloc: Global, out: &mut String, path: &List<u32>) -> io::Result<()> {
    out.push_str("/")?;
    for number in path.as_slice() {
        out.push_str(format!(in alloc; ".{number}")?.as_str())?;
    }
    Ok(())
}

/// Appends a binding without its template: its method, the index of its call, its paths, its body and its response.
fn put_binding(alloc: Global, out: &mut String, binding: &Binding) -> io::Result<()> {
    let (method, call) = (binding.method.as_str(), binding.call);
    out.push_str(format!(in alloc; "binding {method} {call} ")?.as_str())?;
    out.push_str(if binding.paths.is_empty() { "-" } else { "" })?;
    for path in binding.paths.as_slice() {
        put_path(alloc, out, path)?;
    }
    let (body, response) = (&binding.body, &binding.response);
    let rest = format!(in alloc; " {body:?} {response:?};")?;
    Ok(out.push_str(rest.as_str())?)
}

/// Appends all methods, and then all bindings.
pub(crate) fn put_bindings(alloc: Global, out: &mut String, api: &Api) -> io::Result<()> {
    for method in api.methods.as_slice() {
        put_method(alloc, out, &api.types, method)?;
    }
    for binding in api.bindings.as_slice() {
        put_binding(alloc, out, binding)?;
    }
    Ok(())
}
