//! Services, methods and rules of a set.

use crate::pieces::or_dash;
use descriptor_set::{HttpInfo, PatternInfo, RpcInfo, ServiceInfo};
use std::alloc::Global;
use std::io;

/// Appends a method and its template.
fn put_pattern(alloc: Global, out: &mut String, pattern: &PatternInfo) -> io::Result<()> {
    let (method, template) = match pattern {
        PatternInfo::Get(template) => ("GET", template),
        PatternInfo::Put(template) => ("PUT", template),
        PatternInfo::Post(template) => ("POST", template),
        PatternInfo::Delete(template) => ("DELETE", template),
        PatternInfo::Patch(template) => ("PATCH", template),
        PatternInfo::Custom(method, template) => (method.as_str(), template),
    };
    let is_custom = matches!(pattern, PatternInfo::Custom(_, _));
    out.push_str(if is_custom { "custom " } else { "" })?;
    Ok(out.push_str(format!(in alloc; "{method} {} ", template.as_str())?.as_str())?)
}

/// Appends a rule without its additional bindings.
fn put_rule(alloc: Global, out: &mut String, rule: &HttpInfo) -> io::Result<()> {
    out.push_str("rule ")?;
    match &rule.pattern {
        Some(pattern) => put_pattern(alloc, out, pattern)?,
        None => out.push_str("no pattern ")?,
    }
    let (body, response) = (rule.body.as_str(), rule.response_body.as_str());
    let rest = format!(in alloc; "{} {} ", or_dash(body), or_dash(response))?;
    Ok(out.push_str(rest.as_str())?)
}

/// Appends a method with its rules.
fn put_method(alloc: Global, out: &mut String, method: &RpcInfo) -> io::Result<()> {
    let name = method.name.as_str();
    let (input, output) = (method.input_type.as_str(), method.output_type.as_str());
    let (from_client, from_server) = (method.client_streaming, method.server_streaming);
    let head = format!(in alloc; "{name} {input} {output} {from_client} {from_server} ")?;
    out.push_str(head.as_str())?;
    match &method.http {
        Some(rule) => {
            put_rule(alloc, out, rule)?;
            for also in rule.additional_bindings.as_slice() {
                put_rule(alloc, out, also)?;
            }
        }
        None => out.push_str("no rule ")?,
    }
    Ok(())
}

/// Appends services with their methods.
pub(crate) fn put_services(
    alloc: Global,
    out: &mut String,
    services: &[ServiceInfo],
) -> io::Result<()> {
    for service in services {
        out.push_str(format!(in alloc; "service {} ", service.name.as_str())?.as_str())?;
        for method in service.method.as_slice() {
            put_method(alloc, out, method)?;
        }
    }
    Ok(())
}
