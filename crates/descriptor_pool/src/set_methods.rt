//! The methods of a set that have an annotation, and their rules (google/api/http.proto).
ghost use Rattle.std.specs.Prelude.{◌≡◌, ◌++◌, map, IfOk, OnOk};
ghost use Rattle.descriptors.specs.declared.file_set.HttpInfo.{out-HttpInfo};
ghost use Rattle.descriptor_pool.specs.SetMethods.{all_rules, bound_methods, file_methods, grpc_path, http_method, pattern_method, rule_methods, service_methods, with_rule};

use crate::method_path::MethodPath;
use base::NoMemory;
use descriptors::{FileInfo, FileSet, HttpInfo, PatternInfo, RpcInfo, ServiceInfo};
use std::alloc::Global;
use std::marker::Model;

/// A method that has an annotation.
#[derive(Drop)]
pub struct BoundMethod<'a> {
    /// Its gRPC path: a slash, the service's full name, a slash and the method's name.
    pub path: MethodPath<'a>,
    /// Its declaration.
    pub rpc: &'a RpcInfo,
    /// Its annotation.
    pub rule: &'a HttpInfo,
}

impl<'a> Model for BoundMethod<'a> {
    ghost use Rattle.descriptors.specs.contracts.file_set.HttpInfo.{the_row};
    ghost use Rattle.std.specs.Coded.{codes};
    ghost use Rattle.descriptor_pool.specs.SetMethods.{BoundMethod as Seen};

    ghost Value = { Seen };

    ghost coded = { Prim.hlevel (codes, the_row.coded) };

    ghost view = { λ m. record { path = m.path; input = m.rpc.now.input_type; output = m.rpc.now.output_type; rule = m.rule.now; client_streams = m.rpc.now.client_streaming; server_streams = m.rpc.now.server_streaming } };
}

/// Appends a method, where it has an annotation.
fn put_method<'a>(
    out: &mut Vec<BoundMethod<'a>>,
    scope: &'a str,
    service: &'a str,
    rpc: &'a RpcInfo,
) -> Result<(), NoMemory>
    ensures { OnOk result (out.new.items ≡ out.old.items ++ with_rule (grpc_path scope.now service.now rpc.now.name) rpc.now rpc.now.http) }
{
    match &rpc.http {
        Some(rule) => {
            let path = MethodPath::of(scope, service, rpc.name.as_str());
            out.push(BoundMethod { path, rpc, rule })?;
            Ok(())
        }
        None => Ok(()),
    }
}

/// Appends the methods of a service that have an annotation.
fn put_service<'a>(
    out: &mut Vec<BoundMethod<'a>>,
    scope: &'a str,
    service: &'a ServiceInfo,
) -> Result<(), NoMemory>
    ensures { OnOk result (out.new.items ≡ out.old.items ++ service_methods scope.now service.now) }
{
    for rpc in service.method.as_slice() {
        put_method(out, scope, service.name.as_str(), rpc)?;
    }
    Ok(())
}

/// Appends the methods of a file that have an annotation.
fn put_file<'a>(out: &mut Vec<BoundMethod<'a>>, file: &'a FileInfo) -> Result<(), NoMemory>
    ensures { OnOk result (out.new.items ≡ out.old.items ++ file_methods file.now) }
{
    for service in file.service.as_slice() {
        put_service(out, file.package.as_str(), service)?;
    }
    Ok(())
}

/// The methods of a set that have an annotation, in the order of files, services and declarations.
pub fn bound_methods<'a>(alloc: Global, set: &'a FileSet) -> Result<Vec<BoundMethod<'a>>, NoMemory>
    ensures { IfOk result (λ methods. methods.items ≡ bound_methods set.now) }
{
    let mut methods = Vec::new(alloc);
    for file in set.files.as_slice() {
        put_file(&mut methods, file)?;
    }
    Ok(methods)
}

/// Appends rules.
fn put_rules<'a>(out: &mut Vec<&'a HttpInfo>, rules: &'a [HttpInfo]) -> Result<(), NoMemory>
    ensures { OnOk result (map (λ r. r.now) out.new.items ≡ map (λ r. r.now) out.old.items ++ rules.now) }
{
    for rule in rules {
        out.push(rule)?;
    }
    Ok(())
}

/// The rules of the methods: of each its rule and then the additional ones.
pub fn rules_of<'a>(
    alloc: Global,
    methods: &'a [BoundMethod<'a>],
) -> Result<Vec<&'a HttpInfo>, NoMemory>
    ensures { IfOk result (λ rules. map (λ r. r.now) rules.items ≡ all_rules methods.now) }
{
    let mut rules = Vec::new(alloc);
    for method in methods {
        rules.push(method.rule)?;
        put_rules(&mut rules, method.rule.additional_bindings.as_slice())?;
    }
    Ok(rules)
}

/// The HTTP method of a pattern.
pub fn http_method(pattern: &PatternInfo) -> &str
    ensures { result.now ≡ http_method pattern.now }
{
    match pattern {
        PatternInfo::Get(_) => "GET",
        PatternInfo::Put(_) => "PUT",
        PatternInfo::Post(_) => "POST",
        PatternInfo::Delete(_) => "DELETE",
        PatternInfo::Patch(_) => "PATCH",
        PatternInfo::Custom(kind, _) => kind.as_str(),
    }
}

/// Appends the HTTP method of a rule, where it has a pattern.
fn put_rule_method<'a>(out: &mut Vec<&'a [u8]>, rule: &'a HttpInfo) -> Result<(), NoMemory>
    ensures { OnOk result (map (λ t. t.now) out.new.items ≡ map (λ t. t.now) out.old.items ++ pattern_method (out-HttpInfo rule.now).pattern) }
{
    match &rule.pattern {
        Some(pattern) => {
            out.push(http_method(pattern).as_bytes())?;
            Ok(())
        }
        None => Ok(()),
    }
}

/// The HTTP methods of rules, in order.
pub fn rule_methods<'a>(alloc: Global, rules: &[&'a HttpInfo]) -> Result<Vec<&'a [u8]>, NoMemory>
    ensures { IfOk result (λ methods. map (λ t. t.now) methods.items ≡ rule_methods (map (λ r. r.now) rules.now)) }
{
    let mut methods = Vec::new(alloc);
    for rule in rules {
        put_rule_method(&mut methods, *rule)?;
    }
    Ok(methods)
}
