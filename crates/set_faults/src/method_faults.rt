//! Faults of methods that have an annotation (google/api/http.proto).
ghost use Rattle.std.specs.Prelude.{◌≡◌, ◌++◌, ◌∷◌, [], option_and_then, option_to_list, IfOk, OnOk};
ghost use Rattle.std.specs.List.{flat_map};
ghost use Rattle.descriptor_pool.specs.SetMethods.{all_rules, method_rules};
ghost use Rattle.set_faults.specs.LinkFaults.{IsFirstOf};
ghost use Rattle.set_faults.specs.MethodFaults.{additional_faults, kind_faults, method_faults, methods_faults, pattern_faults, pattern_template, templates_of, unknown_message};

use crate::fault::{LinkFault, LinkKind};
use crate::templates::{pattern_text, read_template};
use crate::told_name::{ToldName, fault_of, refuse_where};
use descriptor_pool::{BoundMethod, MethodPath, SetTypes};
use descriptors::{HttpInfo, PatternInfo};
use http_rules::{Template, is_method_kind};
use std::alloc::Global;

/// Refuses a type name that names no message of the set.
fn check_message<'a>(
    alloc: Global,
    types: &SetTypes<'a>,
    path: &MethodPath<'_>,
    type_name: &'a str,
) -> Result<(), LinkFault>
    ensures { IsFirstOf result (unknown_message types.now path.now type_name.now) }
{
    let unknown = types.message_named(type_name).is_none();
    let (path, named) = (ToldName::Path(path), ToldName::Plain(type_name));
    refuse_where(alloc, unknown, LinkKind::UnknownType, path, named)
}

/// Refuses a custom pattern of a kind that is no method.
fn check_kind(alloc: Global, path: &MethodPath<'_>, pattern: &PatternInfo) -> Result<(), LinkFault>
    ensures { IsFirstOf result (kind_faults path.now pattern.now) }
{
    match pattern {
        PatternInfo::Custom(kind, _) => {
            let other = !is_method_kind(kind.as_str());
            let (path, named) = (ToldName::Path(path), ToldName::Plain(kind.as_str()));
            refuse_where(alloc, other, LinkKind::BadMethod, path, named)
        }
        _ => Ok(()),
    }
}

/// Appends the template of a pattern, or refuses one that is absent, has a kind that is no method, or
/// then a text that is no template.
#[tactic(auto, using(crate::proofs::Theorems::first_faults))]
fn put_template(
    alloc: Global,
    out: &mut Vec<Template>,
    path: &MethodPath<'_>,
    pattern: &Option<PatternInfo>,
) -> Result<(), LinkFault>
    ensures first { IsFirstOf result (pattern_faults path.now pattern.now) }
    ensures template { OnOk result
        (out.new.items ≡ out.old.items ++ option_to_list (option_and_then pattern_template pattern.now)) }
{
    match pattern {
        Some(pattern) => {
            check_kind(alloc, path, pattern)?;
            out.push(read_template(alloc, path, pattern_text(pattern))?)?;
            Ok(())
        }
        None => {
            let path = ToldName::Path(path);
            Err(fault_of(alloc, LinkKind::NoPattern, path, ToldName::Nothing))
        }
    }
}

/// Appends the template of an additional rule, or refuses one that has additional rules, or a fault
/// of any rule.
#[tactic(auto, using(crate::proofs::Theorems::first_faults))]
fn put_additional(
    alloc: Global,
    out: &mut Vec<Template>,
    path: &MethodPath<'_>,
    rule: &HttpInfo,
) -> Result<(), LinkFault>
    ensures first { IsFirstOf result (additional_faults path.now rule.now) }
    ensures template { OnOk result (out.new.items ≡ out.old.items ++ templates_of (rule.now ∷ [])) }
{
    let nested = !rule.additional_bindings.is_empty();
    let (kind, none) = (LinkKind::NestedAdditional, ToldName::Nothing);
    refuse_where(alloc, nested, kind, ToldName::Path(path), none)?;
    put_template(alloc, out, path, &rule.pattern)
}

/// Appends the templates of additional rules, or refuses their first fault.
#[tactic(auto, using(crate::proofs::Theorems::first_faults))]
fn put_each_additional(
    alloc: Global,
    out: &mut Vec<Template>,
    path: &MethodPath<'_>,
    rules: &[HttpInfo],
) -> Result<(), LinkFault>
    ensures first { IsFirstOf result (flat_map (additional_faults path.now) rules.now) }
    ensures templates { OnOk result (out.new.items ≡ out.old.items ++ templates_of rules.now) }
{
    for rule in rules {
        put_additional(alloc, out, path, rule)?;
    }
    Ok(())
}

/// Appends the templates of a method, or refuses one whose input or output is not declared, or the
/// first fault of its rules.
#[tactic(auto, using(crate::proofs::Theorems::first_faults))]
fn put_method<'a>(
    alloc: Global,
    out: &mut Vec<Template>,
    types: &SetTypes<'a>,
    method: &BoundMethod<'a>,
) -> Result<(), LinkFault>
    ensures first { IsFirstOf result (method_faults types.now method.now) }
    ensures templates { OnOk result (out.new.items ≡ out.old.items ++ templates_of (method_rules method.now)) }
{
    let path = &method.path;
    check_message(alloc, types, path, method.rpc.input_type.as_str())?;
    check_message(alloc, types, path, method.rpc.output_type.as_str())?;
    put_template(alloc, out, path, &method.rule.pattern)?;
    put_each_additional(alloc, out, path, method.rule.additional_bindings.as_slice())
}

/// The templates of the methods' rules, in order, or the first fault of the methods.
#[tactic(auto, using(crate::proofs::Theorems::first_faults))]
pub(crate) fn check_methods<'a>(
    alloc: Global,
    types: &SetTypes<'a>,
    methods: &[BoundMethod<'a>],
) -> Result<Vec<Template>, LinkFault>
    ensures first { IsFirstOf result (methods_faults types.now methods.now) }
    ensures templates { IfOk result (λ templates. templates.items ≡ templates_of (all_rules methods.now)) }
{
    let mut templates = Vec::new(alloc);
    for method in methods {
        put_method(alloc, &mut templates, types, method)?;
    }
    Ok(templates)
}
