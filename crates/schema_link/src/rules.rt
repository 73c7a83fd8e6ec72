//! The rules of methods, each with the index of its method, and the bindings that are linked of them.
ghost use Rattle.std.specs.Prelude.{◌≡◌, ◌<◌, ◌^◌, ◌++◌, length, map, IfOk, OnOk, Some};
ghost use Rattle.std.specs.List.{AllByRecursion};
ghost use Rattle.descriptor_pool.specs.SetMethods.{method_rules};
ghost use Rattle.schema_link.specs.LinkAnswers.{bindings_faults, linked_rule_faults};
ghost use Rattle.schema_link.specs.SetApi.{NumberedRule as NumberedRuleOf, numbered, numbered_rules, rule_binding};
ghost use Rattle.set_faults.specs.LinkFaults.{IsFirstOf};
ghost use Rattle.set_faults.specs.MethodFaults.{rule_template};

use base::{List, NoMemory};
use descriptor_pool::{BoundMethod, http_method};
use descriptors::HttpInfo;
use http_rules::{Binding, Template};
use linked_api::MethodInfo;
use linked_bindings::{FieldNames, link_binding};
use set_faults::LinkFault;
use std::alloc::Global;
use std::marker::Model;

/// A rule of a bound method.
#[derive(Drop)]
pub(crate) struct NumberedRule<'a> {
    /// The index of the method.
    pub(crate) call: u32,
    /// The rule.
    pub(crate) rule: &'a HttpInfo,
}

impl<'a> Model for NumberedRule<'a> {
    ghost use Rattle.descriptors.specs.contracts.file_set.HttpInfo.{the_row};
    ghost use Rattle.std.specs.Coded.{codes};
    ghost use Rattle.schema_link.specs.SetApi.{NumberedRule as Seen};

    ghost Value = { Seen };

    ghost coded = { Prim.hlevel (codes, the_row.coded) };

    ghost view = { λ r. record { call = r.call; rule = r.rule.now } };
}

/// Appends rules of the method of an index.
fn put_additional<'a>(
    out: &mut Vec<NumberedRule<'a>>,
    call: u32,
    rules: &'a [HttpInfo],
) -> Result<(), NoMemory>
    ensures { OnOk result (out.new.items ≡ out.old.items ++ map (numbered call) rules.now) }
{
    for rule in rules {
        out.push(NumberedRule { call, rule })?;
    }
    Ok(())
}

/// Appends the rules of a method.
fn put_rules<'a>(
    out: &mut Vec<NumberedRule<'a>>,
    call: u32,
    method: &BoundMethod<'a>,
) -> Result<(), NoMemory>
    ensures { OnOk result (out.new.items ≡ out.old.items ++ map (numbered call) (method_rules method.now)) }
{
    let rule = method.rule;
    out.push(NumberedRule { call, rule })?;
    put_additional(out, call, rule.additional_bindings.as_slice())
}

/// The rules of methods, in order.
pub(crate) fn numbered_rules<'a>(
    alloc: Global,
    methods: &[BoundMethod<'a>],
) -> Result<Vec<NumberedRule<'a>>, NoMemory>
    requires { length methods.now < 2 ^ 32 }
    ensures { IfOk result (λ rs. rs.items ≡ numbered_rules 0 methods.now) }
{
    let mut rules = Vec::new(alloc);
    for (call, method) in methods.iter().enumerate() {
        put_rules(&mut rules, call as u32, method)?;
    }
    Ok(rules)
}

/// The binding of a rule with this template.
fn link_rule(
    alloc: Global,
    names: &FieldNames<'_>,
    methods: &[MethodInfo],
    rule: &NumberedRule<'_>,
    template: Template,
) -> Result<Binding, LinkFault>
    requires call { rule.now.call < length methods.now }
    requires template { rule_template rule.now.rule ≡ Some template }
    ensures faults { IsFirstOf result (linked_rule_faults names.now methods.now rule.now) }
    ensures binding { IfOk result (λ b. rule_binding names.now methods.now rule.now ≡ Some b) }
{
    let method = &methods[rule.call as usize];
    match &rule.rule.pattern {
        Some(pattern) => link_binding(
            alloc,
            names,
            method,
            rule.call,
            http_method(pattern),
            rule.rule,
            template,
        ),
        None => unreachable!(),
    }
}

/// The bindings of rules with these templates, in order.
pub(crate) fn link_rules(
    alloc: Global,
    names: &FieldNames<'_>,
    methods: &[MethodInfo],
    rules: &[NumberedRule<'_>],
    templates: Vec<Template>,
) -> Result<List<Binding>, LinkFault>
    requires calls { AllByRecursion (λ (r : NumberedRuleOf). r.call < length methods.now) rules.now }
    requires templates { map (λ t. Some t) templates.items
        ≡ map (λ (r : NumberedRuleOf). rule_template r.rule) rules.now }
    ensures faults { IsFirstOf result (bindings_faults names.now methods.now rules.now) }
    ensures bindings { IfOk result (λ bs. map (λ b. Some b) bs ≡ map (rule_binding names.now methods.now) rules.now) }
{
    let mut bindings = List::new(alloc);
    let mut templates = templates.into_iter();
    for rule in rules {
        match templates.next() {
            Some(template) => bindings.push(link_rule(alloc, names, methods, rule, template)?)?,
            None => unreachable!(),
        }
    }
    Ok(bindings)
}
