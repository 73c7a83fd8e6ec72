//! Links a descriptor set.
ghost use Rattle.std.specs.Prelude.{◌≡◌, ◌<◌, ◌++◌, ◌^◌, [], length, map, IfOk, Some};
ghost use Rattle.std.specs.List.{AllByRecursion};
ghost use Rattle.descriptor_pool.specs.ReachableTypes.{reachable};
ghost use Rattle.descriptor_pool.specs.SetMethods.{all_rules};
ghost use Rattle.linked_api.specs.LinkedApi.{IsLinked};
ghost use Rattle.schema_link.specs.LinkAnswers.{IsLinkOf, late_faults, linked_faults};
ghost use Rattle.schema_link.specs.LinkSteps.{IsReady};
ghost use Rattle.schema_link.specs.SetApi.{IsApiOf, NumberedRule as NumberedRuleOf, numbered_rules, rule_binding};
ghost use Rattle.set_faults.specs.LinkFaults.{IsFirstOf};
ghost use Rattle.set_faults.specs.MethodFaults.{rule_template, templates_of};
ghost use Rattle.set_faults.specs.SetFaults.{reaching_faults};

use crate::laws::{faultless_sets_are_ready, what_is_linked_of_a_set_is_linked};
use crate::methods::linked_methods;
use crate::routes::check_routes;
use crate::rules::{NumberedRule, link_rules, numbered_rules};
use base::List;
use descriptor_pool::{
    BoundMethod, Names, SetTypes, bound_methods, declarations_of, reachable, types_of,
};
use descriptors::FileSet;
use http_rules::{Binding, Template};
use linked_api::{Api, MethodInfo};
use linked_bindings::FieldNames;
use linked_types::{MessageIds, linked_types};
use schema::Types;
use set_faults::{LinkFault, check_names, check_set, check_size};
use std::alloc::Global;

/// The bindings of rules of methods, which have these templates, or their first fault.
#[tactic(auto, using(set_faults::proofs::Theorems::first_faults))]
fn link_numbered(
    alloc: Global,
    types: &Types,
    methods: &[MethodInfo],
    rules: &[NumberedRule<'_>],
    templates: Vec<Template>,
) -> Result<List<Binding>, LinkFault>
    requires calls { AllByRecursion (λ (r : NumberedRuleOf). r.call < length methods.now) rules.now }
    requires templates { map (λ t. Some t) templates.items
        ≡ map (λ (r : NumberedRuleOf). rule_template r.rule) rules.now }
    ensures first { IsFirstOf result (linked_faults methods.now rules.now types.now) }
    ensures bindings { IfOk result (λ bs. map (λ b. Some b) bs ≡ map (rule_binding types.now methods.now) rules.now) }
{
    http_rules::laws::a_text_has_one_reading();
    let names = FieldNames::new(alloc, types)?;
    let bindings = link_rules(alloc, &names, methods, rules, templates)?;
    check_routes(alloc, methods, bindings.as_slice())?;
    Ok(bindings)
}

/// The bindings of the rules of bound methods, which have these templates, or their first fault.
fn link_bindings(
    alloc: Global,
    types: &Types,
    methods: &[MethodInfo],
    bound: &[BoundMethod<'_>],
    templates: Vec<Template>,
) -> Result<List<Binding>, LinkFault>
    requires few { length bound.now < 2 ^ 32 }
    requires each { length methods.now ≡ length bound.now }
    requires templates { map (λ t. Some t) templates.items ≡ map rule_template (all_rules bound.now) }
    ensures first { IsFirstOf result (linked_faults methods.now (numbered_rules 0 bound.now) types.now) }
    ensures bindings { IfOk result (λ bs. map (λ b. Some b) bs
        ≡ map (rule_binding types.now methods.now) (numbered_rules 0 bound.now)) }
{
    let rules = numbered_rules(alloc, bound)?;
    link_numbered(alloc, types, methods, rules.as_slice(), templates)
}

/// What is linked of methods and of the messages that they reach, where no look-up fails, or the first fault that
/// is seen once types are linked.
fn link_methods<'a>(
    alloc: Global,
    types: &SetTypes<'a>,
    methods: &[BoundMethod<'a>],
    ids: &MessageIds<'a>,
    templates: Vec<Template>,
) -> Result<Api, LinkFault>
    requires reached { ids.now ≡ reachable types.now methods.now }
    requires ready { IsReady types.now methods.now }
    requires templates { templates.items ≡ templates_of (all_rules methods.now) }
    ensures first { IsFirstOf result (late_faults types.now methods.now) }
    ensures api { IfOk result (λ api. IsApiOf types.now methods.now api) }
{
    let linked = linked_types(alloc, types, ids)?;
    let infos = linked_methods(alloc, types, ids, methods)?;
    let bindings = link_bindings(alloc, &linked, infos.as_slice(), methods, templates)?;
    Ok(Api {
        types: linked,
        methods: infos,
        bindings,
    })
}

/// What is linked of the methods of a set with these types, or the first fault of these methods, of what they
/// reach, and of what is linked of them.
#[tactic(auto, using(set_faults::proofs::Theorems::first_faults))]
fn link_types<'a>(
    alloc: Global,
    types: &SetTypes<'a>,
    methods: &[BoundMethod<'a>],
) -> Result<Api, LinkFault>
    requires few { length (reachable types.now methods.now) < 2 ^ 32 }
    requires ready { reaching_faults types.now methods.now ≡ [] → IsReady types.now methods.now }
    ensures first { IsFirstOf result (reaching_faults types.now methods.now ++ late_faults types.now methods.now) }
    ensures api { IfOk result (λ api. IsApiOf types.now methods.now api) }
{
    let ids = MessageIds::new(alloc, reachable(alloc, types, methods)?)?;
    let templates = check_set(alloc, methods, types, ids.reached())?;
    link_methods(alloc, types, methods, &ids, templates)
}

/// Links a set, whose names stand in `names`.
#[tactic(auto, using(set_faults::proofs::Theorems::first_faults))]
fn link_named<'a>(alloc: Global, names: &'a Names, set: &'a FileSet) -> Result<Api, LinkFault>
    ensures { IsLinkOf set.now result }
{
    faultless_sets_are_ready();
    let all_methods = bound_methods(alloc, set)?;
    let methods = all_methods.as_slice();
    check_size(alloc, set, methods)?;
    let all_declarations = declarations_of(alloc, names, set)?;
    let declarations = all_declarations.as_slice();
    check_names(alloc, declarations)?;
    let types = types_of(alloc, declarations)?;
    link_types(alloc, &types, methods)
}

/// Links a descriptor set, or answers its first fault: of its size, of its names, of its methods and their
/// rules, of the messages that they reach, of each binding beside its types, and of bindings that are one route.
pub fn link(alloc: Global, set: &FileSet) -> Result<Api, LinkFault>
    ensures is { IsLinkOf set.now result }
    ensures linked { IfOk result (λ api. IsLinked api) }
{
    what_is_linked_of_a_set_is_linked();
    let names = Names::new(alloc);
    link_named(alloc, &names, set)
}
