//! The faults of a set behind those of its size and of its names, in the order in which they count.
ghost use Rattle.std.specs.Prelude.{◌≡◌, IfOk};
ghost use Rattle.descriptor_pool.specs.ReachableTypes.{reachable};
ghost use Rattle.descriptor_pool.specs.SetMethods.{all_rules};
ghost use Rattle.set_faults.specs.LinkFaults.{IsFirstOf};
ghost use Rattle.set_faults.specs.MethodFaults.{templates_of};
ghost use Rattle.set_faults.specs.NameFaults.{no_route};
ghost use Rattle.set_faults.specs.SetFaults.{reaching_faults};

use crate::fault::{LinkFault, LinkKind, fault_at};
use crate::message_faults::check_reached;
use crate::method_faults::check_methods;
use descriptor_pool::{BoundMethod, Joined, SetTypes};
use http_rules::Template;
use std::alloc::Global;

/// Refuses a set in which no method has an annotation.
fn check_some_method(alloc: Global, methods: &[BoundMethod<'_>]) -> Result<(), LinkFault>
    ensures { IsFirstOf result (no_route methods.now) }
{
    if methods.is_empty() {
        return Err(fault_at(alloc, LinkKind::NoRoute, "set", ""));
    }
    Ok(())
}

/// Refuses the first fault of a set behind those of its size and of its names, which `check_size` and
/// `check_names` look for: of its methods, and of the messages that they reach. Answers the templates
/// of the bindings, in order.
#[tactic(auto, using(crate::proofs::Theorems::first_faults))]
pub fn check_set<'a>(
    alloc: Global,
    methods: &[BoundMethod<'a>],
    types: &SetTypes<'a>,
    reached: &[Joined<'a>],
) -> Result<Vec<Template>, LinkFault>
    requires { reached.now ≡ reachable types.now methods.now }
    ensures first { IsFirstOf result (reaching_faults types.now methods.now) }
    ensures templates { IfOk result (λ templates. templates.items ≡ templates_of (all_rules methods.now)) }
{
    check_some_method(alloc, methods)?;
    let templates = check_methods(alloc, types, methods)?;
    check_reached(alloc, types, reached)?;
    Ok(templates)
}
