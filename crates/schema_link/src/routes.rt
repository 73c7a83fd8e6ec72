//! Bindings that are one route.
ghost use Rattle.std.specs.Prelude.{◌<◌, ◌++◌, List, length, slice_get};
ghost use Rattle.std.specs.List.{AllByRecursion};
ghost use Rattle.http_rules.specs.Template.{IsTemplate};
ghost use Rattle.http_rules.specs.declared.template.Binding.{Binding as BindingOf};
ghost use Rattle.schema_link.specs.LinkAnswers.{route_fault, route_faults};
ghost use Rattle.set_faults.specs.LinkFaults.{IsFirst, IsFirstOf};
ghost use Rattle.set_faults.specs.declared.fault.LinkFault.{LinkFault as Fault};

use http_rules::{Binding, first_repeated_route};
use linked_api::MethodInfo;
use set_faults::{LinkFault, LinkKind, fault_at};
use std::alloc::Global;

/// The fault of two bindings that are one route.
fn fault_of(alloc: Global, methods: &[MethodInfo], earlier: &Binding, later: &Binding) -> LinkFault
    requires earlier { earlier.now.call < length methods.now }
    requires later { later.now.call < length methods.now }
    ensures { (rest : List Fault) → IsFirst result
        (route_fault (slice_get methods.now earlier.now.call) (slice_get methods.now later.now.call) ++ rest) }
{
    let first = &methods[earlier.call as usize].path;
    let second = &methods[later.call as usize].path;
    fault_at(alloc, LinkKind::SameRoute, first.as_str(), second.as_str())
}

/// Refuses the first binding that is the route of an earlier one.
pub(crate) fn check_routes(
    alloc: Global,
    methods: &[MethodInfo],
    bindings: &[Binding],
) -> Result<(), LinkFault>
    requires templates { AllByRecursion (λ (b : BindingOf). IsTemplate b.template) bindings.now }
    requires calls { AllByRecursion (λ (b : BindingOf). b.call < length methods.now) bindings.now }
    ensures { IsFirstOf result (route_faults methods.now bindings.now) }
{
    match first_repeated_route(alloc, bindings)? {
        Some((earlier, later)) => Err(fault_of(alloc, methods, earlier, later)),
        None => Ok(()),
    }
}
