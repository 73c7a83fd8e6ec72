//! Laws of paths and of linked APIs. Each is the contract of an empty function.
ghost use Rattle.std.specs.Prelude.{◌≡◌, ℕ, List, Some, IfSome, IsSome, slice_get};
ghost use Rattle.http_rules.specs.Routes.{IsSameRoute};
ghost use Rattle.http_rules.specs.declared.template.Binding.{Binding};
ghost use Rattle.linked_api.specs.FieldPaths.{LeadsToLeaf, path_numbers};
ghost use Rattle.linked_api.specs.LinkedApi.{IsBindingOf, IsLinked, IsMethodOf};
ghost use Rattle.linked_api.specs.NumberPaths.{IsLeafField, IsServable, NumbersLeadToLeaf, last_field};
ghost use Rattle.linked_api.specs.declared.api.Api.{Api};
ghost use Rattle.linked_api.specs.declared.api.MethodInfo.{MethodInfo};
ghost use Rattle.message_types.specs.declared.messages.TypeId.{TypeId};
ghost use Rattle.message_types.specs.declared.messages.Types.{Types};
ghost use Rattle.schema.specs.Soundness.{IsSound};

/// The numbers that are computed of a path are those by which it leads to a leaf. That these numbers find
/// the fields again is said of sound types.
pub fn numbers_are_those_that_lead()
    ensures found { (types : Types) (id : TypeId) (names : List (List ℕ)) (numbers : List ℕ)
        → IsSound types → path_numbers types id names ≡ Some numbers → LeadsToLeaf types id names numbers }
    ensures all { (types : Types) (id : TypeId) (names : List (List ℕ)) (numbers : List ℕ)
        → LeadsToLeaf types id names numbers → path_numbers types id names ≡ Some numbers }
{}

/// A path leads to a leaf by one list of numbers.
pub fn paths_lead_one_way()
    ensures { (types : Types) (id : TypeId) (names : List (List ℕ)) (a b : List ℕ)
        → LeadsToLeaf types id names a → LeadsToLeaf types id names b → a ≡ b }
{}

/// The numbers by which a path leads to a leaf lead there without its names.
pub fn numbers_lead_alone()
    ensures { (types : Types) (id : TypeId) (names : List (List ℕ)) (numbers : List ℕ)
        → LeadsToLeaf types id names numbers → NumbersLeadToLeaf types id numbers }
{}

/// Numbers that lead to a leaf have a field at their end, and it is a singular leaf.
pub fn numbers_end_at_a_leaf()
    ensures is { (types : Types) (id : TypeId) (numbers : List ℕ)
        → NumbersLeadToLeaf types id numbers → IfSome (last_field types id numbers) (IsLeafField types) }
    ensures there { (types : Types) (id : TypeId) (numbers : List ℕ)
        → NumbersLeadToLeaf types id numbers → IsSome (last_field types id numbers) }
{}

/// Each binding of a linked API is one of it: it has a method, a path of numbers to a leaf of the input for
/// each variable, and a body and a response that are there. And each method has its types.
pub fn bindings_are_servable()
    ensures bindings { (api : Api) (i : ℕ) (b : Binding)
        → IsLinked api → slice_get api.bindings i ≡ Some b → IsBindingOf api b }
    ensures servable { (api : Api) (i : ℕ) (b : Binding)
        → IsLinked api → slice_get api.bindings i ≡ Some b → IsServable api b }
    ensures methods { (api : Api) (i : ℕ) (m : MethodInfo)
        → IsLinked api → slice_get api.methods i ≡ Some m → IsMethodOf api.types m }
{}

/// Of the bindings of a linked API no two are one route: a route tells its binding.
pub fn routes_are_apart()
    ensures { (api : Api) (i j : ℕ) (a b : Binding) → IsLinked api → slice_get api.bindings i ≡ Some a
        → slice_get api.bindings j ≡ Some b → IsSameRoute a b → i ≡ j }
{}
