//! Laws of linked bindings. Each is the contract of an empty function, or of one that calls a law of linked APIs.
ghost use Rattle.std.specs.Prelude.{◌≡◌, ℕ, [], List, Some, IsSome};
ghost use Rattle.descriptors.specs.declared.file_set.HttpInfo.{HttpInfo};
ghost use Rattle.http_rules.specs.declared.template.Binding.{Binding};
ghost use Rattle.http_rules.specs.declared.template.Template.{Template};
ghost use Rattle.linked_api.specs.declared.api.MethodInfo.{MethodInfo};
ghost use Rattle.linked_bindings.specs.BindingFaults.{binding_faults};
ghost use Rattle.linked_bindings.specs.LinkedBinding.{linked_binding};
ghost use Rattle.linked_bindings.specs.RuleBindings.{IsBindingWith, IsRuleOf, paths_overlap};
ghost use Rattle.message_types.specs.declared.messages.Types.{Types};
ghost use Rattle.schema.specs.Apart.{AreApart};
ghost use Rattle.schema.specs.Soundness.{IsSound};

/// A binding is linked of a rule without faults; and a rule of which one is linked has no fault, where no
/// variable's path begins another.
pub fn faultless_rules_are_linked()
    ensures linked { (types : Types) (m : MethodInfo) (call : ℕ) (method : List ℕ) (rule : HttpInfo) (t : Template)
        → binding_faults types m rule t ≡ [] → IsSome (linked_binding types m call method rule t) }
    ensures faultless { (types : Types) (m : MethodInfo) (call : ℕ) (method : List ℕ) (rule : HttpInfo) (t : Template)
        → AreApart paths_overlap t.variables → IsSome (linked_binding types m call method rule t)
        → binding_faults types m rule t ≡ [] }
    ensures apart { (types : Types) (m : MethodInfo) (rule : HttpInfo) (t : Template)
        → binding_faults types m rule t ≡ [] → AreApart paths_overlap t.variables }
{}

/// A rule has no fault where it fits the types of its method; and only there, in sound types.
pub fn fitting_rules_are_faultless()
    ensures faultless { (types : Types) (m : MethodInfo) (rule : HttpInfo) (t : Template)
        → IsRuleOf types m rule t → binding_faults types m rule t ≡ [] }
    ensures fitting { (types : Types) (m : MethodInfo) (rule : HttpInfo) (t : Template)
        → IsSound types → binding_faults types m rule t ≡ [] → IsRuleOf types m rule t }
{
    linked_api::laws::numbers_are_those_that_lead();
}

/// What is linked of a rule without faults is a binding of its method, in sound types.
pub fn linked_rules_are_bindings()
    ensures { (types : Types) (m : MethodInfo) (call : ℕ) (method : List ℕ) (rule : HttpInfo) (t : Template)
        (b : Binding) → IsSound types → binding_faults types m rule t ≡ []
        → linked_binding types m call method rule t ≡ Some b → IsBindingWith types m call method t b }
{
    linked_api::laws::numbers_are_those_that_lead();
}
