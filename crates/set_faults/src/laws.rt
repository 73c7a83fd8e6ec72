//! Laws of the definitions that the contracts of this crate cite. Each is the contract of a function
//! that calls the laws that it follows from.
ghost use Rattle.std.specs.Prelude.{◌≡◌, [], IsSome, List, Some, map};
ghost use Rattle.std.specs.List.{AllByRecursion};
ghost use Rattle.descriptor_pool.specs.DeclaredNames.{Declaration};
ghost use Rattle.descriptor_pool.specs.DeclaredTypes.{SetTypes};
ghost use Rattle.descriptor_pool.specs.SetMethods.{BoundMethod, all_rules};
ghost use Rattle.set_faults.specs.LawfulSets.{IsLawfulSet};
ghost use Rattle.set_faults.specs.MethodFaults.{methods_faults, rule_template, templates_of};
ghost use Rattle.set_faults.specs.SetFaults.{all_faults};

/// Where methods have no fault, each of their rules has a template, and the templates of the rules are
/// these, in order.
pub fn faultless_rules_have_templates()
    ensures each { (types : SetTypes) (ms : List BoundMethod) → methods_faults types ms ≡ []
        → AllByRecursion (λ rule. IsSome (rule_template rule)) (all_rules ms) }
    ensures all { (types : SetTypes) (ms : List BoundMethod) → methods_faults types ms ≡ []
        → map rule_template (all_rules ms) ≡ map Some (templates_of (all_rules ms)) }
{
    http_rules::laws::a_text_has_one_reading();
    http_rules::laws::named_methods_are_kinds();
}

/// A set without a fault has a lawful size, no name twice, a method with an annotation, and methods and
/// reached messages that are lawful.
pub fn faultless_sets_are_lawful()
    ensures { (ds : List Declaration) (ms : List BoundMethod) → all_faults ds ms ≡ [] → IsLawfulSet ds ms }
{
    http_rules::laws::a_text_has_one_reading();
    http_rules::laws::named_methods_are_kinds();
}

/// And such a set has no fault: so a set has none exactly where it is lawful.
pub fn lawful_sets_are_faultless()
    ensures { (ds : List Declaration) (ms : List BoundMethod) → IsLawfulSet ds ms → all_faults ds ms ≡ [] }
{}
