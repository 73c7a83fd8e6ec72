//! Laws of what is linked. Each is the contract of a function that calls the laws that it follows from.
ghost use Rattle.std.specs.Prelude.{◌≡◌, [], List, Ok};
ghost use Rattle.descriptors.specs.declared.file_set.FileSet.{FileSet};
ghost use Rattle.descriptor_pool.specs.DeclaredNames.{Declaration, declarations};
ghost use Rattle.descriptor_pool.specs.DeclaredTypes.{types_in};
ghost use Rattle.descriptor_pool.specs.ReachableTypes.{reachable};
ghost use Rattle.descriptor_pool.specs.SetMethods.{BoundMethod, bound_methods};
ghost use Rattle.linked_api.specs.LinkedApi.{IsLinked};
ghost use Rattle.linked_api.specs.declared.api.Api.{Api};
ghost use Rattle.linked_types.specs.LinkableTypes.{AreLinkable};
ghost use Rattle.schema_link.specs.LinkAnswers.{IsLinkOf, faults};
ghost use Rattle.schema_link.specs.LinkSteps.{IsReady};
ghost use Rattle.schema_link.specs.SetApi.{IsSetApi};
ghost use Rattle.schema_link.specs.SetNames.{HasDeclaredNames};
ghost use Rattle.set_faults.specs.SetFaults.{all_faults};

/// The messages that the methods of a set without faults reach are linkable.
pub fn faultless_sets_are_linkable()
    ensures { (set : FileSet) → faults set ≡ []
        → AreLinkable (types_in (declarations set)) (reachable (types_in (declarations set)) (bound_methods set)) }
{
    set_faults::laws::faultless_sets_are_lawful();
}

/// Where declarations with methods have no fault no look-up fails in linking.
pub fn faultless_sets_are_ready()
    ensures { (ds : List Declaration) (ms : List BoundMethod) → all_faults ds ms ≡ [] → IsReady (types_in ds) ms }
{
    set_faults::laws::faultless_sets_are_lawful();
    set_faults::laws::faultless_rules_have_templates();
    linked_types::laws::linkable_types_are_linked();
    linked_types::laws::reached_messages_are_linked();
}

/// What is linked of a set without faults is there, and is one API.
pub fn faultless_sets_have_one_api()
    ensures there { (set : FileSet) → faults set ≡ [] → (api : Api) × IsSetApi set api }
    ensures one { (set : FileSet) (a b : Api) → IsSetApi set a → IsSetApi set b → a ≡ b }
{
    set_faults::laws::faultless_sets_are_lawful();
    faultless_sets_are_ready();
    linked_bindings::laws::faultless_rules_are_linked();
}

/// What is linked of a set is a linked API.
pub fn what_is_linked_of_a_set_is_linked()
    ensures { (set : FileSet) (api : Api) → IsLinkOf set (Ok api) → IsLinked api }
{
    set_faults::laws::faultless_sets_are_lawful();
    linked_types::laws::what_is_linked_is_sound();
    linked_types::laws::linked_names_are_apart();
    linked_types::laws::reached_messages_are_linked();
    linked_bindings::laws::linked_rules_are_bindings();
    http_rules::laws::routes_apart_repeat_none();
}

/// Ids find names: in what is linked of a set each message, enum and field has the name that is declared, each
/// field of a message or enum type the id of the type that it names, and each method the ids of the messages
/// that it names.
pub fn ids_find_names()
    ensures { (set : FileSet) (api : Api) → IsSetApi set api → HasDeclaredNames set api }
{
    linked_types::laws::ids_find_names();
}
