//! Laws of what is linked. Each is the contract of a function that calls the laws that it follows from.
ghost use Rattle.std.specs.Prelude.{◌≡◌, ◌<◌, ℕ, List, Some, IsSome};
ghost use Rattle.std.specs.List.{AllByRecursion};
ghost use Rattle.std.specs.Str.{bytes_eq};
ghost use Rattle.descriptor_pool.specs.DeclaredTypes.{SetTypes};
ghost use Rattle.descriptor_pool.specs.ReachableTypes.{Joined, reachable};
ghost use Rattle.descriptor_pool.specs.SetMethods.{BoundMethod};
ghost use Rattle.descriptors.specs.declared.file_set.FieldInfo.{FieldInfo};
ghost use Rattle.linked_types.specs.FoundNames.{HasIds, IdsFindNames};
ghost use Rattle.linked_types.specs.LinkableTypes.{AreLinkable};
ghost use Rattle.linked_types.specs.LinkedNames.{declared_names, type_names};
ghost use Rattle.linked_types.specs.LinkedTypes.{linked_types, real_number};
ghost use Rattle.message_types.specs.declared.messages.Types.{Types};
ghost use Rattle.schema.specs.Apart.{AreApart};
ghost use Rattle.schema.specs.Soundness.{IsSound};

use descriptor_pool::laws::what_is_reached_is_closed;

/// Messages that are linkable are linked: no look-up fails.
pub fn linkable_types_are_linked()
    ensures { (types : SetTypes) (ms : List BoundMethod) → AreLinkable types (reachable types ms) → IsSome (linked_types types (reachable types ms)) }
{
    what_is_reached_is_closed();
}

/// What is linked of messages that are linkable is sound.
pub fn what_is_linked_is_sound()
    ensures { (types : SetTypes) (ms : List BoundMethod) (t : Types) → AreLinkable types (reachable types ms) → linked_types types (reachable types ms) ≡ Some t → IsSound t }
{
    what_is_reached_is_closed();
}

/// Ids find names: what is linked of each message and enum stands at its index, with its name; each
/// field of a message or enum type has the id of the linked type whose full name is the declared type
/// name without its dot; and so has each type name that has an id.
pub fn ids_find_names()
    ensures { (types : SetTypes) (js : List Joined) (t : Types) → linked_types types js ≡ Some t → IdsFindNames types js t }
{}

/// The input and the output of a bound method, where they name messages, have ids of linked messages.
pub fn reached_messages_are_linked()
    ensures { (types : SetTypes) (ms : List BoundMethod) (t : Types) → linked_types types (reachable types ms) ≡ Some t → AllByRecursion (HasIds types (reachable types ms) t) ms }
{
    what_is_reached_is_closed();
}

/// Where no two messages and enums of a set have one name, no two types that are linked of it have.
pub fn linked_names_are_apart()
    ensures { (types : SetTypes) (ms : List BoundMethod) (t : Types) → AreApart bytes_eq (declared_names types) → linked_types types (reachable types ms) ≡ Some t → AreApart bytes_eq (type_names t) }
{
    what_is_reached_is_closed();
}

/// The real oneofs of a message are numbered in declared order, each once, and no number is left out.
pub fn real_oneofs_are_numbered_in_order()
    ensures order { (fs : List FieldInfo) (i j a b : ℕ)
        → real_number fs i ≡ Some a → real_number fs j ≡ Some b → i < j → a < b }
    ensures once { (fs : List FieldInfo) (i j a b : ℕ)
        → real_number fs i ≡ Some a → real_number fs j ≡ Some b → a ≡ b → i ≡ j }
    ensures whole { (fs : List FieldInfo) (j b a : ℕ)
        → real_number fs j ≡ Some b → a < b → (i : ℕ) × (i < j) × (real_number fs i ≡ Some a) }
{}
