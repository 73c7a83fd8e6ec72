//! Laws of the definitions that the contracts of this crate cite. Each is the contract of an empty
//! function.
ghost use Rattle.std.specs.Prelude.{◌≡◌, [], List, fold};
ghost use Rattle.std.specs.List.{flat_map};
ghost use Rattle.descriptor_pool.specs.DeclaredTypes.{SetTypes};
ghost use Rattle.descriptor_pool.specs.ReachableTypes.{Joined, once, queue, reachable, message_enums, reached_enums, with_index};
ghost use Rattle.descriptor_pool.specs.ReachedClosure.{IsReachClosed};
ghost use Rattle.descriptor_pool.specs.ReachedReasons.{HasReasons};
ghost use Rattle.descriptor_pool.specs.SetMethods.{BoundMethod};

/// The messages that are reached are all those of their own queue, each once, and the enums all that
/// they name: nothing is cut.
pub fn what_is_reached_is_whole()
    ensures messages { (types : SetTypes) (ms : List BoundMethod) → reachable types ms ≡ once (queue types ms (reachable types ms)) }
    ensures enums { (types : SetTypes) (js : List Joined) → reached_enums types js ≡ fold with_index [] (flat_map (message_enums types) js) }
{}

/// The inputs and outputs of methods are reached, the messages and enums that the fields of what is
/// reached name are reached too, and of the set, and each is reached once.
pub fn what_is_reached_is_closed()
    ensures { (types : SetTypes) (ms : List BoundMethod) → IsReachClosed types ms }
{}

/// Nothing else is reached: each message is the input or the output of a method, or is named by a
/// field of a message that is reached before it, and it has the path of that method or message.
pub fn messages_named()
    ensures { (types : SetTypes) (ms : List BoundMethod) → HasReasons types ms }
{}
