//! The ids of messages that are reached, found by type names (descriptor.proto).
ghost use Rattle.std.specs.Prelude.{◌≡◌, ◌<◌, ◌^◌, length, IfOk};
ghost use Rattle.descriptor_pool.specs.ReachableTypes.{messages_of};
ghost use Rattle.linked_types.specs.LinkedTypes.{message_id};

use crate::linked_indexes::{Places, message_places};
use base::NoMemory;
use descriptor_pool::{Joined, SetTypes};
use schema::TypeId;
use std::alloc::Global;
use std::marker::Model;

/// Messages that are reached, in order: the id of each is its place among them.
#[derive(Drop)]
pub struct MessageIds<'a> {
    reached: Vec<Joined<'a>>,
    places: Places,
}

impl<'a> Model for MessageIds<'a> {
    ghost use Rattle.std.specs.Prelude.{◌≡◌, List};
    ghost use Rattle.descriptor_pool.specs.ReachableTypes.{Joined as Seen, messages_of};

    ghost Value = { List Seen };

    ghost view = { λ ids. ids.reached.items };

    ghost invariant = { λ ids. ids.places ≡ messages_of ids.reached.items };
}

impl<'a> MessageIds<'a> {
    /// The ids of messages that are reached.
    pub fn new(alloc: Global, reached: Vec<Joined<'a>>) -> Result<MessageIds<'a>, NoMemory>
        requires { length reached.items < 2 ^ 32 }
        ensures { IfOk result (λ ids. ids ≡ reached.entry.items) }
    {
        let places = message_places(alloc, reached.as_slice())?;
        Ok(MessageIds { reached, places })
    }

    /// The messages, in order.
    pub fn reached(&self) -> &[Joined<'a>]
        ensures { result.now ≡ self.now }
    {
        self.reached.as_slice()
    }

    /// The places of the messages, by their indexes in the set.
    pub(crate) fn places(&self) -> &Places
        ensures { result.now ≡ messages_of self.now }
    {
        &self.places
    }

    /// The id of the message that a type name names, where it is reached.
    pub fn named<'t>(&self, types: &SetTypes<'t>, type_name: &'t str) -> Option<TypeId>
        ensures { result ≡ message_id types.now self.now type_name.now }
    {
        let index = types.message_named(type_name)?;
        Some(TypeId(self.places.place(index)?))
    }
}
