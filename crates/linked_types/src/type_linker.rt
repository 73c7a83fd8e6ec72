//! The types of what is reached, linked by numbers.
ghost use Rattle.std.specs.Prelude.{◌≡◌, ◌<◌, ◌^◌, length, Some, IfOk, IsSome};
ghost use Rattle.descriptor_pool.specs.ReachableTypes.{messages_of};
ghost use Rattle.linked_types.specs.LinkedTypes.{index_from, linked_enum, linked_enum_at, linked_enums, linked_item, linked_message, linked_messages, linked_types};

use crate::linked_fields::linked_fields;
use crate::linked_indexes::{Places, enum_places};
use crate::message_ids::MessageIds;
use base::{List, NoMemory, Text};
use descriptor_pool::{DeclaredEnum, DeclaredMessage, Joined, SetTypes, known_of};
use schema::{EnumType, EnumValue, MessageType, Types};
use std::alloc::Global;

/// Copies of values.
fn copies_of(alloc: Global, values: &[EnumValue]) -> Result<List<EnumValue>, NoMemory>
    ensures { IfOk result (λ vs. vs ≡ values.now) }
{
    let mut copies = List::new(alloc);
    for value in values {
        copies.push(EnumValue {
            name: Text::copy_of(alloc, value.name.as_str())?,
            number: value.number,
        })?;
    }
    Ok(copies)
}

/// The enum type of a declared enum.
fn linked_enum(alloc: Global, declared: &DeclaredEnum<'_>) -> Result<EnumType, NoMemory>
    ensures { IfOk result (λ e. e ≡ linked_enum declared.now) }
{
    Ok(EnumType {
        name: declared.name.to_text(alloc)?,
        values: copies_of(alloc, declared.info.value.as_slice())?,
    })
}

/// The enum type of an enum, by its index in the set.
fn linked_enum_at(
    alloc: Global,
    types: &SetTypes<'_>,
    index: usize,
) -> Result<Option<EnumType>, NoMemory>
    ensures { IfOk result (λ e. e ≡ linked_enum_at types.now index) }
{
    match types.enum_at(index) {
        Some(declared) => Ok(Some(linked_enum(alloc, declared)?)),
        None => Ok(None),
    }
}

/// The enum types of enums, by their indexes in the set.
fn linked_enums(
    alloc: Global,
    types: &SetTypes<'_>,
    indexes: &[usize],
) -> Result<Option<List<EnumType>>, NoMemory>
    ensures { IfOk result (λ es. es ≡ linked_enums types.now indexes.now) }
{
    let mut enums = List::new(alloc);
    for index in indexes {
        match linked_enum_at(alloc, types, *index)? {
            Some(linked) => enums.push(linked)?,
            None => return Ok(None),
        }
    }
    Ok(Some(enums))
}

/// The message type of a declared message.
fn linked_message<'a>(
    alloc: Global,
    types: &SetTypes<'a>,
    messages: &Places,
    enums: &Places,
    declared: &DeclaredMessage<'a>,
) -> Result<Option<MessageType>, NoMemory>
    ensures { IfOk result (λ m. m ≡ linked_message types.now (index_from 0 messages.now) (index_from 0 enums.now) declared.now) }
{
    let syntax = declared.file.syntax.as_str();
    let fields = declared.info.field.as_slice();
    // How many numbers of oneofs are kept at hand: what `linked_fields` answers is the same for each
    // count, since the number of a oneof beyond it is searched in the fields.
    let oneofs = u32::try_from(declared.info.oneof_decl.len()).unwrap_or(u32::MAX);
    match linked_fields(alloc, types, messages, enums, syntax, fields, oneofs)? {
        Some(fields) => Ok(Some(MessageType {
            name: declared.name.to_text(alloc)?,
            known: known_of(declared.name),
            fields,
        })),
        None => Ok(None),
    }
}

/// The message type of a message that is reached.
fn linked_item(
    alloc: Global,
    types: &SetTypes<'_>,
    messages: &Places,
    enums: &Places,
    joined: &Joined<'_>,
) -> Result<Option<MessageType>, NoMemory>
    ensures { IfOk result (λ m. m ≡ linked_item types.now (index_from 0 messages.now) (index_from 0 enums.now) joined.now) }
{
    match types.message_at(joined.message) {
        Some(declared) => linked_message(alloc, types, messages, enums, declared),
        None => Ok(None),
    }
}

/// The message types of messages that are reached.
fn linked_messages(
    alloc: Global,
    types: &SetTypes<'_>,
    messages: &Places,
    enums: &Places,
    reached: &[Joined<'_>],
) -> Result<Option<List<MessageType>>, NoMemory>
    ensures { IfOk result (λ ms. ms ≡ linked_messages types.now (index_from 0 messages.now) (index_from 0 enums.now) reached.now) }
{
    let mut linked = List::new(alloc);
    for joined in reached {
        match linked_item(alloc, types, messages, enums, joined)? {
            Some(message) => linked.push(message)?,
            None => return Ok(None),
        }
    }
    Ok(Some(linked))
}

/// The types of the messages that are reached, with their places; none where a look-up fails.
fn types_of(
    alloc: Global,
    types: &SetTypes<'_>,
    reached: &[Joined<'_>],
    places: &Places,
) -> Result<Option<Types>, NoMemory>
    requires places { places.now ≡ messages_of reached.now }
    requires enums { length types.now.enums < 2 ^ 32 }
    ensures { IfOk result (λ t. t ≡ linked_types types.now reached.now) }
{
    let enum_places = enum_places(alloc, types, reached)?;
    let Some(messages) = linked_messages(alloc, types, places, &enum_places, reached)? else {
        return Ok(None);
    };
    match linked_enums(alloc, types, enum_places.indexes())? {
        Some(enums) => Ok(Some(Types { messages, enums })),
        None => Ok(None),
    }
}

/// The types of the messages that are reached, where no look-up fails.
pub fn linked_types(
    alloc: Global,
    types: &SetTypes<'_>,
    ids: &MessageIds<'_>,
) -> Result<Types, NoMemory>
    requires enums { length types.now.enums < 2 ^ 32 }
    requires linked { IsSome (linked_types types.now ids.now) }
    ensures { IfOk result (λ t. linked_types types.now ids.now ≡ Some t) }
{
    match types_of(alloc, types, ids.reached(), ids.places())? {
        Some(linked) => Ok(linked),
        None => unreachable!(),
    }
}
