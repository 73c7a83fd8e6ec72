//! The listed fields as message types, as decoding takes them.
ghost use Rattle.std.specs.Prelude.{◌≡◌, map, IfOk};
ghost use Rattle.descriptor_set.specs.DescriptorTypes.{descriptor_types as all_types, field_of as listed_field, kind_of as listed_kind, message_type as listed_message, presence_of as listed_presence, shape_of as listed_shape};

use crate::described::{ALL, Described, Holds, listed_fields, type_id};
use base::{List, NoMemory, Text};
use schema::{Field, Kind, Known, MessageType, Presence, Scalar, Shape, Types};
use std::alloc::Global;

/// What one value is.
fn kind_of(holds: Holds) -> Kind
    ensures { result ≡ listed_kind holds }
{
    match holds {
        Holds::Text | Holds::Path => Kind::One(Scalar::Text),
        Holds::Number => Kind::One(Scalar::Int32),
        Holds::Truth => Kind::One(Scalar::Bool),
        Holds::CustomPath => Kind::Message(type_id(Described::CustomPattern)),
        Holds::Message(described) | Holds::Messages(described) => {
            Kind::Message(type_id(described))
        }
    }
}

/// How many values there are.
fn shape_of(holds: Holds) -> Shape
    ensures { result ≡ listed_shape holds }
{
    match holds {
        Holds::Path | Holds::CustomPath => Shape::Member(0),
        Holds::Messages(_) => Shape::Many,
        _ => Shape::Single,
    }
}

/// Whether absence is told.
fn presence_of(holds: Holds) -> Presence
    ensures { result ≡ listed_presence holds }
{
    match holds {
        Holds::Messages(_) => Presence::Implicit,
        _ => Presence::Explicit,
    }
}

/// A listed field.
fn field_of(alloc: Global, number: u32, holds: Holds) -> Field
    ensures { result ≡ listed_field (number, holds) }
{
    Field {
        name: Text::new(alloc),
        json: Text::new(alloc),
        number,
        kind: kind_of(holds),
        shape: shape_of(holds),
        presence: presence_of(holds),
        packed: false,
    }
}

/// Listed fields.
fn fields_of(alloc: Global, listed: &[(u32, Holds)]) -> Result<List<Field>, NoMemory>
    ensures { IfOk result (λ fields. fields ≡ map listed_field listed.now) }
{
    let mut fields = List::new(alloc);
    for (number, holds) in listed {
        fields.push(field_of(alloc, *number, *holds))?;
    }
    Ok(fields)
}

/// The type of a message.
fn message_type(alloc: Global, described: Described) -> Result<MessageType, NoMemory>
    ensures { IfOk result (λ message. message ≡ listed_message described) }
{
    Ok(MessageType {
        name: Text::new(alloc),
        known: Known::Plain,
        fields: fields_of(alloc, listed_fields(described))?,
    })
}

/// The types of messages.
fn message_types(alloc: Global, described: &[Described]) -> Result<List<MessageType>, NoMemory>
    ensures { IfOk result (λ messages. messages ≡ map listed_message described.now) }
{
    let mut messages = List::new(alloc);
    for message in described {
        messages.push(message_type(alloc, *message)?)?;
    }
    Ok(messages)
}

/// The types of all messages.
pub(crate) fn descriptor_types(alloc: Global) -> Result<Types, NoMemory>
    ensures { IfOk result (λ types. types ≡ all_types) }
{
    Ok(Types {
        messages: message_types(alloc, &ALL)?,
        enums: List::new(alloc),
    })
}
