//! Message types (descriptor.proto, DescriptorProto).

use crate::enums::EnumType;
use crate::fields::Field;
use base::{List, Text};

/// A message type, by its index in `Types::messages`.
#[derive(Debug, Clone, Copy, PartialEq, Eq)]
pub struct TypeId(pub u32);

/// The well-known types that ProtoJSON writes in a form of their own.
#[derive(Debug, Clone, Copy, PartialEq, Eq)]
pub enum Known {
    /// Any other message.
    Plain,
    /// google.protobuf.Timestamp.
    Timestamp,
    /// google.protobuf.Duration.
    Duration,
    /// google.protobuf.FieldMask.
    FieldMask,
    /// google.protobuf.BoolValue and the other wrappers.
    Wrapper,
}

/// A message type.
#[derive(Debug, Drop)]
pub struct MessageType {
    /// The full name, without a leading dot.
    pub name: Text,
    /// Which well-known type it is.
    pub known: Known,
    /// The fields, in declared order.
    pub fields: List<Field>,
}

/// All message and enum types that are reached.
#[derive(Debug, Drop)]
pub struct Types {
    /// The message types; a `TypeId` is an index into them.
    pub messages: List<MessageType>,
    /// The enum types; an `EnumId` is an index into them.
    pub enums: List<EnumType>,
}
