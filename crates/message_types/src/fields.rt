//! Fields of message types (descriptor.proto, FieldDescriptorProto).

use crate::enums::EnumId;
use crate::messages::TypeId;
use base::Text;

/// A kind of value that is no message.
#[derive(Debug, Clone, Copy, PartialEq, Eq)]
pub enum Scalar {
    /// 32 bits, signed; a negative number is written in ten bytes.
    Int32,
    /// 64 bits, signed.
    Int64,
    /// 32 bits, not signed.
    Uint32,
    /// 64 bits, not signed.
    Uint64,
    /// 32 bits, signed, zigzag.
    Sint32,
    /// 64 bits, signed, zigzag.
    Sint64,
    /// 32 bits, not signed, four bytes.
    Fixed32,
    /// 64 bits, not signed, eight bytes.
    Fixed64,
    /// 32 bits, signed, four bytes.
    Sfixed32,
    /// 64 bits, signed, eight bytes.
    Sfixed64,
    /// A truth value.
    Bool,
    /// UTF-8 text: protobuf's `string`.
    Text,
    /// Bytes.
    Bytes,
    /// A number of the enum, declared or not.
    Enumeration(EnumId),
}

/// What one value of a field is.
#[derive(Debug, Clone, Copy, PartialEq, Eq)]
pub enum Kind {
    /// A scalar or an enum.
    One(Scalar),
    /// A message of this type.
    Message(TypeId),
}

/// How many values a field has.
#[derive(Debug, Clone, Copy, PartialEq, Eq)]
pub enum Shape {
    /// At most one.
    Single,
    /// At most one, and at most one in all members of the message's real oneof with this index,
    /// counted from 0 in declared order.
    Member(u32),
    /// Any number, in order.
    Many,
    /// Any number, by keys of this kind; the field's kind is that of the values.
    Map(Scalar),
}

/// Whether a field that holds its default differs from one that is absent.
#[derive(Debug, Clone, Copy, PartialEq, Eq)]
pub enum Presence {
    /// It does not: the default is never stored.
    Implicit,
    /// It does.
    Explicit,
}

/// One field of a message type.
#[derive(Debug, Drop)]
pub struct Field {
    /// The name in the .proto file.
    pub name: Text,
    /// The name in JSON.
    pub json: Text,
    /// The field number, from 1 to 536,870,911.
    pub number: u32,
    /// What one value is.
    pub kind: Kind,
    /// How many values there are.
    pub shape: Shape,
    /// Whether the default is told from absence.
    pub presence: Presence,
    /// Whether a list is written packed.
    pub packed: bool,
}
