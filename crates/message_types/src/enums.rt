//! Enum types (descriptor.proto, EnumDescriptorProto).

use base::{List, Text};

/// An enum type, by its index in `Types::enums`.
#[derive(Debug, Clone, Copy, PartialEq, Eq)]
pub struct EnumId(pub u32);

/// One value of an enum.
#[derive(Debug, Drop)]
pub struct EnumValue {
    /// The value's name.
    pub name: Text,
    /// The value's number. Several names may share one.
    pub number: i32,
}

/// An enum type.
#[derive(Debug, Drop)]
pub struct EnumType {
    /// The full name, without a leading dot.
    pub name: Text,
    /// The values, in declared order.
    pub values: List<EnumValue>,
}
