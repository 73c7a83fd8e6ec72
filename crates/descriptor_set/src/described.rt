//! The messages of descriptor.proto and google/api/http.proto, and their fields that are read.
ghost use Rattle.std.specs.Prelude.{◌≡◌};
ghost use Rattle.descriptor_set.specs.DescriptorTypes.{listed_fields as listed, type_of};

use descriptors::descriptor_numbers::HTTP_RULE;
use schema::TypeId;

/// A message of descriptor.proto or google/api/http.proto.
#[derive(Clone, Copy)]
pub(crate) enum Described {
    /// FileDescriptorSet.
    Set,
    /// FileDescriptorProto.
    File,
    /// DescriptorProto.
    Message,
    /// MessageOptions.
    MessageOptions,
    /// FieldDescriptorProto.
    Field,
    /// FieldOptions.
    FieldOptions,
    /// OneofDescriptorProto.
    Oneof,
    /// EnumDescriptorProto.
    Enum,
    /// EnumValueDescriptorProto.
    EnumValue,
    /// ServiceDescriptorProto.
    Service,
    /// MethodDescriptorProto.
    Method,
    /// MethodOptions.
    MethodOptions,
    /// google.api.HttpRule.
    Rule,
    /// google.api.CustomHttpPattern.
    CustomPattern,
}

/// What a field of such a message holds.
#[derive(Clone, Copy)]
pub(crate) enum Holds {
    /// A string.
    Text,
    /// An int32 or an enum.
    Number,
    /// A bool.
    Truth,
    /// A string of the oneof `pattern` of google.api.HttpRule.
    Path,
    /// The message of that oneof.
    CustomPath,
    /// A message.
    Message(Described),
    /// A message, repeated.
    Messages(Described),
}

/// The fields of a message that are read: each number with what it holds.
#[rattlefmt::skip]
pub(crate) fn listed_fields(described: Described) -> &'static [(u32, Holds)]
    ensures { result.now ≡ listed described }
{
    match described {
        Described::Set => &[(1, Holds::Messages(Described::File))],
        Described::File => &[
            (1, Holds::Text),
            (2, Holds::Text),
            (4, Holds::Messages(Described::Message)),
            (5, Holds::Messages(Described::Enum)),
            (6, Holds::Messages(Described::Service)),
            (7, Holds::Messages(Described::Field)),
            (12, Holds::Text),
            (14, Holds::Number),
        ],
        Described::Message => &[
            (1, Holds::Text),
            (2, Holds::Messages(Described::Field)),
            (3, Holds::Messages(Described::Message)),
            (4, Holds::Messages(Described::Enum)),
            (6, Holds::Messages(Described::Field)),
            (7, Holds::Message(Described::MessageOptions)),
            (8, Holds::Messages(Described::Oneof)),
        ],
        Described::MessageOptions => &[(1, Holds::Truth), (7, Holds::Truth)],
        Described::Field => &[
            (1, Holds::Text),
            (2, Holds::Text),
            (3, Holds::Number),
            (4, Holds::Number),
            (5, Holds::Number),
            (6, Holds::Text),
            (8, Holds::Message(Described::FieldOptions)),
            (9, Holds::Number),
            (10, Holds::Text),
            (17, Holds::Truth),
        ],
        Described::FieldOptions => &[(2, Holds::Truth)],
        Described::Oneof => &[(1, Holds::Text)],
        Described::Enum => &[(1, Holds::Text), (2, Holds::Messages(Described::EnumValue))],
        Described::EnumValue => &[(1, Holds::Text), (2, Holds::Number)],
        Described::Service => &[(1, Holds::Text), (2, Holds::Messages(Described::Method))],
        Described::Method => &[
            (1, Holds::Text),
            (2, Holds::Text),
            (3, Holds::Text),
            (4, Holds::Message(Described::MethodOptions)),
            (5, Holds::Truth),
            (6, Holds::Truth),
        ],
        Described::MethodOptions => &[(HTTP_RULE, Holds::Message(Described::Rule))],
        Described::Rule => &[
            (2, Holds::Path),
            (3, Holds::Path),
            (4, Holds::Path),
            (5, Holds::Path),
            (6, Holds::Path),
            (7, Holds::Text),
            (8, Holds::CustomPath),
            (11, Holds::Messages(Described::Rule)),
            (12, Holds::Text),
        ],
        Described::CustomPattern => &[(1, Holds::Text), (2, Holds::Text)],
    }
}

/// The type of a message: its index in `ALL`.
#[rattlefmt::skip]
pub(crate) fn type_id(described: Described) -> TypeId
    ensures { result ≡ type_of described }
{
    match described {
        Described::Set => TypeId(0),
        Described::File => TypeId(1),
        Described::Message => TypeId(2),
        Described::MessageOptions => TypeId(3),
        Described::Field => TypeId(4),
        Described::FieldOptions => TypeId(5),
        Described::Oneof => TypeId(6),
        Described::Enum => TypeId(7),
        Described::EnumValue => TypeId(8),
        Described::Service => TypeId(9),
        Described::Method => TypeId(10),
        Described::MethodOptions => TypeId(11),
        Described::Rule => TypeId(12),
        Described::CustomPattern => TypeId(13),
    }
}

/// All messages, in the order of their types.
pub(crate) const ALL: [Described; 14] = [
    Described::Set,
    Described::File,
    Described::Message,
    Described::MessageOptions,
    Described::Field,
    Described::FieldOptions,
    Described::Oneof,
    Described::Enum,
    Described::EnumValue,
    Described::Service,
    Described::Method,
    Described::MethodOptions,
    Described::Rule,
    Described::CustomPattern,
];
