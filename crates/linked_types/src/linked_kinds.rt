//! What one value of a field is (descriptor.proto, FieldDescriptorProto.Type).
ghost use Rattle.std.specs.Prelude.{◌≡◌};
ghost use Rattle.std.specs.Option.{option_copied};
ghost use Rattle.descriptor_pool.specs.FieldTypes.{has_type};
ghost use Rattle.linked_types.specs.LinkedTypes.{enum_kind, index_from, linked_kind, message_kind, scalar_kind, scalar_of, value_kind, value_of};

use crate::linked_indexes::Places;
use descriptor_pool::SetTypes;
use descriptors::FieldInfo;
use descriptors::descriptor_numbers::{
    TYPE_BOOL, TYPE_BYTES, TYPE_ENUM, TYPE_FIXED32, TYPE_FIXED64, TYPE_INT32, TYPE_INT64,
    TYPE_MESSAGE, TYPE_SFIXED32, TYPE_SFIXED64, TYPE_SINT32, TYPE_SINT64, TYPE_STRING, TYPE_UINT32,
    TYPE_UINT64,
};
use schema::{EnumId, Kind, Scalar, TypeId};

/// The scalar of a type number.
pub(crate) fn scalar_of(number: i32) -> Option<Scalar>
    ensures { result ≡ scalar_of number }
{
    match number {
        TYPE_INT64 => Some(Scalar::Int64),
        TYPE_UINT64 => Some(Scalar::Uint64),
        TYPE_INT32 => Some(Scalar::Int32),
        TYPE_FIXED64 => Some(Scalar::Fixed64),
        TYPE_FIXED32 => Some(Scalar::Fixed32),
        TYPE_BOOL => Some(Scalar::Bool),
        TYPE_STRING => Some(Scalar::Text),
        TYPE_BYTES => Some(Scalar::Bytes),
        TYPE_UINT32 => Some(Scalar::Uint32),
        TYPE_SFIXED32 => Some(Scalar::Sfixed32),
        TYPE_SFIXED64 => Some(Scalar::Sfixed64),
        TYPE_SINT32 => Some(Scalar::Sint32),
        TYPE_SINT64 => Some(Scalar::Sint64),
        _ => None,
    }
}

/// The field that has the type of one value of a field: of a map its entry's second.
fn value_of<'a>(types: &SetTypes<'a>, field: &'a FieldInfo) -> Option<&'a FieldInfo>
    ensures { option_copied result ≡ value_of types.now field.now }
{
    match types.map_entry(field) {
        Some(entry) => entry.entry_value(),
        None => Some(field),
    }
}

/// True for a field whose type is a message.
pub(crate) fn is_message(field: &FieldInfo) -> bool
    ensures { result ≡ has_type 11 field.now }
{
    field.type_number == TYPE_MESSAGE
}

/// True for a field whose type is an enum.
fn is_enum(field: &FieldInfo) -> bool
    ensures { result ≡ has_type 14 field.now }
{
    field.type_number == TYPE_ENUM
}

/// The scalar of a field's type, as what a value is.
fn scalar_kind(field: &FieldInfo) -> Option<Kind>
    ensures { result ≡ scalar_kind field.now.type_number }
{
    Some(Kind::One(scalar_of(field.type_number)?))
}

/// The message type of an index of the set.
fn message_kind(messages: &Places, index: Option<usize>) -> Option<Kind>
    ensures { result ≡ message_kind (index_from 0 messages.now) index }
{
    Some(Kind::Message(TypeId(messages.place(index?)?)))
}

/// The enum type of an index of the set.
fn enum_kind(enums: &Places, index: Option<usize>) -> Option<Kind>
    ensures { result ≡ enum_kind (index_from 0 enums.now) index }
{
    let id = EnumId(enums.place(index?)?);
    Some(Kind::One(Scalar::Enumeration(id)))
}

/// What one value of a field is, by the field that has its type.
fn linked_kind<'a>(
    types: &SetTypes<'a>,
    messages: &Places,
    enums: &Places,
    value: &'a FieldInfo,
) -> Option<Kind>
    ensures { result ≡ linked_kind types.now (index_from 0 messages.now) (index_from 0 enums.now) value.now }
{
    if is_message(value) {
        return message_kind(messages, types.field_message(value));
    }
    if is_enum(value) {
        return enum_kind(enums, types.field_enum(value));
    }
    scalar_kind(value)
}

/// What one value of a field is.
pub(crate) fn value_kind<'a>(
    types: &SetTypes<'a>,
    messages: &Places,
    enums: &Places,
    field: &'a FieldInfo,
) -> Option<Kind>
    ensures { result ≡ value_kind types.now (index_from 0 messages.now) (index_from 0 enums.now) field.now }
{
    match value_of(types, field) {
        Some(value) => linked_kind(types, messages, enums, value),
        None => None,
    }
}
