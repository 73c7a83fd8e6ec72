//! The well-known types (timestamp.proto, duration.proto, field_mask.proto, wrappers.proto).
ghost use Rattle.std.specs.Prelude.{◌≡◌, pos};
ghost use Rattle.std.specs.List.{list_any};
ghost use Rattle.descriptor_pool.specs.WellKnownTypes.{are_published, are_seconds_and_nanos, has_repetition, is_published, is_value, known_of, wrapped_type};

use crate::field_types::is_repeated;
use crate::full_name::FullName;
use descriptors::FieldInfo;
use message_types::Known;

/// The type number of what a wrapper wraps, by the wrapper's full name.
pub(crate) fn wrapped_type(name: &FullName<'_>) -> Option<u32>
    ensures { result ≡ wrapped_type name.now }
{
    if name.is("google.protobuf.BoolValue") {
        return Some(8);
    }
    if name.is("google.protobuf.Int32Value") {
        return Some(5);
    }
    if name.is("google.protobuf.Int64Value") {
        return Some(3);
    }
    if name.is("google.protobuf.UInt32Value") {
        return Some(13);
    }
    if name.is("google.protobuf.UInt64Value") {
        return Some(4);
    }
    if name.is("google.protobuf.StringValue") {
        return Some(9);
    }
    if name.is("google.protobuf.BytesValue") {
        return Some(12);
    }
    None
}

/// Which well-known type has a full name.
pub fn known_of(name: &FullName<'_>) -> Known
    ensures { result ≡ known_of name.now }
{
    if name.is("google.protobuf.Timestamp") {
        return Known::Timestamp;
    }
    if name.is("google.protobuf.Duration") {
        return Known::Duration;
    }
    if name.is("google.protobuf.FieldMask") {
        return Known::FieldMask;
    }
    if wrapped_type(name).is_some() {
        return Known::Wrapper;
    }
    Known::Plain
}

/// True where a field is repeated, or where it is not.
fn has_repetition(repeated: bool, field: &FieldInfo) -> bool
    ensures { result ≡ has_repetition repeated field.now }
{
    if repeated {
        is_repeated(field)
    } else {
        !is_repeated(field)
    }
}

/// True where a field is as it is published.
fn is_published(
    name: &str,
    number: u32,
    type_number: u32,
    repeated: bool,
    field: &FieldInfo,
) -> bool
    ensures { result ≡ is_published name.now number type_number repeated field.now }
{
    field.name.as_str() == name
        && i64::from(field.number) == i64::from(number)
        && i64::from(field.type_number) == i64::from(type_number)
        && has_repetition(repeated, field)
        && field.oneof_index.is_none()
        && !field.proto3_optional
}

/// True where one of the fields is as it is published.
fn has_published(
    name: &str,
    number: u32,
    type_number: u32,
    repeated: bool,
    fields: &[FieldInfo],
) -> bool
    ensures { result ≡ list_any (is_published name.now number type_number repeated) fields.now }
{
    for field in fields {
        if is_published(name, number, type_number, repeated, field) {
            return true;
        }
    }
    false
}

/// True where the fields are those of a time or a duration.
fn are_seconds_and_nanos(fields: &[FieldInfo]) -> bool
    ensures { result ≡ are_seconds_and_nanos fields.now }
{
    fields.len() == 2
        && has_published("seconds", 1, 3, false, fields)
        && has_published("nanos", 2, 5, false, fields)
}

/// True where the field is that of a wrapper of this type.
fn is_value(type_number: Option<u32>, fields: &[FieldInfo]) -> bool
    ensures { result ≡ is_value type_number fields.now }
{
    match type_number {
        Some(type_number) => {
            fields.len() == 1 && has_published("value", 1, type_number, false, fields)
        }
        None => false,
    }
}

/// True where a message of a well-known type's name has exactly that type's fields.
pub fn are_published(name: &FullName<'_>, fields: &[FieldInfo]) -> bool
    ensures { result ≡ are_published name.now fields.now }
{
    match known_of(name) {
        Known::Plain => true,
        Known::Timestamp => are_seconds_and_nanos(fields),
        Known::Duration => are_seconds_and_nanos(fields),
        Known::FieldMask => fields.len() == 1 && has_published("paths", 1, 9, true, fields),
        Known::Wrapper => is_value(wrapped_type(name), fields),
    }
}
