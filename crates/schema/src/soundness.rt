//! Whether types are what a descriptor set that protoc accepts can declare (descriptor.proto).
ghost use Rattle.std.specs.Prelude.{◌≡◌, ◌↔◌, IsTrue};
ghost use Rattle.std.specs.List.{AllByRecursion};
ghost use Rattle.std.specs.Option.{option_copied};
ghost use Rattle.schema.specs.Soundness.{IsScalarIn, IsKindIn, IsKeyKind, IsPackable, is_packable as is_packable_scalar, FitsShape, FitsPacked, IsSoundField, share_key as share_key_of, IsFreeNumber, AreNumbersApart, IsFreeKey, AreKeysApart, IsFreeName, AreNamesApart, HasKnownForm, IsKnownField, IsWrapped, IsValueField, HasSecondsAndNanos, HasKnownFields, IsSoundMessage, IsSoundEnum, IsSound};

use message_types::{
    EnumType, EnumValue, Field, Kind, Known, MAX_FIELD_NUMBER, MessageType, Presence, Scalar,
    Shape, Types, find_field,
};

/// True where an enum that is named is declared.
fn is_scalar_in(types: &Types, scalar: Scalar) -> bool
    ensures { IsTrue result ↔ IsScalarIn types.now scalar }
{
    match scalar {
        Scalar::Enumeration(id) => (id.0 as usize) < types.enums.len(),
        _ => true,
    }
}

/// True where a type that is named is declared.
fn is_kind_in(types: &Types, kind: Kind) -> bool
    ensures { IsTrue result ↔ IsKindIn types.now kind }
{
    match kind {
        Kind::One(scalar) => is_scalar_in(types, scalar),
        Kind::Message(id) => (id.0 as usize) < types.messages.len(),
    }
}

/// True where the key of a map can be of the kind.
fn is_key_kind(scalar: Scalar) -> bool
    ensures { IsTrue result ↔ IsKeyKind scalar }
{
    match scalar {
        Scalar::Enumeration(_) => false,
        Scalar::Bytes => false,
        _ => true,
    }
}

/// True where a list of the scalar kind can be packed: all but strings and bytes can (the encoding
/// guide, "Packed Repeated Fields").
pub fn is_packable(scalar: Scalar) -> bool
    ensures { result ≡ is_packable_scalar scalar }
{
    match scalar {
        Scalar::Text => false,
        Scalar::Bytes => false,
        _ => true,
    }
}

/// True where a list of the kind can be packed.
fn is_packable_kind(kind: Kind) -> bool
    ensures { IsTrue result ↔ IsPackable kind }
{
    match kind {
        Kind::One(scalar) => is_packable(scalar),
        Kind::Message(_) => false,
    }
}

/// True where kind and presence are as the shape asks.
fn fits_shape(shape: Shape, kind: Kind, presence: Presence) -> bool
    ensures { IsTrue result ↔ FitsShape shape kind presence }
{
    match (shape, kind) {
        (Shape::Single, Kind::Message(_)) => presence != Presence::Implicit,
        (Shape::Single, Kind::One(_)) => true,
        (Shape::Member(_), _) => presence != Presence::Implicit,
        (Shape::Many, _) => presence == Presence::Implicit,
        (Shape::Map(scalar), _) => presence == Presence::Implicit && is_key_kind(scalar),
    }
}

/// True where a field that is declared packed can be.
fn fits_packed(field: &Field) -> bool
    ensures { IsTrue result ↔ FitsPacked field.now }
{
    !field.packed || (field.shape == Shape::Many && is_packable_kind(field.kind))
}

/// True where one field is sound.
fn is_sound_field(types: &Types, field: &Field) -> bool
    ensures { IsTrue result ↔ IsSoundField types.now field.now }
{
    1 <= field.number
        && field.number <= MAX_FIELD_NUMBER
        && is_kind_in(types, field.kind)
        && fits_shape(field.shape, field.kind, field.presence)
        && fits_packed(field)
}

/// True where each field is sound.
fn are_sound_fields(types: &Types, fields: &[Field]) -> bool
    ensures { IsTrue result ↔ AllByRecursion (IsSoundField types.now) fields.now }
{
    for field in fields {
        if !is_sound_field(types, field) {
            return false;
        }
    }
    true
}

/// True where no field has the number.
fn is_free_number(number: u32, fields: &[Field]) -> bool
    ensures { IsTrue result ↔ IsFreeNumber number fields.now }
{
    for field in fields {
        if number == field.number {
            return false;
        }
    }
    true
}

/// True where no two fields have one number.
fn are_numbers_apart(fields: &[Field]) -> bool
    ensures { IsTrue result ↔ AreNumbersApart fields.now }
{
    let mut left = fields;
    while let Some((first, rest)) = left.split_first() {
        if !is_free_number(first.number, rest) {
            return false;
        }
        left = rest;
    }
    true
}

/// True where one name or JSON name is that of both.
fn share_key(a: &Field, b: &Field) -> bool
    ensures { result ≡ share_key_of a.now b.now }
{
    let (name, json) = (a.name.as_str(), a.json.as_str());
    name == b.name.as_str()
        || name == b.json.as_str()
        || json == b.name.as_str()
        || json == b.json.as_str()
}

/// True where no field shares a name with this one.
fn is_free_key(field: &Field, fields: &[Field]) -> bool
    ensures { IsTrue result ↔ IsFreeKey field.now fields.now }
{
    for other in fields {
        if share_key(field, other) {
            return false;
        }
    }
    true
}

/// True where no two fields share a name.
fn are_keys_apart(fields: &[Field]) -> bool
    ensures { IsTrue result ↔ AreKeysApart fields.now }
{
    let mut left = fields;
    while let Some((first, rest)) = left.split_first() {
        if !is_free_key(first, rest) {
            return false;
        }
        left = rest;
    }
    true
}

/// True where the field is implicit, of this kind and shape.
fn has_known_form(field: &Field, scalar: Scalar, shape: Shape) -> bool
    ensures { IsTrue result ↔ HasKnownForm field.now scalar shape }
{
    field.kind == Kind::One(scalar) && field.shape == shape && field.presence == Presence::Implicit
}

/// True where a field of a well-known type is as it is published.
fn is_known_field(field: Option<&Field>, name: &str, scalar: Scalar, shape: Shape) -> bool
    ensures { IsTrue result ↔ IsKnownField (option_copied field.entry) name.now scalar shape }
{
    match field {
        Some(field) => field.name.as_str() == name && has_known_form(field, scalar, shape),
        None => false,
    }
}

/// True where the scalar has a wrapper (wrappers.proto).
fn is_wrapped(scalar: Scalar) -> bool
    ensures { IsTrue result ↔ IsWrapped scalar }
{
    match scalar {
        Scalar::Bool => true,
        Scalar::Int32 => true,
        Scalar::Int64 => true,
        Scalar::Uint32 => true,
        Scalar::Uint64 => true,
        Scalar::Text => true,
        Scalar::Bytes => true,
        _ => false,
    }
}

/// True where the field of a wrapper is as it is published (wrappers.proto).
fn is_value_field(field: Option<&Field>) -> bool
    ensures { IsTrue result ↔ IsValueField (option_copied field.entry) }
{
    match field {
        Some(found) => match found.kind {
            Kind::One(scalar) => {
                is_wrapped(scalar) && is_known_field(field, "value", scalar, Shape::Single)
            }
            Kind::Message(_) => false,
        },
        None => false,
    }
}

/// True where the fields are those of a time or a duration (timestamp.proto, duration.proto).
fn has_seconds_and_nanos(fields: &[Field]) -> bool
    ensures { IsTrue result ↔ HasSecondsAndNanos fields.now }
{
    let (seconds, nanos) = (find_field(fields, 1), find_field(fields, 2));
    fields.len() == 2
        && is_known_field(seconds, "seconds", Scalar::Int64, Shape::Single)
        && is_known_field(nanos, "nanos", Scalar::Int32, Shape::Single)
}

/// True where a well-known type has exactly its fields.
fn has_known_fields(known: Known, fields: &[Field]) -> bool
    ensures { IsTrue result ↔ HasKnownFields known fields.now }
{
    match known {
        Known::Plain => true,
        Known::Timestamp => has_seconds_and_nanos(fields),
        Known::Duration => has_seconds_and_nanos(fields),
        Known::FieldMask => {
            fields.len() == 1
                && is_known_field(find_field(fields, 1), "paths", Scalar::Text, Shape::Many)
        }
        Known::Wrapper => fields.len() == 1 && is_value_field(find_field(fields, 1)),
    }
}

/// True where one message type is sound.
fn is_sound_message(types: &Types, message: &MessageType) -> bool
    ensures { IsTrue result ↔ IsSoundMessage types.now message.now }
{
    let fields = message.fields.as_slice();
    are_sound_fields(types, fields)
        && are_numbers_apart(fields)
        && are_keys_apart(fields)
        && has_known_fields(message.known, fields)
}

/// True where no value has the name.
fn is_free_name(name: &str, values: &[EnumValue]) -> bool
    ensures { IsTrue result ↔ IsFreeName name.now values.now }
{
    for value in values {
        if name == value.name.as_str() {
            return false;
        }
    }
    true
}

/// True where no two values have one name.
fn are_names_apart(values: &[EnumValue]) -> bool
    ensures { IsTrue result ↔ AreNamesApart values.now }
{
    let mut left = values;
    while let Some((first, rest)) = left.split_first() {
        if !is_free_name(first.name.as_str(), rest) {
            return false;
        }
        left = rest;
    }
    true
}

/// True where one enum type is sound.
fn is_sound_enum(declared: &EnumType) -> bool
    ensures { IsTrue result ↔ IsSoundEnum declared.now }
{
    !declared.values.is_empty() && are_names_apart(declared.values.as_slice())
}

/// True where each message type is sound.
fn are_sound_messages(types: &Types) -> bool
    ensures { IsTrue result ↔ AllByRecursion (IsSoundMessage types.now) types.now.messages }
{
    for message in types.messages.as_slice() {
        if !is_sound_message(types, message) {
            return false;
        }
    }
    true
}

/// True where each enum type is sound.
fn are_sound_enums(types: &Types) -> bool
    ensures { IsTrue result ↔ AllByRecursion IsSoundEnum types.now.enums }
{
    for declared in types.enums.as_slice() {
        if !is_sound_enum(declared) {
            return false;
        }
    }
    true
}

/// True exactly where the types are sound: each number and name that stands for a type is in range,
/// fields and enum values are told apart, and shapes, presence and packing agree. Takes no memory;
/// its time grows with the square of the fields of one message type.
pub fn sound(types: &Types) -> bool
    ensures { IsTrue result ↔ IsSound types.now }
{
    are_sound_messages(types) && are_sound_enums(types)
}
