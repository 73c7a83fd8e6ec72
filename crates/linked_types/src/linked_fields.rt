//! Fields of message types (descriptor.proto, FieldDescriptorProto).
ghost use Rattle.std.specs.Prelude.{◌≡◌, IfOk};
ghost use Rattle.linked_types.specs.EachSome.{each_some};
ghost use Rattle.linked_types.specs.LinkedTypes.{index_from, is_explicit, is_packed, is_proto3, key_scalar, linked_field, linked_shape, plain_shape, presence_of};
ghost use Rattle.linked_types.specs.RealNumbers.{AreRealNumbers};

use crate::linked_indexes::Places;
use crate::linked_kinds::{is_message, scalar_of, value_kind};
use crate::real_oneofs::{natural, real_numbers, real_oneof};
use base::{List, NoMemory, Text};
use descriptor_pool::{DeclaredMessage, SetTypes, field_numbered, is_repeated, json_of};
use descriptors::FieldInfo;
use descriptors::descriptor_numbers::{
    ENTRY_KEY, TYPE_BYTES, TYPE_GROUP, TYPE_MESSAGE, TYPE_STRING,
};
use schema::{Field, Presence, Scalar, Shape};
use std::alloc::Global;

/// The scalar of the keys of a map, by its entry.
fn key_scalar(entry: &DeclaredMessage<'_>) -> Option<Scalar>
    ensures { result ≡ key_scalar entry.now }
{
    match field_numbered(entry.info.field.as_slice(), ENTRY_KEY) {
        Some(key) => scalar_of(key.type_number),
        None => None,
    }
}

/// How many values a field has, if it is no map.
fn plain_shape(fields: &[FieldInfo], numbers: &[Option<u32>], field: &FieldInfo) -> Shape
    requires { AreRealNumbers fields.now numbers.now }
    ensures { result ≡ plain_shape fields.now field.now }
{
    if is_repeated(field) {
        return Shape::Many;
    }
    match real_oneof(fields, numbers, field.oneof_index) {
        Some(number) => Shape::Member(number),
        None => Shape::Single,
    }
}

/// How many values a field has.
fn linked_shape<'a>(
    types: &SetTypes<'a>,
    fields: &[FieldInfo],
    numbers: &[Option<u32>],
    field: &'a FieldInfo,
) -> Option<Shape>
    requires { AreRealNumbers fields.now numbers.now }
    ensures { result ≡ linked_shape types.now fields.now field.now }
{
    match types.map_entry(field) {
        Some(entry) => Some(Shape::Map(key_scalar(entry)?)),
        None => Some(plain_shape(fields, numbers, field)),
    }
}

/// True for a file of proto3.
fn is_proto3(syntax: &str) -> bool
    ensures { result ≡ is_proto3 syntax.now }
{
    syntax == "proto3"
}

/// True in proto3 for a singular message, a member of a real oneof and an optional field, and in a file
/// of any other syntax for each singular field.
fn is_explicit(
    syntax: &str,
    fields: &[FieldInfo],
    numbers: &[Option<u32>],
    field: &FieldInfo,
) -> bool
    requires { AreRealNumbers fields.now numbers.now }
    ensures { result ≡ is_explicit syntax.now fields.now field.now }
{
    !is_repeated(field)
        && (!is_proto3(syntax)
            || is_message(field)
            || real_oneof(fields, numbers, field.oneof_index).is_some()
            || field.proto3_optional)
}

/// True for a list that is packed, in a file of this syntax.
fn is_packed(syntax: &str, field: &FieldInfo) -> bool
    ensures { result ≡ is_packed syntax.now field.now }
{
    let number = field.type_number;
    is_repeated(field)
        && !(number == TYPE_STRING
            || number == TYPE_MESSAGE
            || number == TYPE_BYTES
            || number == TYPE_GROUP)
        && field.packed.unwrap_or(is_proto3(syntax))
}

/// Whether the default of a field is told from its absence.
fn presence_of(
    syntax: &str,
    fields: &[FieldInfo],
    numbers: &[Option<u32>],
    field: &FieldInfo,
) -> Presence
    requires { AreRealNumbers fields.now numbers.now }
    ensures { result ≡ presence_of syntax.now fields.now field.now }
{
    if is_explicit(syntax, fields, numbers, field) {
        return Presence::Explicit;
    }
    Presence::Implicit
}

/// The field of a declaration in a message with these fields, in a file of this syntax.
fn linked_field<'a>(
    alloc: Global,
    types: &SetTypes<'a>,
    messages: &Places,
    enums: &Places,
    syntax: &str,
    fields: &[FieldInfo],
    numbers: &[Option<u32>],
    field: &'a FieldInfo,
) -> Result<Option<Field>, NoMemory>
    requires { AreRealNumbers fields.now numbers.now }
    ensures { IfOk result (λ f. f ≡ linked_field types.now (index_from 0 messages.now) (index_from 0 enums.now) syntax.now fields.now field.now) }
{
    let Some(number) = natural(field.number) else {
        return Ok(None);
    };
    let Some(kind) = value_kind(types, messages, enums, field) else {
        return Ok(None);
    };
    let Some(shape) = linked_shape(types, fields, numbers, field) else {
        return Ok(None);
    };
    Ok(Some(Field {
        name: Text::copy_of(alloc, field.name.as_str())?,
        json: json_of(alloc, field)?,
        number,
        kind,
        shape,
        presence: presence_of(syntax, fields, numbers, field),
        packed: is_packed(syntax, field),
    }))
}

/// The fields of the declarations of a message with so many oneofs, in a file of this syntax.
pub(crate) fn linked_fields<'a>(
    alloc: Global,
    types: &SetTypes<'a>,
    messages: &Places,
    enums: &Places,
    syntax: &str,
    fields: &'a [FieldInfo],
    oneofs: u32,
) -> Result<Option<List<Field>>, NoMemory>
    ensures { IfOk result (λ fs. fs ≡ each_some (linked_field types.now (index_from 0 messages.now) (index_from 0 enums.now) syntax.now fields.now) fields.now) }
{
    let all_numbers = real_numbers(alloc, fields, oneofs)?;
    let numbers = all_numbers.as_slice();
    let mut linked = List::new(alloc);
    for field in fields {
        match linked_field(
            alloc, types, messages, enums, syntax, fields, numbers, field,
        )? {
            Some(field) => linked.push(field)?,
            None => return Ok(None),
        }
    }
    Ok(Some(linked))
}
