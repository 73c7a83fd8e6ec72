//! Faults of the fields of messages that methods reach.
ghost use Rattle.std.specs.Prelude.{◌≡◌, []};
ghost use Rattle.std.specs.List.{list_any};
ghost use Rattle.set_faults.specs.LinkFaults.{IsFirstOf};
ghost use Rattle.set_faults.specs.ToldNames.{told};
ghost use Rattle.set_faults.specs.MessageFaults.{enum_faults, enum_of, enum_type_faults, field_faults, fields_faults, has_lawful_entry, is_entry_field, is_entry_key, is_entry_value, is_field_number, is_key_type, is_lawful_entry, is_lawful_field, is_lawful_label, is_oneof_index, is_oneof_or_optional, is_type_number, type_faults};

use crate::fault::{LinkFault, LinkKind};
use crate::judged_types::JudgedTypes;
use crate::told_name::{ToldName, fault_of, refuse_where};
use descriptor_pool::{DeclaredMessage, MethodPath, SetTypes, is_repeated};
use descriptors::FieldInfo;
use descriptors::descriptor_numbers::{
    LABEL_OPTIONAL, TYPE_DOUBLE, TYPE_ENUM, TYPE_FLOAT, TYPE_GROUP, TYPE_MESSAGE,
};
use message_types::MAX_FIELD_NUMBER;
use std::alloc::Global;
use std::collections::BTreeSet;

/// True for a field number that may be.
fn is_field_number(number: i32) -> bool
    ensures { result ≡ is_field_number number }
{
    1 <= number && i64::from(number) <= i64::from(MAX_FIELD_NUMBER)
}

/// True for the number of a type.
fn is_type_number(number: i32) -> bool
    ensures { result ≡ is_type_number number }
{
    1 <= number && number <= 18
}

/// True for the type of a map's key: an integer, a bool or a string.
fn is_key_type(number: i32) -> bool
    ensures { result ≡ is_key_type number }
{
    (3 <= number && number <= 9) || number == 13 || (15 <= number && number <= 18)
}

/// True where an index is that of one of so many oneofs, or absent.
fn is_oneof_index(len: usize, index: Option<i32>) -> bool
    ensures { result ≡ is_oneof_index len index }
{
    match index {
        Some(index) => match usize::try_from(index) {
            Ok(index) => index < len,
            Err(_) => false,
        },
        None => true,
    }
}

/// True for a member of a oneof, and for an optional field of proto3.
fn is_oneof_or_optional(field: &FieldInfo) -> bool
    ensures { result ≡ is_oneof_or_optional field.now }
{
    field.oneof_index.is_some() || field.proto3_optional
}

/// True for a label that may be: optional, or repeated without a oneof.
fn is_lawful_label(field: &FieldInfo) -> bool
    ensures { result ≡ is_lawful_label field.now }
{
    field.label == LABEL_OPTIONAL || (is_repeated(field) && !is_oneof_or_optional(field))
}

/// True for a field of a map's entry that has this name and number.
fn is_entry_field(name: &str, number: u32, field: &FieldInfo) -> bool
    ensures { result ≡ is_entry_field name.now number field.now }
{
    field.name.as_str() == name
        && i64::from(field.number) == i64::from(number)
        && field.label == LABEL_OPTIONAL
        && !is_oneof_or_optional(field)
}

/// True where one of the fields is the key of a map's entry.
fn has_key(fields: &[FieldInfo]) -> bool
    ensures { result ≡ list_any is_entry_key fields.now }
{
    for field in fields {
        if is_entry_field("key", 1, field) && is_key_type(field.type_number) {
            return true;
        }
    }
    false
}

/// True where one of the fields is the value of a map's entry.
fn has_value(fields: &[FieldInfo]) -> bool
    ensures { result ≡ list_any is_entry_value fields.now }
{
    for field in fields {
        if is_entry_field("value", 2, field) && is_type_number(field.type_number) {
            return true;
        }
    }
    false
}

/// True for the entry of a map as it may be.
fn is_lawful_entry(message: &DeclaredMessage<'_>) -> bool
    ensures { result ≡ is_lawful_entry message.now }
{
    let fields = message.info.field.as_slice();
    fields.len() == 2 && has_key(fields) && has_value(fields)
}

/// True where the entry of a field may be, if the field is a map.
fn has_lawful_entry<'a>(types: &SetTypes<'a>, field: &'a FieldInfo) -> bool
    ensures { result ≡ has_lawful_entry types.now field.now }
{
    match types.map_entry(field) {
        Some(entry) => is_lawful_entry(entry),
        None => true,
    }
}

/// True where a field may be, if its number did not come before.
fn is_lawful_field<'a>(
    types: &SetTypes<'a>,
    message: &DeclaredMessage<'a>,
    came_before: bool,
    field: &'a FieldInfo,
) -> bool
    ensures { result ≡ is_lawful_field types.now message.now came_before field.now }
{
    is_field_number(field.number)
        && !came_before
        && is_type_number(field.type_number)
        && is_lawful_label(field)
        && is_oneof_index(message.info.oneof_decl.len(), field.oneof_index)
        && has_lawful_entry(types, field)
}

/// Refuses an enum that is not declared, is NullValue, or may not be.
#[tactic(auto, using(crate::proofs::Theorems::first_faults))]
fn check_enum<'a>(
    alloc: Global,
    types: &JudgedTypes<'a, '_>,
    name: ToldName<'_>,
    path: &MethodPath<'_>,
    type_name: &'a str,
) -> Result<(), LinkFault>
    ensures { IsFirstOf result
        (enum_faults (told name.entry) path.now type_name.now (enum_of types.now type_name.now)) }
{
    match types.enum_of(type_name) {
        Some((found, lawful)) => {
            let null = found.name.is("google.protobuf.NullValue");
            let (through, own) = (ToldName::Path(path), ToldName::Full(found.name));
            refuse_where(alloc, null, LinkKind::StructType, name, through)?;
            refuse_where(alloc, !lawful, LinkKind::BadEnum, own, ToldName::Nothing)
        }
        None => {
            let unknown = ToldName::Plain(type_name);
            Err(fault_of(alloc, LinkKind::UnknownType, name, unknown))
        }
    }
}

/// Refuses an enum, where the type is one.
fn check_enum_type<'a>(
    alloc: Global,
    types: &JudgedTypes<'a, '_>,
    name: ToldName<'_>,
    path: &MethodPath<'_>,
    field: &'a FieldInfo,
) -> Result<(), LinkFault>
    ensures { IsFirstOf result (enum_type_faults types.now (told name.entry) path.now field.now) }
{
    if field.type_number == TYPE_ENUM {
        return check_enum(alloc, types, name, path, field.type_name.as_str());
    }
    Ok(())
}

/// Refuses a type that is not served, or that names nothing of the set.
#[tactic(auto, using(crate::proofs::Theorems::first_faults))]
fn check_type<'a>(
    alloc: Global,
    types: &JudgedTypes<'a, '_>,
    name: ToldName<'_>,
    path: &MethodPath<'_>,
    field: &'a FieldInfo,
) -> Result<(), LinkFault>
    ensures { IsFirstOf result (type_faults types.now (told name.entry) path.now field.now) }
{
    let type_name = field.type_name.as_str();
    let number = field.type_number;
    let group = number == TYPE_GROUP;
    let float = number == TYPE_DOUBLE || number == TYPE_FLOAT;
    let unknown = number == TYPE_MESSAGE && types.declared().message_named(type_name).is_none();
    refuse_where(alloc, group, LinkKind::Group, name, ToldName::Nothing)?;
    refuse_where(alloc, float, LinkKind::Float, name, ToldName::Path(path))?;
    let named = ToldName::Plain(type_name);
    refuse_where(alloc, unknown, LinkKind::UnknownType, name, named)?;
    check_enum_type(alloc, types, name, path, field)
}

/// Refuses a fault of a field.
#[tactic(auto, using(crate::proofs::Theorems::first_faults))]
fn check_field<'a>(
    alloc: Global,
    types: &JudgedTypes<'a, '_>,
    path: &MethodPath<'_>,
    message: &DeclaredMessage<'a>,
    came_before: bool,
    field: &'a FieldInfo,
) -> Result<(), LinkFault>
    ensures { IsFirstOf result (field_faults types.now path.now message.now came_before field.now) }
{
    let name = ToldName::Field(message.name, field.name.as_str());
    let lawful = is_lawful_field(types.declared(), message, came_before, field);
    refuse_where(alloc, !lawful, LinkKind::BadField, name, ToldName::Nothing)?;
    check_type(alloc, types, name, path, types.value_field(field))
}

/// Refuses a fault of the fields of a message, in order.
#[tactic(auto, using(crate::proofs::Theorems::first_faults))]
pub(crate) fn check_fields<'a>(
    alloc: Global,
    types: &JudgedTypes<'a, '_>,
    path: &MethodPath<'_>,
    message: &DeclaredMessage<'a>,
) -> Result<(), LinkFault>
    ensures { IsFirstOf result (fields_faults types.now path.now message.now [] message.now.fields) }
{
    let mut before = BTreeSet::new(alloc);
    for field in message.info.field.as_slice() {
        let came_before = !before.insert(field.number)?;
        check_field(alloc, types, path, message, came_before, field)?;
    }
    Ok(())
}
