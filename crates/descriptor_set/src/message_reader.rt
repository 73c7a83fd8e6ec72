//! Messages, their fields, oneofs and enums (descriptor.proto), by their values.
ghost use Rattle.std.specs.Prelude.{◌≡◌, map, IfOk, option_and_then};
ghost use Rattle.descriptor_set.specs.DescriptorFields.{enum_info, enum_value, field_info, message_by, message_info, message_option, no_message as declares_nothing, oneof_name};
ghost use Rattle.descriptor_set.specs.FieldContents.{truth_at, message_at};

use crate::field_contents::{
    int, int_or_zero, is_set, message, messages, text, text_or_empty, truth,
};
use base::{List, NoMemory, Text};
use descriptors::{EnumInfo, FieldInfo, MessageInfo};
use schema::{EnumValue, Value};
use std::alloc::Global;

/// EnumValueDescriptorProto.
fn read_enum_value(alloc: Global, value: &Value) -> Result<EnumValue, NoMemory>
    ensures { IfOk result (λ read. read ≡ enum_value value.now) }
{
    Ok(EnumValue {
        name: text_or_empty(alloc, value, 1)?,
        number: int_or_zero(value, 2),
    })
}

/// The values of an EnumDescriptorProto.
fn read_enum_values(alloc: Global, values: &[&Value]) -> Result<List<EnumValue>, NoMemory>
    ensures { IfOk result (λ read. read ≡ map enum_value (map (λ v. v.now) values.now)) }
{
    let mut read = List::new(alloc);
    for value in values {
        read.push(read_enum_value(alloc, value)?)?;
    }
    Ok(read)
}

/// EnumDescriptorProto.
fn read_enum(alloc: Global, value: &Value) -> Result<EnumInfo, NoMemory>
    ensures { IfOk result (λ read. read ≡ enum_info value.now) }
{
    let values = messages(alloc, value, 2)?;
    Ok(EnumInfo {
        name: text_or_empty(alloc, value, 1)?,
        value: read_enum_values(alloc, values.as_slice())?,
    })
}

/// The enums of a file or a message.
pub(crate) fn read_enums(alloc: Global, values: &[&Value]) -> Result<List<EnumInfo>, NoMemory>
    ensures { IfOk result (λ read. read ≡ map enum_info (map (λ v. v.now) values.now)) }
{
    let mut read = List::new(alloc);
    for value in values {
        read.push(read_enum(alloc, value)?)?;
    }
    Ok(read)
}

/// The option packed of FieldOptions.
fn packed_option(field: &Value) -> Option<bool>
    ensures { result ≡ option_and_then (λ options. truth_at options 2) (message_at field.now 8) }
{
    match message(field, 8) {
        Some(options) => truth(options, 2),
        None => None,
    }
}

/// FieldDescriptorProto.
fn read_field(alloc: Global, value: &Value) -> Result<FieldInfo, NoMemory>
    ensures { IfOk result (λ read. read ≡ field_info value.now) }
{
    Ok(FieldInfo {
        name: text_or_empty(alloc, value, 1)?,
        extendee: text_or_empty(alloc, value, 2)?,
        number: int_or_zero(value, 3),
        label: int_or_zero(value, 4),
        type_number: int_or_zero(value, 5),
        type_name: text_or_empty(alloc, value, 6)?,
        packed: packed_option(value),
        oneof_index: int(value, 9),
        json_name: text(alloc, value, 10)?,
        proto3_optional: is_set(value, 17),
    })
}

/// The fields or the extensions of a message, or the extensions of a file.
pub(crate) fn read_fields(alloc: Global, values: &[&Value]) -> Result<List<FieldInfo>, NoMemory>
    ensures { IfOk result (λ read. read ≡ map field_info (map (λ v. v.now) values.now)) }
{
    let mut read = List::new(alloc);
    for value in values {
        read.push(read_field(alloc, value)?)?;
    }
    Ok(read)
}

/// The names of the oneofs of a message (OneofDescriptorProto).
fn read_oneofs(alloc: Global, values: &[&Value]) -> Result<List<Text>, NoMemory>
    ensures { IfOk result (λ read. read ≡ map oneof_name (map (λ v. v.now) values.now)) }
{
    let mut read = List::new(alloc);
    for value in values {
        read.push(text_or_empty(alloc, value, 1)?)?;
    }
    Ok(read)
}

/// An option of a message (MessageOptions), by its number.
fn has_option(value: &Value, number: u32) -> bool
    ensures { result ≡ message_option number value.now }
{
    match message(value, 7) {
        Some(options) => is_set(options, number),
        None => false,
    }
}

/// A message that declares nothing.
fn no_message(alloc: Global) -> MessageInfo
    ensures { result ≡ declares_nothing }
{
    MessageInfo {
        name: Text::new(alloc),
        field: List::new(alloc),
        nested_type: List::new(alloc),
        enum_type: List::new(alloc),
        extension: List::new(alloc),
        message_set_wire_format: false,
        map_entry: false,
        oneof_decl: List::new(alloc),
    }
}

/// DescriptorProto, with so many levels of messages in it.
#[cycle(message)]
fn read_parts(alloc: Global, value: &Value, levels: u32) -> Result<MessageInfo, NoMemory>
    ensures { IfOk result (λ read. read ≡ message_by (message_info levels) value.now) }
{
    let fields = messages(alloc, value, 2)?;
    let nested = messages(alloc, value, 3)?;
    let enums = messages(alloc, value, 4)?;
    let extensions = messages(alloc, value, 6)?;
    let oneofs = messages(alloc, value, 8)?;
    Ok(MessageInfo {
        name: text_or_empty(alloc, value, 1)?,
        field: read_fields(alloc, fields.as_slice())?,
        nested_type: read_messages(alloc, nested.as_slice(), levels)?,
        enum_type: read_enums(alloc, enums.as_slice())?,
        extension: read_fields(alloc, extensions.as_slice())?,
        message_set_wire_format: has_option(value, 1),
        map_entry: has_option(value, 7),
        oneof_decl: read_oneofs(alloc, oneofs.as_slice())?,
    })
}

/// DescriptorProto, with so many levels of messages, this one included.
#[cycle(message)]
#[tactic(auto, using(crate::proofs::LevelLemmas::message_none, crate::proofs::LevelLemmas::message_opens))]
fn read_message(alloc: Global, value: &Value, levels: u32) -> Result<MessageInfo, NoMemory>
    ensures { IfOk result (λ read. read ≡ message_info levels value.now) }
{
    if levels == 0 {
        return Ok(no_message(alloc));
    }
    read_parts(alloc, value, levels - 1)
}

/// The messages of a file or a message.
#[cycle(message)]
pub(crate) fn read_messages(
    alloc: Global,
    values: &[&Value],
    levels: u32,
) -> Result<List<MessageInfo>, NoMemory>
    ensures { IfOk result (λ read. read ≡ map (message_info levels) (map (λ v. v.now) values.now)) }
{
    let mut read = List::new(alloc);
    for value in values {
        read.push(read_message(alloc, value, levels)?)?;
    }
    Ok(read)
}
