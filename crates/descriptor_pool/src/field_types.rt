//! The type of a declared field, and maps (descriptor.proto, FieldDescriptorProto).
ghost use Rattle.std.specs.Prelude.{◌≡◌, pos};
ghost use Rattle.std.specs.Option.{option_copied};
ghost use Rattle.descriptor_pool.specs.FieldTypes.{entry_value, field_enum, field_message, field_numbered, has_type, is_repeated, map_entry, message_of_field, value_field};

use crate::declared_types::{DeclaredMessage, SetTypes};
use descriptors::FieldInfo;
use descriptors::descriptor_numbers::{LABEL_REPEATED, TYPE_ENUM, TYPE_MESSAGE};

/// True for a repeated field.
pub fn is_repeated(field: &FieldInfo) -> bool
    ensures { result ≡ is_repeated field.now }
{
    field.label == LABEL_REPEATED
}

/// The first field of a number.
pub fn field_numbered(fields: &[FieldInfo], number: i32) -> Option<&FieldInfo>
    ensures { option_copied result ≡ field_numbered number fields.now }
{
    for field in fields {
        if field.number == number {
            return Some(field);
        }
    }
    None
}

impl<'a> SetTypes<'a> {
    /// The index of the message that a field's type names, where that type is a message.
    pub fn field_message(&self, field: &'a FieldInfo) -> Option<usize>
        ensures { result ≡ field_message self.now field.now }
    {
        if field.type_number == TYPE_MESSAGE {
            return self.message_named(field.type_name.as_str());
        }
        None
    }

    /// The index of the enum that a field's type names, where that type is an enum.
    pub fn field_enum(&self, field: &'a FieldInfo) -> Option<usize>
        ensures { result ≡ field_enum self.now field.now }
    {
        if field.type_number == TYPE_ENUM {
            return self.enum_named(field.type_name.as_str());
        }
        None
    }

    /// The message that a field's type names, where that type is a message.
    fn message_of_field(&self, field: &'a FieldInfo) -> Option<&DeclaredMessage<'a>>
        ensures { option_copied result ≡ message_of_field self.now field.now }
    {
        match self.field_message(field) {
            Some(at) => self.messages().get(at),
            None => None,
        }
    }

    /// The entry of a map: a map is a repeated field whose type is a message with the option
    /// map_entry.
    pub fn map_entry(&self, field: &'a FieldInfo) -> Option<&DeclaredMessage<'a>>
        ensures { option_copied result ≡ map_entry self.now field.now }
    {
        if !is_repeated(field) {
            return None;
        }
        match self.message_of_field(field) {
            Some(message) => {
                if message.info.map_entry {
                    return Some(message);
                }
                None
            }
            None => None,
        }
    }

    /// The field whose type one value of a field has: of a map its entry's second, else the field
    /// itself.
    pub fn value_field(&self, field: &'a FieldInfo) -> &'a FieldInfo
        ensures { result.now ≡ value_field self.now field.now }
    {
        match self.map_entry(field) {
            Some(entry) => match entry.entry_value() {
                Some(value) => value,
                None => field,
            },
            None => field,
        }
    }
}
