//! The messages and enums of a set, found by type names (descriptor.proto).
ghost use Rattle.std.specs.Prelude.{◌≡◌, slice_get, IfOk};
ghost use Rattle.std.specs.List.{list_any};
ghost use Rattle.std.specs.Option.{option_copied};
ghost use Rattle.std.specs.Str.{bytes_eq};
ghost use Rattle.descriptor_pool.specs.DeclaredTypes.{enum_named, message_named, types_in};
ghost use Rattle.descriptor_pool.specs.FieldTypes.{entry_value};
ghost use Rattle.descriptor_pool.specs.ReachableTypes.{fields_at};

use crate::declared_names::Declaration;
use crate::full_name::FullName;
use crate::name_index::{name_index, name_set};
use crate::type_lists::{bare, enum_names, enums_of, extended_of, message_names, messages_of};
use base::NoMemory;
use descriptors::{EnumInfo, FieldInfo, FileInfo, MessageInfo};
use std::alloc::Global;
use std::collections::{BTreeMap, BTreeSet};
use std::marker::Model;

/// A message of the set.
#[derive(Drop)]
pub struct DeclaredMessage<'a> {
    /// The full name.
    pub name: &'a FullName<'a>,
    /// The file.
    pub file: &'a FileInfo,
    /// The declaration.
    pub info: &'a MessageInfo,
    pub(crate) value: Option<&'a FieldInfo>,
}

impl<'a> Model for DeclaredMessage<'a> {
    ghost use Rattle.std.specs.Prelude.{◌≡◌, pos};
    ghost use Rattle.std.specs.Option.{option_copied};
    ghost use Rattle.descriptors.specs.declared.file_set.MessageInfo.{out-MessageInfo};
    ghost use Rattle.descriptor_pool.specs.DeclaredNames.{DeclaredMessage as Seen, message_of};
    ghost use Rattle.descriptor_pool.specs.FieldTypes.{field_numbered};

    ghost Value = { Seen };

    ghost view = { λ m. message_of m.name.now m.file.now.syntax (out-MessageInfo m.info.now) };

    ghost invariant = { λ m. option_copied m.value ≡ field_numbered (pos 2) (out-MessageInfo m.info.now).field };
}

impl<'a> DeclaredMessage<'a> {
    /// The value of a map's entry: the first field of the number 2.
    pub fn entry_value(&self) -> Option<&'a FieldInfo>
        ensures { option_copied result ≡ entry_value self.now }
    {
        self.value
    }
}

/// An enum of the set.
#[derive(Drop)]
pub struct DeclaredEnum<'a> {
    /// The full name.
    pub name: &'a FullName<'a>,
    /// The declaration.
    pub info: &'a EnumInfo,
}

impl<'a> Model for DeclaredEnum<'a> {
    ghost use Rattle.descriptor_pool.specs.DeclaredNames.{DeclaredEnum as Seen};

    ghost Value = { Seen };

    ghost view = { λ e. record { name = e.name.now; values = e.info.now.value } };
}

/// The messages and enums of a set, with their names in order.
#[derive(Drop)]
pub struct SetTypes<'a> {
    messages: Vec<DeclaredMessage<'a>>,
    enums: Vec<DeclaredEnum<'a>>,
    extended: Vec<FullName<'a>>,
    message_index: BTreeMap<FullName<'a>, usize>,
    enum_index: BTreeMap<FullName<'a>, usize>,
    extended_names: BTreeSet<FullName<'a>>,
}

impl<'a> Model for SetTypes<'a> {
    ghost use Rattle.descriptor_pool.specs.DeclaredTypes.{SetTypes as Seen};
    ghost use Rattle.descriptor_pool.specs.NameIndex.{IsIndexed};

    ghost Value = { Seen };

    ghost view = { λ t. record { messages = t.messages.items; enums = t.enums.items; extended = t.extended.items } };

    ghost invariant = { λ t. IsIndexed (record { messages = t.messages.items; enums = t.enums.items; extended = t.extended.items }) t.message_index t.enum_index t.extended_names };
}

/// The types of a set.
pub fn types_of<'a>(
    alloc: Global,
    declarations: &[Declaration<'a>],
) -> Result<SetTypes<'a>, NoMemory>
    ensures { IfOk result (λ types. types ≡ types_in declarations.now) }
{
    let messages = messages_of(alloc, declarations)?;
    let enums = enums_of(alloc, declarations)?;
    let extended = extended_of(alloc, declarations)?;
    let message_index = name_index(alloc, message_names(alloc, messages.as_slice())?.as_slice())?;
    let enum_index = name_index(alloc, enum_names(alloc, enums.as_slice())?.as_slice())?;
    let extended_names = name_set(alloc, extended.as_slice())?;
    Ok(SetTypes {
        messages,
        enums,
        extended,
        message_index,
        enum_index,
        extended_names,
    })
}

impl<'a> SetTypes<'a> {
    /// The index of the message that a type name names.
    pub fn message_named(&self, type_name: &'a str) -> Option<usize>
        ensures { result ≡ message_named self.now type_name.now }
    {
        match bare(type_name) {
            Some(name) => self.message_index.get(&FullName::plain(name)).copied(),
            None => None,
        }
    }

    /// The index of the enum that a type name names.
    pub fn enum_named(&self, type_name: &'a str) -> Option<usize>
        ensures { result ≡ enum_named self.now type_name.now }
    {
        match bare(type_name) {
            Some(name) => self.enum_index.get(&FullName::plain(name)).copied(),
            None => None,
        }
    }

    /// The messages, in the order of their indexes.
    pub fn messages(&self) -> &[DeclaredMessage<'a>]
        ensures { result.now ≡ self.now.messages }
    {
        self.messages.as_slice()
    }

    /// The enums, in the order of their indexes.
    pub fn enums(&self) -> &[DeclaredEnum<'a>]
        ensures { result.now ≡ self.now.enums }
    {
        self.enums.as_slice()
    }

    /// The message of an index.
    pub fn message_at(&self, at: usize) -> Option<&DeclaredMessage<'a>>
        ensures { option_copied result ≡ slice_get self.now.messages at }
    {
        self.messages.get(at)
    }

    /// The enum of an index.
    pub fn enum_at(&self, at: usize) -> Option<&DeclaredEnum<'a>>
        ensures { option_copied result ≡ slice_get self.now.enums at }
    {
        self.enums.get(at)
    }

    /// The fields of the message of an index; none where there is no such message.
    pub fn fields_at(&self, at: usize) -> &'a [FieldInfo]
        ensures { result.now ≡ fields_at self.now at }
    {
        match self.messages.get(at) {
            Some(message) => message.info.field.as_slice(),
            None => &[],
        }
    }

    /// True where the set extends the message of a full name.
    pub fn is_extended(&self, name: &FullName<'a>) -> bool
        ensures { result ≡ list_any (bytes_eq name.now) self.now.extended }
    {
        self.extended_names.contains(name)
    }
}
