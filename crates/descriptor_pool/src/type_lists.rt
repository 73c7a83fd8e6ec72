//! The messages and enums of declarations, their names, and the names of what is extended.
ghost use Rattle.std.specs.Prelude.{◌≡◌, ◌++◌, map, IfOk, OnOk};
ghost use Rattle.std.specs.List.{flat_map};
ghost use Rattle.std.specs.Option.{option_copied};
ghost use Rattle.descriptor_pool.specs.DeclaredTypes.{bare, enum_in, extended_in, message_in};

use crate::declared_names::{Declaration, Declared};
use crate::declared_types::{DeclaredEnum, DeclaredMessage};
use crate::field_types::field_numbered;
use crate::full_name::FullName;
use base::NoMemory;
use descriptors::descriptor_numbers::ENTRY_VALUE;
use std::alloc::Global;

/// The full name that a type name names: it stands behind a dot.
pub(crate) fn bare(type_name: &str) -> Option<&str>
    ensures { option_copied result ≡ bare type_name.now }
{
    type_name.strip_prefix('.')
}

/// Appends the message of a declaration.
fn put_declared_message<'a>(
    out: &mut Vec<DeclaredMessage<'a>>,
    declaration: &Declaration<'a>,
) -> Result<(), NoMemory>
    ensures { OnOk result (out.new.items ≡ out.old.items ++ message_in declaration.now) }
{
    match declaration.declared {
        Declared::Message(file, info) => {
            let name = declaration.name;
            let value = field_numbered(info.field.as_slice(), ENTRY_VALUE);
            out.push(DeclaredMessage {
                name,
                file,
                info,
                value,
            })?;
            Ok(())
        }
        _ => Ok(()),
    }
}

/// Appends the enum of a declaration.
fn put_declared_enum<'a>(
    out: &mut Vec<DeclaredEnum<'a>>,
    declaration: &Declaration<'a>,
) -> Result<(), NoMemory>
    ensures { OnOk result (out.new.items ≡ out.old.items ++ enum_in declaration.now) }
{
    match declaration.declared {
        Declared::Enum(info) => {
            let name = declaration.name;
            out.push(DeclaredEnum { name, info })?;
            Ok(())
        }
        _ => Ok(()),
    }
}

/// Appends the full name of the message that an extension extends.
fn put_extended<'a>(
    out: &mut Vec<FullName<'a>>,
    declaration: &Declaration<'a>,
) -> Result<(), NoMemory>
    ensures { OnOk result (out.new.items ≡ out.old.items ++ extended_in declaration.now) }
{
    match declaration.declared {
        Declared::Extension(extension) => {
            if let Some(name) = bare(extension.extendee.as_str()) {
                out.push(FullName::plain(name))?;
            }
            Ok(())
        }
        _ => Ok(()),
    }
}

/// The messages of declarations, in order.
pub(crate) fn messages_of<'a>(
    alloc: Global,
    declarations: &[Declaration<'a>],
) -> Result<Vec<DeclaredMessage<'a>>, NoMemory>
    ensures { IfOk result (λ ms. ms.items ≡ flat_map message_in declarations.now) }
{
    let mut messages = Vec::new(alloc);
    for declaration in declarations {
        put_declared_message(&mut messages, declaration)?;
    }
    Ok(messages)
}

/// The enums of declarations, in order.
pub(crate) fn enums_of<'a>(
    alloc: Global,
    declarations: &[Declaration<'a>],
) -> Result<Vec<DeclaredEnum<'a>>, NoMemory>
    ensures { IfOk result (λ es. es.items ≡ flat_map enum_in declarations.now) }
{
    let mut enums = Vec::new(alloc);
    for declaration in declarations {
        put_declared_enum(&mut enums, declaration)?;
    }
    Ok(enums)
}

/// The full names of the messages that are extended, in order.
pub(crate) fn extended_of<'a>(
    alloc: Global,
    declarations: &[Declaration<'a>],
) -> Result<Vec<FullName<'a>>, NoMemory>
    ensures { IfOk result (λ ns. ns.items ≡ flat_map extended_in declarations.now) }
{
    let mut extended = Vec::new(alloc);
    for declaration in declarations {
        put_extended(&mut extended, declaration)?;
    }
    Ok(extended)
}

/// The names of messages.
pub(crate) fn message_names<'a>(
    alloc: Global,
    messages: &[DeclaredMessage<'a>],
) -> Result<Vec<&'a FullName<'a>>, NoMemory>
    ensures { IfOk result (λ ns. map (λ n. n.now) ns.items ≡ map (λ m. m.name) messages.now) }
{
    let mut names = Vec::new(alloc);
    for message in messages {
        names.push(message.name)?;
    }
    Ok(names)
}

/// The names of enums.
pub(crate) fn enum_names<'a>(
    alloc: Global,
    enums: &[DeclaredEnum<'a>],
) -> Result<Vec<&'a FullName<'a>>, NoMemory>
    ensures { IfOk result (λ ns. map (λ n. n.now) ns.items ≡ map (λ e. e.name) enums.now) }
{
    let mut names = Vec::new(alloc);
    for declared in enums {
        names.push(declared.name)?;
    }
    Ok(names)
}
