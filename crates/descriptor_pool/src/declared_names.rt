//! What a set declares, with full names (descriptor.proto).
ghost use Rattle.std.specs.Prelude.{◌≡◌, ◌++◌, map, IfOk, OnOk};
ghost use Rattle.std.specs.List.{flat_map};
ghost use Rattle.descriptor_pool.specs.DeclaredNames.{declarations, declared_in, enums_in, extensions_in, file_declarations, messages_in, services_in, name_of};

use crate::full_name::{FullName, Names};
use base::NoMemory;
use descriptors::{EnumInfo, FieldInfo, FileInfo, FileSet, MessageInfo, ServiceInfo};
use std::alloc::Global;
use std::marker::Model;

/// What is declared under a name.
#[derive(Drop)]
pub enum Declared<'a> {
    /// A file.
    File,
    /// A message, and its file.
    Message(&'a FileInfo, &'a MessageInfo),
    /// An enum.
    Enum(&'a EnumInfo),
    /// A service.
    Service,
    /// An extension, under the name of the message that it extends.
    Extension(&'a FieldInfo),
}

/// One declaration of a set.
#[derive(Drop)]
pub struct Declaration<'a> {
    /// Its full name.
    pub name: &'a FullName<'a>,
    /// What it declares.
    pub declared: Declared<'a>,
}

impl<'a> Model for Declaration<'a> {
    ghost use Rattle.descriptor_pool.specs.DeclaredNames.{Declaration as Seen};
    ghost use Rattle.descriptor_pool.specs.DeclarationViews.{IsUnder, seen};

    ghost Value = { Seen };

    ghost view = { λ d. seen d.name.now d.declared };

    ghost invariant = { λ d. IsUnder d.name.now d.declared };
}

impl<'a> Declaration<'a> {
    /// The name that it is declared under.
    pub fn name(&self) -> &'a FullName<'a>
        ensures { result.now ≡ name_of self.now }
    {
        self.name
    }
}

/// Appends the enums of a scope.
fn put_enums<'a>(
    names: &'a Names,
    out: &mut Vec<Declaration<'a>>,
    scope: &'a FullName<'a>,
    enums: &'a [EnumInfo],
) -> Result<(), NoMemory>
    ensures { OnOk result (out.new.items ≡ out.old.items ++ enums_in scope.now enums.now) }
{
    for declared in enums {
        out.push(Declaration {
            name: names.within(scope, declared.name.as_str())?,
            declared: Declared::Enum(declared),
        })?;
    }
    Ok(())
}

/// Appends the extensions of a file or a message.
fn put_extensions<'a>(
    names: &'a Names,
    out: &mut Vec<Declaration<'a>>,
    extensions: &'a [FieldInfo],
) -> Result<(), NoMemory>
    ensures { OnOk result (out.new.items ≡ out.old.items ++ extensions_in extensions.now) }
{
    for extension in extensions {
        out.push(Declaration {
            name: names.plain(extension.extendee.as_str())?,
            declared: Declared::Extension(extension),
        })?;
    }
    Ok(())
}

/// Appends a message, what is nested in it, its enums and its extensions.
#[cycle(put)]
fn put_message<'a>(
    names: &'a Names,
    out: &mut Vec<Declaration<'a>>,
    file: &'a FileInfo,
    message: &'a MessageInfo,
    scope: &'a FullName<'a>,
) -> Result<(), NoMemory>
    ensures { OnOk result (out.new.items ≡ out.old.items ++ declared_in file.now.syntax message.now scope.now) }
{
    let inner = names.within(scope, message.name.as_str())?;
    out.push(Declaration {
        name: inner,
        declared: Declared::Message(file, message),
    })?;
    put_messages(names, out, file, message.nested_type.as_slice(), inner)?;
    put_enums(names, out, inner, message.enum_type.as_slice())?;
    put_extensions(names, out, message.extension.as_slice())
}

/// Appends the messages of a scope, with all that is in them.
#[cycle(put)]
fn put_messages<'a>(
    names: &'a Names,
    out: &mut Vec<Declaration<'a>>,
    file: &'a FileInfo,
    messages: &'a [MessageInfo],
    scope: &'a FullName<'a>,
) -> Result<(), NoMemory>
    ensures { OnOk result (out.new.items ≡ out.old.items ++ messages_in file.now.syntax scope.now messages.now) }
{
    for message in messages {
        put_message(names, out, file, message, scope)?;
    }
    Ok(())
}

/// Appends the services of a file.
fn put_services<'a>(
    names: &'a Names,
    out: &mut Vec<Declaration<'a>>,
    scope: &'a FullName<'a>,
    services: &'a [ServiceInfo],
) -> Result<(), NoMemory>
    ensures { OnOk result (out.new.items ≡ out.old.items ++ services_in scope.now services.now) }
{
    for service in services {
        out.push(Declaration {
            name: names.within(scope, service.name.as_str())?,
            declared: Declared::Service,
        })?;
    }
    Ok(())
}

/// Appends what a file declares.
fn put_file<'a>(
    names: &'a Names,
    out: &mut Vec<Declaration<'a>>,
    file: &'a FileInfo,
) -> Result<(), NoMemory>
    ensures { OnOk result (out.new.items ≡ out.old.items ++ file_declarations file.now) }
{
    out.push(Declaration {
        name: names.plain(file.name.as_str())?,
        declared: Declared::File,
    })?;
    let package = names.plain(file.package.as_str())?;
    put_messages(names, out, file, file.message_type.as_slice(), package)?;
    put_enums(names, out, package, file.enum_type.as_slice())?;
    put_services(names, out, package, file.service.as_slice())?;
    put_extensions(names, out, file.extension.as_slice())
}

/// All that a set declares, file by file. The names stand in `names`; none is written out, so that
/// the memory is linear in the number of declarations, whatever their names are.
pub fn declarations_of<'a>(
    alloc: Global,
    names: &'a Names,
    set: &'a FileSet,
) -> Result<Vec<Declaration<'a>>, NoMemory>
    ensures { IfOk result (λ ds. ds.items ≡ declarations set.now) }
{
    let mut declarations = Vec::new(alloc);
    for file in set.files.as_slice() {
        put_file(names, &mut declarations, file)?;
    }
    Ok(declarations)
}
