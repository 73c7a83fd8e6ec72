//! Faults of messages that methods reach.
ghost use Rattle.std.specs.Prelude.{◌≡◌, ◌++◌};
ghost use Rattle.std.specs.List.{flat_map};
ghost use Rattle.set_faults.specs.LinkFaults.{IsFirstOf};
ghost use Rattle.set_faults.specs.MessageFaults.{has_extensions, head_faults, is_proto2, is_struct, joined_faults, message_faults, reached_faults};

use crate::fault::{LinkFault, LinkKind};
use crate::field_faults::check_fields;
use crate::judged_types::{JudgedTypes, judged_types};
use crate::key_faults::check_keys;
use crate::told_name::{ToldName, refuse_where};
use descriptor_pool::{DeclaredMessage, FullName, Joined, MethodPath, SetTypes, are_published};
use std::alloc::Global;

/// True where a syntax is proto2: absent, empty or named.
fn is_proto2(syntax: &str) -> bool
    ensures { result ≡ is_proto2 syntax.now }
{
    syntax.is_empty() || syntax == "proto2"
}

/// True for the messages of struct.proto.
fn is_struct(name: &FullName<'_>) -> bool
    ensures { result ≡ is_struct name.now }
{
    name.is("google.protobuf.Struct")
        || name.is("google.protobuf.Value")
        || name.is("google.protobuf.ListValue")
}

/// True where the set extends a message, or it is a message set.
fn has_extensions<'a>(types: &SetTypes<'a>, message: &DeclaredMessage<'a>) -> bool
    ensures { result ≡ has_extensions types.now message.now }
{
    types.is_extended(message.name) || message.info.message_set_wire_format
}

/// Refuses a message of another syntax than proto3, of a type that is never served, that is
/// extended, or that is no well-known type but has the name of one.
#[tactic(auto, using(crate::proofs::Theorems::first_faults))]
fn check_head<'a>(
    alloc: Global,
    types: &SetTypes<'a>,
    path: &MethodPath<'_>,
    message: &DeclaredMessage<'a>,
) -> Result<(), LinkFault>
    ensures { IsFirstOf result (head_faults types.now path.now message.now) }
{
    let full = message.name;
    let syntax = message.file.syntax.as_str();
    let (name, through) = (ToldName::Full(full), ToldName::Path(path));
    let none = ToldName::Nothing;
    let old = is_proto2(syntax);
    let other = !(old || syntax == "proto3");
    let any = full.is("google.protobuf.Any");
    let extended = has_extensions(types, message);
    let published = are_published(full, message.info.field.as_slice());
    refuse_where(alloc, old, LinkKind::Proto2, name, none)?;
    refuse_where(alloc, other, LinkKind::Edition, name, none)?;
    refuse_where(alloc, any, LinkKind::AnyType, name, through)?;
    refuse_where(alloc, is_struct(full), LinkKind::StructType, name, through)?;
    refuse_where(alloc, extended, LinkKind::Extension, name, none)?;
    refuse_where(alloc, !published, LinkKind::KnownShape, name, none)
}

/// Refuses a fault of a message: of itself, then of its fields, then of their names.
#[tactic(auto, using(crate::proofs::Theorems::first_faults))]
fn check_message<'a>(
    alloc: Global,
    types: &JudgedTypes<'a, '_>,
    path: &MethodPath<'_>,
    message: &DeclaredMessage<'a>,
) -> Result<(), LinkFault>
    ensures { IsFirstOf result (message_faults types.now path.now message.now) }
{
    check_head(alloc, types.declared(), path, message)?;
    check_fields(alloc, types, path, message)?;
    check_keys(alloc, message)
}

/// Refuses a fault of a message that is reached.
fn check_joined<'a>(
    alloc: Global,
    types: &JudgedTypes<'a, '_>,
    joined: &Joined<'a>,
) -> Result<(), LinkFault>
    ensures { IsFirstOf result (joined_faults types.now joined.now) }
{
    match types.declared().messages().get(joined.message) {
        Some(message) => check_message(alloc, types, &joined.path, message),
        None => Ok(()),
    }
}

/// Refuses a fault of messages that are reached, in order.
#[tactic(auto, using(crate::proofs::Theorems::first_faults))]
fn check_each<'a>(
    alloc: Global,
    types: &JudgedTypes<'a, '_>,
    reached: &[Joined<'a>],
) -> Result<(), LinkFault>
    ensures { IsFirstOf result (reached_faults types.now reached.now) }
{
    for joined in reached {
        check_joined(alloc, types, joined)?;
    }
    Ok(())
}

/// Refuses a fault of the messages that are reached, in order.
pub(crate) fn check_reached<'a>(
    alloc: Global,
    types: &SetTypes<'a>,
    reached: &[Joined<'a>],
) -> Result<(), LinkFault>
    ensures { IsFirstOf result (reached_faults types.now reached.now) }
{
    let judged = judged_types(alloc, types)?;
    check_each(alloc, &judged, reached)
}
