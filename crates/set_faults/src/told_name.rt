//! The names that faults tell: written out only where a fault is told.
ghost use Rattle.std.specs.Prelude.{◌≡◌, ◌++◌, ◌∷◌, IfOk, List};
ghost use Rattle.set_faults.specs.LinkFaults.{IsFirst, IsFirstOf, fault_if};
ghost use Rattle.set_faults.specs.ToldNames.{told};

use crate::fault::{LinkFault, LinkKind};
use base::{NoMemory, Text};
use descriptor_pool::{FullName, MethodPath};
use std::alloc::Global;

/// A name of a fault. It takes the same memory whatever its length is.
#[derive(Clone, Copy)]
pub(crate) enum ToldName<'a> {
    /// No name.
    Nothing,
    /// A text of the set.
    Plain(&'a str),
    /// A full name.
    Full(&'a FullName<'a>),
    /// A gRPC path.
    Path(&'a MethodPath<'a>),
    /// A field: its message's full name, and its own name.
    Field(&'a FullName<'a>, &'a str),
}

/// The name of a field: the message's full name, a dot and the field's name.
fn field_text(alloc: Global, message: &FullName<'_>, field: &str) -> Result<Text, NoMemory>
    ensures { IfOk result (λ text. text ≡ message.now ++ 46 ∷ field.now) }
{
    let mut text = String::new(alloc);
    message.put(&mut text)?;
    text.push_str(".")?;
    text.push_str(field)?;
    Ok(Text::from_string(text))
}

/// The text of a name.
fn text_of(alloc: Global, name: ToldName<'_>) -> Result<Text, NoMemory>
    ensures { IfOk result (λ text. text ≡ told name.entry) }
{
    match name {
        ToldName::Nothing => Ok(Text::new(alloc)),
        ToldName::Plain(text) => Text::copy_of(alloc, text),
        ToldName::Full(name) => name.to_text(alloc),
        ToldName::Path(path) => path.to_text(alloc),
        ToldName::Field(message, field) => field_text(alloc, message, field),
    }
}

/// The fault of this kind and these names.
pub(crate) fn fault_of(
    alloc: Global,
    kind: LinkKind,
    name: ToldName<'_>,
    second: ToldName<'_>,
) -> LinkFault
    ensures { (rest : List LinkFault)
        → IsFirst result (LinkFault.At kind (told name.entry) (told second.entry) ∷ rest) }
{
    match (text_of(alloc, name), text_of(alloc, second)) {
        (Ok(name), Ok(second)) => LinkFault::At(kind, name, second),
        _ => LinkFault::NoMemory,
    }
}

/// Refuses with a fault of this kind and these names where something holds.
pub(crate) fn refuse_where(
    alloc: Global,
    holds: bool,
    kind: LinkKind,
    name: ToldName<'_>,
    second: ToldName<'_>,
) -> Result<(), LinkFault>
    ensures { IsFirstOf result (fault_if holds (LinkFault.At kind (told name.entry) (told second.entry))) }
{
    if holds {
        return Err(fault_of(alloc, kind, name, second));
    }
    Ok(())
}
