//! Why a descriptor set is not linked.
ghost use Rattle.std.specs.Prelude.{◌≡◌, ◌++◌, ◌∷◌, List};
ghost use Rattle.set_faults.specs.LinkFaults.{IsFirst, IsFirstOf, fault_if, kind_text, second_text};

use base::{NoMemory, Text};
use std::alloc::{AllocFailed, Global};
use std::error::Error;
use std::fmt;

/// What is wrong, in the order in which it is looked for.
#[derive(Debug, Clone, Copy, PartialEq, Eq)]
pub enum LinkKind {
    /// Over 10,000 messages and enums (`types`), over 10,000 bindings (`bindings`), or over 64
    /// distinct HTTP methods (`methods`).
    TooMany,
    /// The name of a file, or the full name of a message, an enum or a service, came before.
    DoubleName,
    /// No method of the set has an annotation.
    NoRoute,
    /// A method's input or output, or a field's type, names nothing of the set.
    UnknownType,
    /// An additional binding has additional bindings.
    NestedAdditional,
    /// A rule has no pattern.
    NoPattern,
    /// A custom kind is neither `*` nor a token of at most 32 bytes, or is HEAD or CONNECT.
    BadMethod,
    /// The text of a path template is none: the offset of its fault. Or it is one of over 64 segments
    /// or over 16 variables: `many`.
    TemplateAt,
    /// The file's syntax is `proto2`. An absent or an empty syntax means that too.
    Proto2,
    /// The file's syntax is neither empty, `proto2` nor `proto3`.
    Edition,
    /// The message is google.protobuf.Any.
    AnyType,
    /// The message is google.protobuf.Struct, Value or ListValue, or the enum is NullValue.
    StructType,
    /// The message has extensions, or is a message set.
    Extension,
    /// A well-known type has other fields than it is published with.
    KnownShape,
    /// A field's number, type, label or oneof is not lawful, or an entry of a map is not.
    BadField,
    /// A field is a group.
    Group,
    /// A field is a float or a double.
    Float,
    /// An enum has no value, a name twice, or a first number other than 0.
    BadEnum,
    /// One name or JSON name belongs to two fields.
    SameJsonName,
    /// A variable's path names no field of the input, passes through anything but a plain singular
    /// message, ends at no leaf or at a repeated or map field, or is equal to or a prefix of another
    /// variable's path.
    PathField,
    /// The body is not empty, not `*`, and no field name of the input.
    BodyField,
    /// The response body is not empty, and no field name of the output.
    ResponseField,
    /// Two bindings have one HTTP method, and templates with equal segments and verbs: the later one is
    /// the first that repeats an earlier one, and it is told behind the earliest such one.
    SameRoute,
}

impl LinkKind {
    /// The name of the kind, as texts of faults have it.
    pub fn name(self) -> &'static str
        ensures { result.now ≡ kind_text self }
    {
        match self {
            LinkKind::TooMany => "TooMany",
            LinkKind::DoubleName => "DoubleName",
            LinkKind::NoRoute => "NoRoute",
            LinkKind::UnknownType => "UnknownType",
            LinkKind::NestedAdditional => "NestedAdditional",
            LinkKind::NoPattern => "NoPattern",
            LinkKind::BadMethod => "BadMethod",
            LinkKind::TemplateAt => "TemplateAt",
            LinkKind::Proto2 => "Proto2",
            LinkKind::Edition => "Edition",
            LinkKind::AnyType => "AnyType",
            LinkKind::StructType => "StructType",
            LinkKind::Extension => "Extension",
            LinkKind::KnownShape => "KnownShape",
            LinkKind::BadField => "BadField",
            LinkKind::Group => "Group",
            LinkKind::Float => "Float",
            LinkKind::BadEnum => "BadEnum",
            LinkKind::SameJsonName => "SameJsonName",
            LinkKind::PathField => "PathField",
            LinkKind::BodyField => "BodyField",
            LinkKind::ResponseField => "ResponseField",
            LinkKind::SameRoute => "SameRoute",
        }
    }
}

/// Why a descriptor set is not linked.
#[derive(Debug, Drop)]
pub enum LinkFault {
    /// A fault of the set: its kind, the name of what has it, and a second name or nothing.
    At(LinkKind, Text, Text),
    /// Out of memory.
    NoMemory,
}

impl From<NoMemory> for LinkFault {
    ghost use Rattle.set_faults.specs.declared.fault.LinkFault.TheVariants as faults;
    ghost use Rattle.std.specs.Prelude.{◌≡◌};

    ghost from_gives = { λ _ e. e ≡ faults.NoMemory };

    fn from(_: NoMemory) -> LinkFault {
        LinkFault::NoMemory
    }
}

impl<T: Drop> From<AllocFailed<T>> for LinkFault {
    ghost use Rattle.set_faults.specs.declared.fault.LinkFault.TheVariants as faults;
    ghost use Rattle.std.specs.Prelude.{◌≡◌};

    ghost from_gives = { λ _ e. e ≡ faults.NoMemory };

    fn from(_: AllocFailed<T>) -> LinkFault {
        LinkFault::NoMemory
    }
}

impl fmt::Display for LinkKind {
    ghost use Rattle.std.specs.Prelude.{Some};
    ghost use Rattle.set_faults.specs.LinkFaults.{kind_text};

    ghost output = { λ kind. Some (kind_text kind) };

    fn fmt<W: fmt::Write>(&self, f: &mut fmt::Formatter<W>) -> fmt::Result {
        f.write_str(self.name())
    }
}

/// What stands between the names of a fault: a space, or nothing where there is no second one.
fn before_second(second: &str) -> &'static str
    ensures { result.now ++ second.now ≡ second_text second.now }
{
    if second.is_empty() { "" } else { " " }
}

impl fmt::Display for LinkFault {
    ghost use Rattle.std.specs.Prelude.{Some};
    ghost use Rattle.set_faults.specs.LinkFaults.{fault_text};

    ghost output = { λ fault. Some (fault_text fault) };

    fn fmt<W: fmt::Write>(&self, f: &mut fmt::Formatter<W>) -> fmt::Result {
        match self {
            LinkFault::At(kind, name, second) => {
                f.write_str(kind.name())?;
                f.write_str(" ")?;
                f.write_str(name.as_str())?;
                f.write_str(before_second(second.as_str()))?;
                f.write_str(second.as_str())
            }
            LinkFault::NoMemory => fmt::Display::fmt(&NoMemory, f),
        }
    }
}

impl Error for LinkFault {}

/// The fault of this kind and these names.
pub fn fault_at(alloc: Global, kind: LinkKind, name: &str, second: &str) -> LinkFault
    ensures { (rest : List LinkFault) → IsFirst result (LinkFault.At kind name.now second.now ∷ rest) }
{
    match (Text::copy_of(alloc, name), Text::copy_of(alloc, second)) {
        (Ok(name), Ok(second)) => LinkFault::At(kind, name, second),
        _ => LinkFault::NoMemory,
    }
}

/// Refuses with a fault of this kind and these names where something holds.
pub fn refuse_if(
    alloc: Global,
    holds: bool,
    kind: LinkKind,
    name: &str,
    second: &str,
) -> Result<(), LinkFault>
    ensures { IsFirstOf result (fault_if holds (LinkFault.At kind name.now second.now)) }
{
    if holds {
        return Err(fault_at(alloc, kind, name, second));
    }
    Ok(())
}
