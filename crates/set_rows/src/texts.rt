//! The texts of faults.

use base::Text;
use descriptor_set::SetFault;
use rows::kept;
use schema_link::{LinkFault, LinkKind};
use std::alloc::Global;
use std::io;
use wire_format::{WireFault, WireKind};

/// All kinds, in the order in which they are looked for.
const KINDS: [LinkKind; 23] = [
    LinkKind::TooMany,
    LinkKind::DoubleName,
    LinkKind::NoRoute,
    LinkKind::UnknownType,
    LinkKind::NestedAdditional,
    LinkKind::NoPattern,
    LinkKind::BadMethod,
    LinkKind::TemplateAt,
    LinkKind::Proto2,
    LinkKind::Edition,
    LinkKind::AnyType,
    LinkKind::StructType,
    LinkKind::Extension,
    LinkKind::KnownShape,
    LinkKind::BadField,
    LinkKind::Group,
    LinkKind::Float,
    LinkKind::BadEnum,
    LinkKind::SameJsonName,
    LinkKind::PathField,
    LinkKind::BodyField,
    LinkKind::ResponseField,
    LinkKind::SameRoute,
];

/// The names of all kinds.
pub(crate) fn kind_answer(alloc: Global) -> io::Result<String> {
    let mut out = String::new(alloc);
    for kind in KINDS {
        out.push_str(format!(in alloc; "{kind};")?.as_str())?;
    }
    Ok(out)
}

/// The texts of all faults of reading, at 7.
pub(crate) fn set_fault_answer(alloc: Global) -> io::Result<String> {
    let mut out = String::new(alloc);
    for kind in [
        WireKind::Short,
        WireKind::LongVarint,
        WireKind::BadTag,
        WireKind::BadGroup,
        WireKind::TooDeep,
    ] {
        let fault = SetFault::Wire(WireFault { place: 7, kind });
        out.push_str(format!(in alloc; "{fault};")?.as_str())?;
    }
    for fault in [SetFault::NotUtf8(7), SetFault::TooLong, SetFault::NoMemory] {
        out.push_str(format!(in alloc; "{fault};")?.as_str())?;
    }
    Ok(out)
}

/// A name as a row has it: a dash for none.
fn name_of(alloc: Global, word: &str) -> io::Result<Text> {
    kept(Text::copy_of(alloc, if word == "-" { "" } else { word }))
}

/// The text of a bad method with two names.
pub(crate) fn link_fault_answer(alloc: Global, name: &str, second: &str) -> io::Result<String> {
    let (name, second) = (name_of(alloc, name)?, name_of(alloc, second)?);
    let fault = LinkFault::At(LinkKind::BadMethod, name, second);
    Ok(format!(in alloc; "{fault}")?)
}

/// The text of the free fault.
pub(crate) fn no_memory_answer(alloc: Global) -> io::Result<String> {
    Ok(format!(in alloc; "{}", LinkFault::NoMemory)?)
}
