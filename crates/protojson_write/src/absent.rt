//! Appending what stands for a field that is absent.
ghost use Rattle.std.specs.Prelude.{◌≡◌, ◌++◌, OnOk, OnErr};
ghost use Rattle.base.specs.Extends.{Extends};
ghost use Rattle.protojson_write.specs.JsonOutput.{absent_text, single_default};

use crate::scalars::put_default;
use base::NoMemory;
use field_index::IndexedTypes;
use schema::{Field, Kind, Presence, Shape};

/// Appends what stands for a single field that is absent.
fn put_single_default(
    out: &mut Vec<u8>,
    types: &IndexedTypes<'_>,
    presence: Presence,
    kind: Kind,
) -> Result<(), NoMemory>
    ensures ok { OnOk result (out.new.items ≡ out.old.items ++ single_default types.now presence kind) }
    ensures err { OnErr result (Extends out.old.items out.new.items) }
{
    match (presence, kind) {
        (Presence::Implicit, Kind::One(scalar)) => put_default(out, types, scalar),
        _ => Ok(out.extend_from_slice(b"null")?),
    }
}

/// Appends what stands for a field that is absent.
pub(crate) fn put_absent(
    out: &mut Vec<u8>,
    types: &IndexedTypes<'_>,
    field: &Field,
) -> Result<(), NoMemory>
    ensures ok { OnOk result (out.new.items ≡ out.old.items ++ absent_text types.now field.now field.now.shape) }
    ensures err { OnErr result (Extends out.old.items out.new.items) }
{
    match field.shape {
        Shape::Many => Ok(out.extend_from_slice(b"[]")?),
        Shape::Map(_) => Ok(out.extend_from_slice(b"{}")?),
        _ => put_single_default(out, types, field.presence, field.kind),
    }
}
