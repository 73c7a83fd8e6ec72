//! Which types are written as texts (the ProtoJSON guide).
ghost use Rattle.std.specs.Prelude.{◌↔◌, IsTrue};
ghost use Rattle.json_meanings.specs.TextTypes.{AreByFields, IsByFields};

use schema::{Known, Types};

/// True where a type is no timestamp, no duration and no field mask.
fn is_by_fields(known: Known) -> bool
    ensures { IsTrue result ↔ IsByFields known }
{
    match known {
        Known::Plain | Known::Wrapper => true,
        Known::Timestamp | Known::Duration | Known::FieldMask => false,
    }
}

/// True where no type is a timestamp, a duration or a field mask: each is written by its fields alone.
pub fn are_by_fields(types: &Types) -> bool
    ensures { IsTrue result ↔ AreByFields types.now }
{
    for message in types.messages.as_slice() {
        if !is_by_fields(message.known) {
            return false;
        }
    }
    true
}
