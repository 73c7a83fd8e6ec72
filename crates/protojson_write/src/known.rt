//! Messages that are written as texts: timestamps, durations and field masks (the ProtoJSON guide).
ghost use Rattle.std.specs.Prelude.{◌≡◌, ◌++◌, [], OnOk, OnErr, unwrap_or};
ghost use Rattle.base.specs.Extends.{Extends};
ghost use Rattle.known_types.specs.KnownTexts.{known_text};
ghost use Rattle.json_meanings.specs.SpotTables.{known_of};
ghost use Rattle.protojson_write.specs.ScalarOutput.{quoted};

use base::NoMemory;
use field_index::IndexedTypes;
use known_types::{KnownFault, show_known};
use schema::{Known, TypeId, Value};

/// Which well-known type a message type is.
pub(crate) fn find_known(types: &IndexedTypes<'_>, id: TypeId) -> Known
    ensures { result ≡ known_of types.now id }
{
    match types.types().messages.get(id.0 as usize) {
        Some(message) => message.known,
        None => Known::Plain,
    }
}

/// Appends the text of a message that is this well-known type, or nothing where it has none.
fn put_text(out: &mut Vec<u8>, known: Known, value: &Value) -> Result<(), NoMemory>
    ensures ok { OnOk result (out.new.items ≡ out.old.items ++ unwrap_or (known_text known value.now) []) }
    ensures err { OnErr result (out.new.items ≡ out.old.items) }
{
    match show_known(known, value, out) {
        Ok(()) => Ok(()),
        Err(KnownFault::Unprintable) => Ok(()),
        Err(KnownFault::NoMemory) => Err(NoMemory),
    }
}

/// Appends the text of a message that is this well-known type, between quotation marks; nothing stands between them
/// where it has none.
pub(crate) fn put_known(out: &mut Vec<u8>, known: Known, value: &Value) -> Result<(), NoMemory>
    ensures ok { OnOk result (out.new.items ≡ out.old.items ++ quoted (unwrap_or (known_text known value.now) [])) }
    ensures err { OnErr result (Extends out.old.items out.new.items) }
{
    out.push(b'"')?;
    put_text(out, known, value)?;
    out.push(b'"')?;
    Ok(())
}
