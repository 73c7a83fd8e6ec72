//! The text of a value, appended within a limit.
ghost use Rattle.std.specs.Prelude.{◌≡◌, true, length, Some, None, OnOk, OnErr, IfErr};
ghost use Rattle.std.specs.Option.{is_some};
ghost use Rattle.base.specs.Extends.{Extends};
ghost use Rattle.protojson_write.specs.JsonOutput.{text_of};
ghost use Rattle.protojson_write.specs.ShowAnswers.{IsRefusal, IsShown};
ghost use Rattle.schema.specs.Validity.{IsValid};

use crate::fault::ShowFault;
use crate::printable::has_text;
use crate::room::check;
use crate::within::Within;
use crate::writer::{put_message, put_part};
use field_index::IndexedTypes;
use schema::{MAX_LEVELS, TypeId, Value};

/// Appends a message that has a text. A part may stand where it is refused.
fn put_whole(
    out: &mut Vec<u8>,
    within: Within<'_, '_>,
    id: TypeId,
    value: &Value,
) -> Result<(), ShowFault>
    requires printable { is_some (text_of within.types.now id None value.now) ≡ true }
    requires level { within.level ≡ 100 }
    requires start { within.start ≡ length out.old.items }
    ensures ok { OnOk result
        (IsShown (text_of within.entry.types.now id None value.now)
        within.entry.limit out.old.items out.new.items) }
    ensures refusal { IfErr result (IsRefusal (text_of within.entry.types.now id None value.now) within.entry.limit) }
    ensures err { OnErr result (Extends out.old.items out.new.items) }
{
    put_message(out, within, id, value)?;
    check(out, within)
}

/// Appends one field of a message that has a text, with its slot or without. A part may stand where it is refused.
fn put_field(
    out: &mut Vec<u8>,
    within: Within<'_, '_>,
    id: TypeId,
    number: u32,
    value: &Value,
) -> Result<(), ShowFault>
    requires printable { is_some (text_of within.types.now id (Some number) value.now) ≡ true }
    requires level { within.level ≡ 100 }
    requires start { within.start ≡ length out.old.items }
    ensures ok { OnOk result
        (IsShown (text_of within.entry.types.now id (Some number) value.now)
        within.entry.limit out.old.items out.new.items) }
    ensures refusal { IfErr result
        (IsRefusal (text_of within.entry.types.now id (Some number) value.now) within.entry.limit) }
    ensures err { OnErr result (Extends out.old.items out.new.items) }
{
    let inner = Within {
        level: within.level - 1,
        ..within
    };
    let field = within.types.fields(id).by_number(number);
    put_part(out, inner, field, value.get(number))?;
    check(out, within)
}

/// Appends the text of a valid value of the type, or of its one field of the number `part`. Unprintable where there is
/// none, whatever the limit: the type has no such field, or a timestamp, a duration or a field mask in it has no text.
/// TooLong where the text alone has over `limit` bytes. With every refusal, `out` is as before.
pub fn show(
    types: &IndexedTypes<'_>,
    id: TypeId,
    part: Option<u32>,
    value: &Value,
    limit: u64,
    out: &mut Vec<u8>,
) -> Result<(), ShowFault>
    requires valid { IsValid types.now id value.now }
    ensures ok { OnOk result (IsShown (text_of types.now id part value.now) limit out.old.items out.new.items) }
    ensures refusal { IfErr result (IsRefusal (text_of types.now id part value.now) limit) }
    ensures err { OnErr result (out.new.items ≡ out.old.items) }
{
    if !has_text(types, id, part, value) {
        return Err(ShowFault::Unprintable);
    }
    let start = out.len();
    let within = Within {
        types,
        level: MAX_LEVELS,
        start,
        limit,
    };
    let done = match part {
        None => put_whole(out, within, id, value),
        Some(number) => put_field(out, within, id, number, value),
    };
    if done.is_err() {
        out.truncate(start);
    }
    done
}
