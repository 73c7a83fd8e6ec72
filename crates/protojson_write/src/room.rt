//! The room that a text has.
ghost use Rattle.std.specs.Prelude.{◌≡◌, ◌++◌, ◌+◌, ◌≤◌, ◌∷◌, [], length, OnOk, OnErr, IfErr};
ghost use Rattle.protojson_write.specs.ShowAnswers.{IsStop};

use crate::fault::ShowFault;
use crate::within::Within;

/// Refuses what ends past the limit.
pub(crate) fn check(out: &Vec<u8>, within: Within<'_, '_>) -> Result<(), ShowFault>
    ensures ok { OnOk result (length out.now.items ≤ within.entry.start + within.entry.limit) }
    ensures stop { IfErr result (IsStop (within.entry.start + within.entry.limit) out.now.items) }
{
    if out.len().saturating_sub(within.start) as u64 > within.limit {
        return Err(ShowFault::TooLong);
    }
    Ok(())
}

/// Appends a comma, unless what is there already ends past the limit.
pub(crate) fn put_comma(out: &mut Vec<u8>, within: Within<'_, '_>) -> Result<(), ShowFault>
    ensures ok { OnOk result (out.new.items ≡ out.old.items ++ 44 ∷ []) }
    ensures err { OnErr result (out.new.items ≡ out.old.items) }
    ensures stop { IfErr result (IsStop (within.entry.start + within.entry.limit) out.old.items) }
{
    check(out, within)?;
    out.push(b',')?;
    Ok(())
}
