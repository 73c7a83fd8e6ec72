//! The bytes that a name or a value stands for (URL Standard, section 5.1, step 3.4 and the
//! percent-decoding of step 3.5).
ghost use Rattle.std.specs.Prelude.{◌≡◌, ◌++◌, ◌∷◌, ◌<◌, length, IfOk, IfSome, MatchOption};
ghost use Rattle.form_urlencoded.specs.Form.{decode};
ghost use Rattle.percent_encoding.specs.Percent.{percent_decode};

use crate::pieces::split_once;
use base::{Blob, NoMemory};
use percent_encoding::percent_decode;
use std::alloc::Global;

/// What stands before the first `+` and behind it, where there is one.
#[tactic(auto, using(crate::proofs::Spaces::at_plus, crate::proofs::Spaces::no_plus, crate::proofs::Splits::shorter))]
fn split_plus(bytes: &[u8]) -> Option<(&[u8], &[u8])>
    ensures bytes { MatchOption result (decode bytes.now ≡ percent_decode bytes.now)
        (λ r. decode bytes.now ≡ percent_decode r.0.now ++ 32 ∷ decode r.1.now) }
    ensures shorter { IfSome result (λ r. length r.1.now < length bytes.now) }
{
    let (before, behind) = split_once(bytes, b'+');
    if before.len() == bytes.len() {
        return None;
    }
    Some((before, behind))
}

/// The bytes that a name or a value of a query stands for: each `+` is a space, and then each escape is its byte. A `%`
/// without two hexadecimal digits stays.
pub fn decoded(alloc: Global, encoded: &[u8]) -> Result<Blob, NoMemory>
    ensures { IfOk result (λ b. b ≡ decode encoded.now) }
{
    let mut out = Vec::with_capacity(alloc, encoded.len())?;
    let mut rest = encoded;
    while let Some((before, behind)) = split_plus(rest) {
        percent_decode(before).append_to(&mut out)?;
        out.push(b' ')?;
        rest = behind;
    }
    percent_decode(rest).append_to(&mut out)?;
    Ok(Blob::from_vec(out))
}
