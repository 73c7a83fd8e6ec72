//! The pieces of bytes between separators (URL Standard, section 5.1, steps 1 and 3.2).
ghost use Rattle.std.specs.Prelude.{◌≡◌, ◌∷◌, ◌+◌, ◌<◌, length, IfSome};
ghost use Rattle.form_urlencoded.specs.Form.{split, split_once};
ghost use Rattle.query_parameters.specs.QueryParameters.{pieces_left};

/// The bytes before the first separator, or all of them, and those behind it, or none.
pub(crate) fn split_once(bytes: &[u8], separator: u8) -> (&[u8], &[u8])
    ensures before { result.0.now ≡ (split_once separator bytes.now).0 }
    ensures behind { result.1.now ≡ (split_once separator bytes.now).1 }
{
    match bytes.iter().position(|&b| b == separator) {
        Some(len) => (&bytes[..len], &bytes[len + 1..]),
        None => (bytes, &[]),
    }
}

/// The first of the pieces between separators, and what stands behind its separator; nothing where it is the last.
#[tactic(auto, using(crate::proofs::Splits::found, crate::proofs::Splits::alone, crate::proofs::Splits::shorter))]
pub fn first_piece(bytes: &[u8], separator: u8) -> (&[u8], Option<&[u8]>)
    ensures pieces { split separator bytes.now ≡ result.0.now ∷ pieces_left separator result.1 }
    ensures shorter { IfSome result.1 (λ rest. length result.0.now + length rest.now < length bytes.now) }
{
    let (before, behind) = split_once(bytes, separator);
    if before.len() == bytes.len() {
        return (before, None);
    }
    (before, Some(behind))
}
