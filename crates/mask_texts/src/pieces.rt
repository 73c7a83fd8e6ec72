//! The pieces of a text between its commas (field_mask.proto, JSON Encoding of Field Masks).
ghost use Rattle.std.specs.Prelude.{◌≡◌, ◌∷◌};
ghost use Rattle.std.specs.List.{slice_split};
ghost use Rattle.mask_texts.specs.MaskTexts.{is_comma, pieces_of};
ghost use Rattle.mask_texts.specs.MaskItems.{pieces_left};

/// What is left of a text before its first piece is taken; nothing of the empty text, which has no piece.
pub(crate) fn whole(text: &[u8]) -> Option<&[u8]>
    ensures { pieces_left result ≡ pieces_of text.now }
{
    if text.is_empty() { None } else { Some(text) }
}

/// The first of the pieces between commas, and what stands behind its comma; nothing where it is the last.
pub(crate) fn first_piece(text: &[u8]) -> (&[u8], Option<&[u8]>)
    ensures { slice_split is_comma text.now ≡ result.0.now ∷ pieces_left result.1 }
{
    match text.iter().position(|&b| b == b',') {
        Some(len) => (&text[..len], Some(&text[len + 1..])),
        None => (text, None),
    }
}
