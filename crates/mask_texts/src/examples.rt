//! Worked examples, as laws.
ghost use Rattle.mask_texts.specs.MaskExamples.{ReadMasksHold, BadMasksHold, WrittenMasksHold, UnprintableMasksHold};

/// Texts of field masks, and texts that are none.
pub fn read_masks()
    ensures read { ReadMasksHold }
    ensures bad { BadMasksHold }
{}

/// Texts that are written, and paths that have none.
pub fn written_masks()
    ensures written { WrittenMasksHold }
    ensures unprintable { UnprintableMasksHold }
{}
