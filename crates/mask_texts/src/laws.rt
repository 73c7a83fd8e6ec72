//! Laws of the definitions that the calls' contracts cite. Each is the contract of an empty function.
ghost use Rattle.std.specs.Prelude.{◌≡◌, ◌↔◌, ℕ, List, Some, is_some, true};
ghost use Rattle.std.specs.List.{AllByRecursion, list_all};
ghost use Rattle.std.specs.Str.{IsUtf8};
ghost use Rattle.mask_texts.specs.MaskItems.{item_paths, paths_as_items};
ghost use Rattle.mask_texts.specs.MaskTexts.{MeansMask, mask_reading, mask_text, is_written_byte};
ghost use Rattle.mask_texts.specs.PrintablePaths.{IsPrintablePath};

/// What one computes of a text is what it means.
pub fn meanings_are_computed()
    ensures { (text : List ℕ) (paths : List (List ℕ)) → (mask_reading text ≡ Some paths) ↔ MeansMask text paths }
{}

/// A text means one list of paths at most.
pub fn one_meaning_of_a_text()
    ensures { (text : List ℕ) (a b : List (List ℕ)) → MeansMask text a → MeansMask text b → a ≡ b }
{}

/// What is written for paths is the one text that means them: it is read back as them, and paths that a text means are
/// written as that text.
pub fn written_masks_are_read_back()
    ensures meant { (text : List ℕ) (paths : List (List ℕ)) → (mask_text paths ≡ Some text) ↔ MeansMask text paths }
    ensures apart { (text : List ℕ) (a b : List (List ℕ))
        → mask_text a ≡ Some text → mask_text b ≡ Some text → a ≡ b }
{}

/// Paths have a text exactly where each can be written: it is not empty, it has lower-case letters, digits, `.`, `*` and
/// `_` alone, and behind each `_` stands a lower-case letter.
pub fn printable_paths_have_a_text()
    ensures { (paths : List (List ℕ)) → (is_some (mask_text paths) ≡ true) ↔ AllByRecursion IsPrintablePath paths }
{}

/// The paths of paths as items are these.
pub fn items_keep_their_paths()
    ensures { (paths : List (List ℕ)) → item_paths (paths_as_items paths) ≡ paths }
{}

/// A text that is written has letters, digits, `.`, `*` and `,` alone, so that it can stand between quotes as it is. The
/// paths that a text means are UTF-8.
pub fn masks_are_plain_text()
    ensures written { (text : List ℕ) (paths : List (List ℕ)) → mask_text paths ≡ Some text
        → list_all is_written_byte text ≡ true }
    ensures utf8 { (text : List ℕ) (paths : List (List ℕ)) → mask_text paths ≡ Some text → IsUtf8 text }
    ensures read { (text : List ℕ) (paths : List (List ℕ)) → MeansMask text paths → AllByRecursion IsUtf8 paths }
{}
