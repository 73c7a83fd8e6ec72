//! The text of a google.protobuf.FieldMask (field_mask.proto, JSON Encoding of Field Masks; the ProtoJSON guide,
//! FieldMask).
ghost use Rattle.std.specs.Prelude.{◌≡◌, ◌↔◌, ◌++◌, ◌∷◌, Err, None, is_some, IsSomeAnd, OnOk, OnErr};
ghost use Rattle.std.specs.List.{list_all, flat_map};
ghost use Rattle.base.specs.Extends.{Extends};
ghost use Rattle.mask_texts.specs.MaskTexts.{is_printable_path, joined_paths, camel_path, mask_text};
ghost use Rattle.mask_texts.specs.MaskItems.{IsMaskReading, item_path, item_paths};

use crate::fault::{MaskFault, MaskShowFault};
use crate::paths::{is_printable_path, path_of, put_path, read_path};
use crate::pieces::{first_piece, whole};
use base::{List, NoMemory, cut_back};
use schema::Item;
use std::alloc::Global;

/// The paths that a text stands for, in order, as the items of a repeated string. A text is BadText exactly where it is
/// not empty and one of the pieces between its commas is empty or has a byte that is no letter, no digit, no `.` and
/// no `*`.
pub fn read_mask(alloc: Global, text: &[u8]) -> Result<List<Item>, MaskFault>
    ensures { IsMaskReading text.now result }
{
    let mut items = List::new(alloc);
    let mut left = whole(text);
    while let Some(rest) = left {
        let (piece, behind) = first_piece(rest);
        items.push(Item::Text(read_path(alloc, piece)?))?;
        left = behind;
    }
    Ok(items)
}

/// Whether each item is a path that can be written.
fn are_printable(paths: &[Item]) -> bool
    ensures { result ≡ list_all (λ item. is_printable_path (item_path item)) paths.now }
{
    paths.iter().all(|item| is_printable_path(path_of(item)))
}

/// Whether items have a text: each is a path that can be written. Takes no memory.
pub fn is_printable_mask(paths: &[Item]) -> bool
    ensures { result ≡ is_some (mask_text (item_paths paths.now)) }
{
    are_printable(paths)
}

/// Appends paths, each behind a comma. Where memory is not found, a part may stand.
fn put_others(out: &mut Vec<u8>, paths: &[Item]) -> Result<(), NoMemory>
    ensures ok { OnOk result (out.new.items
        ≡ out.old.items ++ flat_map (λ i. 44 ∷ camel_path (item_path i)) paths.now) }
    ensures err { OnErr result (Extends out.old.items out.new.items) }
{
    for item in paths {
        out.push(b',')?;
        put_path(out, path_of(item))?;
    }
    Ok(())
}

/// Appends paths with commas between them. Where memory is not found, a part may stand.
fn put_paths(out: &mut Vec<u8>, paths: &[Item]) -> Result<(), NoMemory>
    ensures ok { OnOk result (out.new.items ≡ out.old.items ++ joined_paths (item_paths paths.now)) }
    ensures err { OnErr result (Extends out.old.items out.new.items) }
{
    let Some((first, others)) = paths.split_first() else {
        return Ok(());
    };
    put_path(out, path_of(first))?;
    put_others(out, others)
}

/// Appends the text of paths, without quotes. They are Unprintable exactly where one is no string, is empty, has a byte
/// that is no lower-case letter, no digit, no `.`, no `*` and no `_`, or has a `_` that no lower-case letter follows.
/// After an error `out` is as before.
pub fn show_mask(paths: &[Item], out: &mut Vec<u8>) -> Result<(), MaskShowFault>
    ensures ok { OnOk result (IsSomeAnd (mask_text (item_paths paths.now))
        (λ text. out.new.items ≡ out.old.items ++ text)) }
    ensures unprintable { result ≡ Err MaskShowFault.Unprintable ↔ mask_text (item_paths paths.now) ≡ None }
    ensures err { OnErr result (out.new.items ≡ out.old.items) }
{
    if !are_printable(paths) {
        return Err(MaskShowFault::Unprintable);
    }
    let len = out.len();
    let done = put_paths(out, paths);
    cut_back(out, len, done)?;
    Ok(())
}
