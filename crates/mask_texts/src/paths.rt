//! Paths, one by one, as a text has them and as a mask has them (field_mask.proto, JSON Encoding of Field Masks).
ghost use Rattle.std.specs.Prelude.{◌≡◌, ◌++◌, OnOk, OnErr};
ghost use Rattle.base.specs.Extends.{Extends};
ghost use Rattle.mask_texts.specs.MaskTexts.{is_printable_path, camel_path};
ghost use Rattle.mask_texts.specs.MaskItems.{IsPathReading, item_path};

use crate::bytes::{can_follow, is_camel_byte, put_camel_byte, put_snake};
use crate::fault::MaskFault;
use base::{NoMemory, Text};
use schema::Item;
use std::alloc::Global;

/// The path that a piece of a text stands for. A piece is BadText exactly where it is empty or has a byte that is no
/// letter, no digit, no `.` and no `*`.
pub(crate) fn read_path(alloc: Global, piece: &[u8]) -> Result<Text, MaskFault>
    ensures { IsPathReading piece.now result }
{
    if piece.is_empty() {
        return Err(MaskFault::BadText);
    }
    let mut path = Text::new(alloc);
    for byte in piece {
        if !is_camel_byte(*byte) {
            return Err(MaskFault::BadText);
        }
        put_snake(&mut path, *byte)?;
    }
    Ok(path)
}

/// The path that an item is; the empty one, which has no text, where it is no string.
pub(crate) fn path_of(item: &Item) -> &[u8]
    ensures { result.now ≡ item_path item.now }
{
    match item {
        Item::Text(path) => path.as_str().as_bytes(),
        _ => &[],
    }
}

/// Whether a path can be written.
pub(crate) fn is_printable_path(path: &[u8]) -> bool
    ensures { result ≡ is_printable_path path.now }
{
    let mut is_after = false;
    for byte in path {
        if !can_follow(is_after, *byte) {
            return false;
        }
        is_after = *byte == b'_';
    }
    !path.is_empty() && !is_after
}

/// Appends a path as a text has it. Where memory is not found, a part may stand.
pub(crate) fn put_path(out: &mut Vec<u8>, path: &[u8]) -> Result<(), NoMemory>
    ensures ok { OnOk result (out.new.items ≡ out.old.items ++ camel_path path.now) }
    ensures err { OnErr result (Extends out.old.items out.new.items) }
{
    let mut is_after = false;
    for byte in path {
        put_camel_byte(out, is_after, *byte)?;
        is_after = *byte == b'_';
    }
    Ok(())
}
