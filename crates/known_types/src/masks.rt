//! Field masks as messages (field_mask.proto).
ghost use Rattle.std.specs.Prelude.{◌≡◌, IfOk};
ghost use Rattle.std.specs.Option.{option_copied};
ghost use Rattle.known_types.specs.KnownTexts.{mask_items, mask_value};

use base::{List, NoMemory};
use schema::{Item, Slot, Value};
use std::alloc::Global;

/// The number of the field that holds the paths.
const PATHS: u32 = 1;

/// The message of a field mask, into which its paths move.
pub(crate) fn mask_value(alloc: Global, paths: List<Item>) -> Result<Value, NoMemory>
    ensures { IfOk result (λ value. value ≡ mask_value paths) }
{
    let mut value = Value::new(alloc);
    if !paths.is_empty() {
        value.set(PATHS, Slot::Many(paths))?;
    }
    Ok(value)
}

/// The paths of the message of a field mask, unless its field is no list.
pub(crate) fn mask_items(value: &Value) -> Option<&[Item]>
    ensures { option_copied result ≡ mask_items value.now }
{
    match value.get(PATHS) {
        None => Some(&[]),
        Some(Slot::Many(items)) => Some(items.as_slice()),
        Some(_) => None,
    }
}
