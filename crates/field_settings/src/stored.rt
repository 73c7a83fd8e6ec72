//! What a field holds when a slot is set in it.
ghost use Rattle.std.specs.Prelude.{◌≡◌, IfOk};
ghost use Rattle.schema.specs.declared.value.Slot.{out-Slot};
ghost use Rattle.field_settings.specs.AppliedSettings.{is_absence as is_absence_slot, stored as stored_slot};

use base::NoMemory;
use schema::{Field, Presence, Slot, is_default};
use std::alloc::Global;

/// True where the slot says no more than absence.
fn is_absence(presence: Presence, slot: &Slot) -> bool
    ensures { result ≡ is_absence_slot presence (out-Slot slot.now) }
{
    match slot {
        Slot::One(item) => match presence {
            Presence::Implicit => is_default(item),
            Presence::Explicit => false,
        },
        Slot::Many(items) => items.is_empty(),
        Slot::Pairs(pairs) => pairs.len() == 0,
    }
}

/// A copy of the slot, or nothing where that says no more than absence.
pub(crate) fn stored(alloc: Global, field: &Field, slot: &Slot) -> Result<Option<Slot>, NoMemory>
    ensures { IfOk result (λ held. held ≡ stored_slot field.now slot.now) }
{
    if is_absence(field.presence, slot) {
        return Ok(None);
    }
    Ok(Some(slot.copy(alloc)?))
}
