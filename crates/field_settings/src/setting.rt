//! One field of a message that is to be set.

use base::List;
use schema::Slot;

/// A slot, and the path of field numbers at whose end it is set.
#[derive(Drop)]
pub struct Setting {
    /// The number of a field of the message, then of one of the message that this is, and so on.
    pub path: List<u32>,
    /// What the last field is to hold.
    pub slot: Slot,
}
