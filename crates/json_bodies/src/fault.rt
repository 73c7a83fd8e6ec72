//! What is wrong with a body.

ghost use Rattle.std.specs.Prelude.{◌≡◌};
ghost use Rattle.json_bodies.specs.declared.fault.BodyFault.TheVariants.{NoMemory as no_memory};

use base::NoMemory;
use json_meanings::FieldKind;

/// Why a body is refused. Places are that of the body's first byte and an offset in the body, added in 64 bits, or the
/// last number of 64 bits where the sum is past it.
#[derive(Debug, Clone, Copy, PartialEq, Eq)]
pub enum BodyFault {
    /// The token that begins at this place, from which on the JSON is no value of the type, and why.
    Field(u64, FieldKind),
    /// No text of JSON begins with the bytes up to the one at this place, and some text begins with those before it;
    /// where a body ends that is not whole, the place behind it.
    Syntax(u64),
    /// Out of memory. Whether the body has a fault is not told.
    NoMemory,
}

impl From<NoMemory> for BodyFault {
    ghost from_gives = { λ _ f. f ≡ no_memory };

    fn from(_: NoMemory) -> BodyFault {
        BodyFault::NoMemory
    }
}
