//! Why a text is refused.

ghost use Rattle.std.specs.Prelude.{◌≡◌};
ghost use Rattle.json_events.specs.declared.fault.JsonFault.TheVariants.{NoMemory as no_memory};

use base::NoMemory;

/// Why a text is refused. Offsets are bytes from the beginning of the text, from 0.
#[derive(Clone, Copy, Debug, PartialEq, Eq)]
pub enum JsonFault {
    /// No text begins with the bytes up to the one at this offset, and some text begins with those before
    /// it; at the end, the length of a text that is not whole.
    Syntax(u64),
    /// The opening bracket at this offset is the 209th that is open.
    TooDeep(u64),
    /// No memory was found.
    NoMemory,
}

impl From<NoMemory> for JsonFault {
    ghost from_gives = { λ _ f. f ≡ no_memory };

    fn from(_: NoMemory) -> JsonFault {
        JsonFault::NoMemory
    }
}
