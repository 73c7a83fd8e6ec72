//! Why one token is refused, before its place is known.
ghost use Rattle.std.specs.Prelude.{◌≡◌};
ghost use Rattle.protojson_read.specs.declared.refusal.Refusal.TheVariants.{NoMemory as no_memory};

use base::NoMemory;
use json_meanings::FieldKind;

/// Why a token is refused.
#[derive(Clone, Copy, Debug)]
pub(crate) enum Refusal {
    /// The token has this fault.
    Fault(FieldKind),
    /// Out of memory.
    NoMemory,
}

impl From<NoMemory> for Refusal {
    ghost from_gives = { λ _ r. r ≡ no_memory };

    fn from(_: NoMemory) -> Refusal {
        Refusal::NoMemory
    }
}
