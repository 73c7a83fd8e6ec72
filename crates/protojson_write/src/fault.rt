//! Why a value is not shown.
ghost use Rattle.std.specs.Prelude.{◌≡◌};
ghost use Rattle.protojson_write.specs.declared.fault.ShowFault.TheVariants.{NoMemory as no_memory};

use base::NoMemory;
use std::alloc::{AllocError, AllocFailed};

/// Why a value is not shown.
#[derive(Clone, Copy, Debug, PartialEq, Eq)]
pub enum ShowFault {
    /// It has no text: the type has no field of this number, or a timestamp, a duration or a field mask in it has none.
    Unprintable,
    /// Its text has more bytes than the limit.
    TooLong,
    /// Out of memory.
    NoMemory,
}

impl From<NoMemory> for ShowFault {
    ghost from_gives = { λ _ f. f ≡ no_memory };

    fn from(_: NoMemory) -> ShowFault {
        ShowFault::NoMemory
    }
}

impl From<AllocError> for ShowFault {
    ghost from_gives = { λ _ f. f ≡ no_memory };

    fn from(_: AllocError) -> ShowFault {
        ShowFault::NoMemory
    }
}

impl<T: Drop> From<AllocFailed<T>> for ShowFault {
    ghost from_gives = { λ _ f. f ≡ no_memory };

    fn from(_: AllocFailed<T>) -> ShowFault {
        ShowFault::NoMemory
    }
}
