//! Why a text is no time, and why a time has no text.
ghost use Rattle.std.specs.Prelude.{◌≡◌};
ghost use Rattle.time_texts.specs.declared.fault.ShowFault.TheVariants.{NoMemory as no_memory};

use base::NoMemory;

/// Why a text is no value of its type.
#[derive(Clone, Copy, Debug, PartialEq, Eq)]
pub enum TimeFault {
    /// The text is not of the form that the type has.
    BadText,
    /// The text is of that form, and what it says is out of the type's range.
    OutOfRange,
}

/// Why no text was appended.
#[derive(Clone, Copy, Debug, PartialEq, Eq)]
pub enum ShowFault {
    /// The value has no text.
    Unprintable,
    /// Out of memory.
    NoMemory,
}

impl From<NoMemory> for ShowFault {
    ghost from_gives = { λ _ f. f ≡ no_memory };

    fn from(_: NoMemory) -> ShowFault {
        ShowFault::NoMemory
    }
}
