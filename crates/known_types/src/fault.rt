//! Why a text is no value, and why a value has no text.
ghost use Rattle.std.specs.Prelude.{◌≡◌};
ghost use Rattle.known_types.specs.declared.fault.KnownFault.TheVariants.{NoMemory as no_memory_for_text};
ghost use Rattle.known_types.specs.ToldFaults.{mask_fault, time_fault};
ghost use Rattle.known_types.specs.declared.fault.TextFault.TheVariants.{NoMemory as no_memory};

use base::NoMemory;
use mask_texts::MaskShowFault;
use std::alloc::AllocError;
use time_texts::ShowFault;

/// Why a text is no value of its type.
#[derive(Clone, Copy, Debug, PartialEq, Eq)]
pub enum TextFault {
    /// The text is not of the form that the type has.
    BadText,
    /// The text is of that form, and what it says is out of the type's range. No text of bytes is.
    OutOfRange,
    /// Out of memory.
    NoMemory,
}

impl From<NoMemory> for TextFault {
    ghost from_gives = { λ _ f. f ≡ no_memory };

    fn from(_: NoMemory) -> TextFault {
        TextFault::NoMemory
    }
}

impl From<AllocError> for TextFault {
    ghost from_gives = { λ _ f. f ≡ no_memory };

    fn from(_: AllocError) -> TextFault {
        TextFault::NoMemory
    }
}

/// Why no text was appended.
#[derive(Clone, Copy, Debug, PartialEq, Eq)]
pub enum KnownFault {
    /// The value has no text.
    Unprintable,
    /// Out of memory.
    NoMemory,
}

impl From<NoMemory> for KnownFault {
    ghost from_gives = { λ _ f. f ≡ no_memory_for_text };

    fn from(_: NoMemory) -> KnownFault {
        KnownFault::NoMemory
    }
}

impl From<ShowFault> for KnownFault {
    ghost from_gives = { λ s f. f ≡ time_fault s };

    fn from(fault: ShowFault) -> KnownFault {
        match fault {
            ShowFault::Unprintable => KnownFault::Unprintable,
            ShowFault::NoMemory => KnownFault::NoMemory,
        }
    }
}

impl From<MaskShowFault> for KnownFault {
    ghost from_gives = { λ s f. f ≡ mask_fault s };

    fn from(fault: MaskShowFault) -> KnownFault {
        match fault {
            MaskShowFault::Unprintable => KnownFault::Unprintable,
            MaskShowFault::NoMemory => KnownFault::NoMemory,
        }
    }
}
