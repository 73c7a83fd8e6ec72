//! Why a text is no field mask, and why paths have no text.
ghost use Rattle.std.specs.Prelude.{◌≡◌};
ghost use Rattle.mask_texts.specs.declared.fault.MaskFault.TheVariants.{NoMemory as no_memory};
ghost use Rattle.mask_texts.specs.declared.fault.MaskShowFault.TheVariants.{NoMemory as no_memory_to_show};

use base::NoMemory;

/// Why a text is no field mask.
#[derive(Clone, Copy, Debug, PartialEq, Eq)]
pub enum MaskFault {
    /// The text is not of the form that field masks have.
    BadText,
    /// Out of memory.
    NoMemory,
}

impl From<NoMemory> for MaskFault {
    ghost from_gives = { λ _ f. f ≡ no_memory };

    fn from(_: NoMemory) -> MaskFault {
        MaskFault::NoMemory
    }
}

/// Why no text was appended.
#[derive(Clone, Copy, Debug, PartialEq, Eq)]
pub enum MaskShowFault {
    /// The paths have no text.
    Unprintable,
    /// Out of memory.
    NoMemory,
}

impl From<NoMemory> for MaskShowFault {
    ghost from_gives = { λ _ f. f ≡ no_memory_to_show };

    fn from(_: NoMemory) -> MaskShowFault {
        MaskShowFault::NoMemory
    }
}
