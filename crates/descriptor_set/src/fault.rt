//! Why a descriptor set is not read.
ghost use Rattle.std.specs.Prelude.{◌≡◌};
ghost use Rattle.descriptor_set.specs.declared.fault.SetFault.TheVariants.{NoMemory as no_memory};

use base::NoMemory;
use std::error::Error;
use std::fmt;
use wire_records::WireFault;

/// Why a descriptor set is not read.
#[derive(Debug, Clone, Copy, PartialEq, Eq)]
pub enum SetFault {
    /// A record of the set, or of a listed message in it, is wrong.
    Wire(WireFault),
    /// A listed string is not UTF-8; the offset is that of its record in the set.
    NotUtf8(u64),
    /// The set has over 16,777,216 bytes. This is found first.
    TooLong,
    /// Out of memory.
    NoMemory,
}

impl From<NoMemory> for SetFault {
    ghost from_gives = { λ _ fault. fault ≡ no_memory };

    fn from(_: NoMemory) -> SetFault {
        SetFault::NoMemory
    }
}

impl fmt::Display for SetFault {
    ghost use Rattle.std.specs.Prelude.{Some};
    ghost use Rattle.descriptor_set.specs.SetFaultTexts.{set_fault_text};

    ghost output = { λ fault. Some (set_fault_text fault) };

    fn fmt<W: fmt::Write>(&self, f: &mut fmt::Formatter<W>) -> fmt::Result {
        match self {
            SetFault::Wire(fault) => write!(f, "{fault}"),
            SetFault::NotUtf8(place) => write!(f, "NotUtf8 at {place}"),
            SetFault::TooLong => write!(f, "TooLong"),
            SetFault::NoMemory => write!(f, "{}", NoMemory),
        }
    }
}

impl Error for SetFault {}
