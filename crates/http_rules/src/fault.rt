//! Why a text is no template.

use base::NoMemory;
use std::alloc::{AllocError, AllocFailed};
use std::error::Error;
use std::fmt;

/// Why a text was not read as a template.
#[derive(Debug, Clone, Copy, PartialEq, Eq)]
pub enum TemplateFault {
    /// The text is no template: the offset of the first byte after which no template begins with
    /// the bytes so far, or the length of the text.
    Syntax(u64),
    /// The text is a template of over 64 segments or over 16 variables.
    TooMany,
    /// Out of memory.
    NoMemory,
}

impl From<NoMemory> for TemplateFault {
    ghost use Rattle.http_rules.specs.declared.fault.TemplateFault.TheVariants as faults;
    ghost use Rattle.std.specs.Prelude.{◌≡◌};

    ghost from_gives = { λ _ e. e ≡ faults.NoMemory };

    fn from(_: NoMemory) -> TemplateFault {
        TemplateFault::NoMemory
    }
}

impl fmt::Display for TemplateFault {
    ghost use Rattle.std.specs.Prelude.{Some};
    ghost use Rattle.http_rules.specs.TemplateFaultTexts.{template_fault_text};

    ghost output = { λ fault. Some (template_fault_text fault) };

    fn fmt<W: fmt::Write>(&self, f: &mut fmt::Formatter<W>) -> fmt::Result {
        match self {
            TemplateFault::Syntax(offset) => write!(f, "syntax fault at {offset}"),
            TemplateFault::TooMany => write!(f, "too many segments or variables"),
            TemplateFault::NoMemory => fmt::Display::fmt(&NoMemory, f),
        }
    }
}

impl Error for TemplateFault {}
