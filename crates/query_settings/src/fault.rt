//! Why a query sets nothing.
ghost use Rattle.std.specs.Prelude.{◌≡◌};
ghost use Rattle.query_settings.specs.QuerySteps.{fault_of_scalar};

use base::NoMemory;
use scalar_texts::ScalarFault;

/// What is wrong with a parameter. Where several hold, the first counts.
#[derive(Debug, Clone, Copy, PartialEq, Eq)]
pub enum ParameterKind {
    /// The name names no field of the message, or passes through one that is no singular field of a plain message.
    /// Where the body is the whole message, every name does.
    Unknown,
    /// A variable of the path or the body takes the field, or one in which it lies.
    Taken,
    /// The field is a plain message, a list of plain messages or a map.
    NotALeaf,
    /// The field is singular and was set by a parameter before, or another member of a oneof on its way was.
    Twice,
    /// The message would have over 100 levels.
    TooDeep,
    /// The value is not of the form that the field's type has.
    BadText,
    /// The value is no number, or no integer.
    BadNumber,
    /// The value is past the range of the field's type.
    OutOfRange,
    /// The value names no value of the enum.
    BadEnum,
    /// The value's bytes are not UTF-8.
    NotUtf8,
}

/// Why a query sets nothing.
#[derive(Debug, Clone, Copy, PartialEq, Eq)]
pub enum QueryFault {
    /// The parameter of this number is the first at fault: its piece's number among the pieces between the `&`, counted
    /// from 1. Empty pieces count.
    Parameter(u32, ParameterKind),
    /// Out of memory.
    NoMemory,
}

impl From<NoMemory> for QueryFault {
    ghost use Rattle.query_settings.specs.declared.fault.QueryFault.TheVariants as faults;
    ghost use Rattle.std.specs.Prelude.{◌≡◌};

    ghost from_gives = { λ _ fault. fault ≡ faults.NoMemory };

    fn from(_: NoMemory) -> QueryFault {
        QueryFault::NoMemory
    }
}

/// Why one parameter sets nothing.
#[derive(Debug, Clone, Copy, PartialEq, Eq)]
pub(crate) enum ParameterFault {
    /// This is wrong with it.
    Wrong(ParameterKind),
    /// Out of memory.
    NoMemory,
}

impl From<NoMemory> for ParameterFault {
    ghost use Rattle.query_settings.specs.declared.fault.ParameterFault.TheVariants as faults;
    ghost use Rattle.std.specs.Prelude.{◌≡◌};

    ghost from_gives = { λ _ fault. fault ≡ faults.NoMemory };

    fn from(_: NoMemory) -> ParameterFault {
        ParameterFault::NoMemory
    }
}

/// The fault of a parameter whose value has this fault.
pub(crate) fn fault_of_scalar(fault: ScalarFault) -> ParameterFault
    ensures { result ≡ fault_of_scalar fault }
{
    match fault {
        ScalarFault::BadText => ParameterFault::Wrong(ParameterKind::BadText),
        ScalarFault::BadNumber => ParameterFault::Wrong(ParameterKind::BadNumber),
        ScalarFault::OutOfRange => ParameterFault::Wrong(ParameterKind::OutOfRange),
        ScalarFault::BadEnum => ParameterFault::Wrong(ParameterKind::BadEnum),
        ScalarFault::NotUtf8 => ParameterFault::Wrong(ParameterKind::NotUtf8),
        ScalarFault::NoMemory => ParameterFault::NoMemory,
    }
}
