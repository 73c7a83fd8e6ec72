//! Why a request is not bound.
ghost use Rattle.std.specs.Prelude.{◌≡◌};
ghost use Rattle.field_binding.specs.ValueFaults.{fault_of_variable};

use base::NoMemory;
use scalar_texts::ScalarFault;

/// What is wrong with the value of a variable.
#[derive(Debug, Clone, Copy, PartialEq, Eq)]
pub enum ValueKind {
    /// The text is not of the form that the field's type has.
    BadText,
    /// The text is no number, or no integer.
    BadNumber,
    /// The number is past the range of the field's type.
    OutOfRange,
    /// The text names no value of the enum.
    BadEnum,
    /// The value's bytes are not UTF-8.
    NotUtf8,
    /// The field lies in more than 100 levels of messages. This is found before anything of the text.
    TooDeep,
}

/// Why a request is not bound. Nothing is kept of it.
#[derive(Debug, Clone, Copy, PartialEq, Eq)]
pub enum BindFault {
    /// The variable of this number, counted from 1, is the first at fault.
    Path(u32, ValueKind),
    /// Out of memory.
    NoMemory,
}

impl From<NoMemory> for BindFault {
    ghost use Rattle.field_binding.specs.declared.fault.BindFault.TheVariants as faults;
    ghost use Rattle.std.specs.Prelude.{◌≡◌};

    ghost from_gives = { λ _ fault. fault ≡ faults.NoMemory };

    fn from(_: NoMemory) -> BindFault {
        BindFault::NoMemory
    }
}

/// Why the value of one variable is not read.
#[derive(Debug, Clone, Copy, PartialEq, Eq)]
pub(crate) enum ValueFault {
    /// This is wrong with it.
    Wrong(ValueKind),
    /// Out of memory.
    NoMemory,
}

impl ValueFault {
    /// The fault of the request, where the variable has this number.
    pub(crate) fn of_variable(self, number: u32) -> BindFault
        ensures { result ≡ fault_of_variable self number }
    {
        match self {
            ValueFault::Wrong(kind) => BindFault::Path(number, kind),
            ValueFault::NoMemory => BindFault::NoMemory,
        }
    }
}

impl From<NoMemory> for ValueFault {
    ghost use Rattle.field_binding.specs.declared.fault.ValueFault.TheVariants as faults;
    ghost use Rattle.std.specs.Prelude.{◌≡◌};

    ghost from_gives = { λ _ fault. fault ≡ faults.NoMemory };

    fn from(_: NoMemory) -> ValueFault {
        ValueFault::NoMemory
    }
}

impl From<ScalarFault> for ValueFault {
    ghost use Rattle.field_binding.specs.ValueFaults.{value_fault};
    ghost use Rattle.std.specs.Prelude.{◌≡◌};

    ghost from_gives = { λ scalar fault. fault ≡ value_fault scalar };

    fn from(fault: ScalarFault) -> ValueFault {
        match fault {
            ScalarFault::BadText => ValueFault::Wrong(ValueKind::BadText),
            ScalarFault::BadNumber => ValueFault::Wrong(ValueKind::BadNumber),
            ScalarFault::OutOfRange => ValueFault::Wrong(ValueKind::OutOfRange),
            ScalarFault::BadEnum => ValueFault::Wrong(ValueKind::BadEnum),
            ScalarFault::NotUtf8 => ValueFault::Wrong(ValueKind::NotUtf8),
            ScalarFault::NoMemory => ValueFault::NoMemory,
        }
    }
}
