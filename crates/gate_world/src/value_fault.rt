//! What is wrong with a value of a request.
ghost use Rattle.std.specs.Prelude.{◌≡◌};
ghost use Rattle.gate_world.specs.Refusals.{value_fault_text};

use std::fmt;

/// What is wrong with a value of a request: of a path variable, of a query parameter, or of the body.
#[derive(Debug, Clone, Copy, PartialEq, Eq)]
pub enum ValueFault {
    /// The text is no JSON.
    Syntax,
    /// The message has no field of that name.
    UnknownKey,
    /// A name came before in its object, or a field has two of its names.
    KeyTwice,
    /// Two fields of one oneof are set.
    OneofTwice,
    /// The value has not the JSON type that the field takes.
    WrongShape,
    /// The value is no number that the field takes.
    BadNumber,
    /// The number is past the range of the field's type.
    OutOfRange,
    /// The text names no value of the enum.
    BadEnum,
    /// The text is not of the form that the field's type has.
    BadText,
    /// A list or a map has a null.
    NullInside,
    /// Messages stand in one another too deep.
    TooDeep,
    /// A query parameter's path names no field.
    Unknown,
    /// A query parameter's path ends at no single scalar field.
    NotALeaf,
    /// The field is set by the path or by the body.
    Taken,
    /// A field that is not repeated comes twice.
    Twice,
    /// The value's bytes are not UTF-8.
    NotUtf8,
}

impl ValueFault {
    /// Its text in a refusal.
    pub fn text(self) -> &'static str
        ensures { result.now ≡ value_fault_text self }
    {
        match self {
            ValueFault::Syntax => "syntax",
            ValueFault::UnknownKey => "unknown key",
            ValueFault::KeyTwice => "key twice",
            ValueFault::OneofTwice => "oneof twice",
            ValueFault::WrongShape => "wrong shape",
            ValueFault::BadNumber => "bad number",
            ValueFault::OutOfRange => "out of range",
            ValueFault::BadEnum => "bad enum",
            ValueFault::BadText => "bad text",
            ValueFault::NullInside => "null inside",
            ValueFault::TooDeep => "too deep",
            ValueFault::Unknown => "unknown",
            ValueFault::NotALeaf => "not a leaf",
            ValueFault::Taken => "taken",
            ValueFault::Twice => "twice",
            ValueFault::NotUtf8 => "not UTF-8",
        }
    }
}

impl fmt::Display for ValueFault {
    ghost use Rattle.std.specs.Prelude.{Some};
    ghost use Rattle.gate_world.specs.Refusals.{value_fault_text};

    ghost output = { λ fault. Some (value_fault_text fault) };

    fn fmt<W: fmt::Write>(&self, f: &mut fmt::Formatter<W>) -> fmt::Result {
        f.write_str(self.text())
    }
}
