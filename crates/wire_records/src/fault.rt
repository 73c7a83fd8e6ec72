//! What is wrong with a record (the encoding guide, "Message Structure").
ghost use Rattle.std.specs.Prelude.{◌≡◌};
ghost use Rattle.wire_records.specs.WireKindNames.{wire_kind_name};

use std::error::Error;
use std::fmt;

/// What is wrong with a record.
#[derive(Debug, Clone, Copy, PartialEq, Eq)]
pub enum WireKind {
    /// The record, or the element of a packed list, passes the end of its message.
    Short,
    /// The tenth byte of a varint says that another follows.
    LongVarint,
    /// The tag is over 32 bits, its number is 0, or its wire type is 6 or 7.
    BadTag,
    /// A group end has no start of its number, or a group has no end.
    BadGroup,
    /// Messages and groups are nested over 100 levels.
    TooDeep,
}

impl WireKind {
    /// The kind's name, as it stands here.
    pub fn name(self) -> &'static str
        ensures { result.now ≡ wire_kind_name self }
    {
        match self {
            WireKind::Short => "Short",
            WireKind::LongVarint => "LongVarint",
            WireKind::BadTag => "BadTag",
            WireKind::BadGroup => "BadGroup",
            WireKind::TooDeep => "TooDeep",
        }
    }
}

impl fmt::Display for WireKind {
    ghost use Rattle.std.specs.Prelude.{Some};
    ghost use Rattle.wire_records.specs.WireKindNames.{wire_kind_name};

    ghost output = { λ kind. Some (wire_kind_name kind) };

    fn fmt<W: fmt::Write>(&self, f: &mut fmt::Formatter<W>) -> fmt::Result {
        f.write_str(self.name())
    }
}

/// What is wrong with a record, and where.
#[derive(Debug, Clone, Copy, PartialEq, Eq)]
pub struct WireFault {
    /// The offset of the record's first byte, or of a packed element's, in the whole input.
    pub place: u64,
    /// What is wrong.
    pub kind: WireKind,
}

impl fmt::Display for WireFault {
    ghost use Rattle.std.specs.Prelude.{Some};
    ghost use Rattle.wire_records.specs.WireKindNames.{wire_fault_text};

    ghost output = { λ fault. Some (wire_fault_text fault) };

    fn fmt<W: fmt::Write>(&self, f: &mut fmt::Formatter<W>) -> fmt::Result {
        write!(f, "Wire at {} {}", self.place, self.kind)
    }
}

impl Error for WireFault {}
