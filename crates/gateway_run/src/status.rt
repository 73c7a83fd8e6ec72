//! How a command ends.
ghost use Rattle.gateway_run.specs.declared.status.Stop.TheVariants.{NoMemory as no_memory, WriteFault as write_fault};
ghost use Rattle.std.specs.Prelude.{◌≡◌};
ghost use Rattle.gateway_run.specs.Outcomes.{StopsFor, number_of, stop_status, unlinked_stop, unread_stop};

use crate::descriptor_fault::DescriptorFault;
use base::NoMemory;
use descriptor_set::SetFault;
use gate_world::{Refusal, WriteFailed};
use schema_link::LinkFault;
use std::alloc::AllocError;
use transcoding::RequestRefusal;

/// How a command ended.
#[derive(Debug, Clone, Copy, PartialEq, Eq)]
pub enum Status {
    /// The output was written whole.
    Done,
    /// The words are no command.
    Usage,
    /// The descriptor set has a fault.
    Descriptors,
    /// A read failed.
    ReadFault,
    /// A write failed.
    WriteFault,
    /// Out of memory.
    NoMemory,
    /// The request is refused.
    Refused,
}

impl Status {
    /// The number that the program ends with.
    pub fn number(self) -> u8
        ensures { result ≡ number_of self }
    {
        match self {
            Status::Done => 0,
            Status::Usage => 2,
            Status::Descriptors => 3,
            Status::ReadFault => 4,
            Status::WriteFault => 5,
            Status::NoMemory => 7,
            Status::Refused => 9,
        }
    }
}

/// Why a command did not end with Done.
#[derive(Debug, Drop)]
pub(crate) enum Stop {
    /// The words are no command.
    Usage,
    /// The descriptor set has a fault.
    Descriptors(DescriptorFault),
    /// A read failed.
    ReadFault,
    /// A write failed.
    WriteFault,
    /// Out of memory.
    NoMemory,
    /// The request is refused.
    Refused(RequestRefusal),
}

impl Stop {
    /// The status.
    pub(crate) fn status(&self) -> Status
        ensures { result ≡ stop_status self.now }
    {
        match self {
            Stop::Usage => Status::Usage,
            Stop::Descriptors(_) => Status::Descriptors,
            Stop::ReadFault => Status::ReadFault,
            Stop::WriteFault => Status::WriteFault,
            Stop::NoMemory => Status::NoMemory,
            Stop::Refused(_) => Status::Refused,
        }
    }
}

impl From<SetFault> for Stop {
    ghost from_gives = { λ fault stop. stop ≡ unread_stop fault };

    fn from(fault: SetFault) -> Stop {
        match fault {
            SetFault::Wire(wire) => Stop::Descriptors(DescriptorFault::Wire(wire)),
            SetFault::NotUtf8(place) => Stop::Descriptors(DescriptorFault::NotUtf8(place)),
            SetFault::TooLong => Stop::Descriptors(DescriptorFault::TooLong),
            SetFault::NoMemory => Stop::NoMemory,
        }
    }
}

impl From<LinkFault> for Stop {
    ghost from_gives = { λ fault stop. stop ≡ unlinked_stop fault };

    fn from(fault: LinkFault) -> Stop {
        match fault {
            LinkFault::At(kind, name, second) => {
                Stop::Descriptors(DescriptorFault::Unlinked(kind, name, second))
            }
            LinkFault::NoMemory => Stop::NoMemory,
        }
    }
}

impl From<RequestRefusal> for Stop {
    ghost from_gives = { λ refusal stop. StopsFor refusal stop };

    fn from(refusal: RequestRefusal) -> Stop {
        match refusal {
            RequestRefusal::Listed(Refusal::NoMemory) => Stop::NoMemory,
            refusal => Stop::Refused(refusal),
        }
    }
}

impl From<NoMemory> for Stop {
    ghost from_gives = { λ _ stop. stop ≡ no_memory };

    fn from(_: NoMemory) -> Stop {
        Stop::NoMemory
    }
}

impl From<AllocError> for Stop {
    ghost from_gives = { λ _ stop. stop ≡ no_memory };

    fn from(_: AllocError) -> Stop {
        Stop::NoMemory
    }
}

impl From<WriteFailed> for Stop {
    ghost from_gives = { λ _ stop. stop ≡ write_fault };

    fn from(_: WriteFailed) -> Stop {
        Stop::WriteFault
    }
}
