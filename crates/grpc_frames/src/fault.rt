//! What is wrong with a stream of length-prefixed messages.
ghost use Rattle.std.specs.Prelude.{◌≡◌};
ghost use Rattle.grpc_frames.specs.declared.fault.FrameFault.TheVariants.{NoMemory as no_memory};

use base::NoMemory;
use std::error::Error;
use std::fmt;

/// What is wrong with a stream of messages. A place is that of the message's flag, in bytes from
/// the start of the stream; it stands at the last number of 64 bits once it would pass it.
#[derive(Debug, Clone, Copy, PartialEq, Eq)]
pub enum FrameFault {
    /// The flag is 1: the message is compressed.
    Compressed(u64),
    /// The flag is over 1.
    BadFlag(u64),
    /// The length, which is told, is over the limit.
    TooLong(u64, u32),
    /// The stream ended inside the message. Only `Deframer::end` and `deframe_all` answer it.
    Cut(u64),
    /// Memory was asked for and not found.
    NoMemory,
}

impl From<NoMemory> for FrameFault {
    ghost from_gives = { λ _ f. f ≡ no_memory };

    fn from(_: NoMemory) -> FrameFault {
        FrameFault::NoMemory
    }
}

impl fmt::Display for FrameFault {
    ghost use Rattle.std.specs.Prelude.{Some};
    ghost use Rattle.grpc_frames.specs.FrameFaultTexts.{frame_fault_text};

    ghost output = { λ fault. Some (frame_fault_text fault) };

    fn fmt<W: fmt::Write>(&self, f: &mut fmt::Formatter<W>) -> fmt::Result {
        match self {
            FrameFault::Compressed(place) => write!(f, "compressed message at byte {place}"),
            FrameFault::BadFlag(place) => write!(f, "bad message flag at byte {place}"),
            FrameFault::TooLong(place, size) => {
                write!(f, "message of {size} bytes too long at byte {place}")
            }
            FrameFault::Cut(place) => write!(f, "message cut at byte {place}"),
            FrameFault::NoMemory => fmt::Display::fmt(&NoMemory, f),
        }
    }
}

impl Error for FrameFault {}
