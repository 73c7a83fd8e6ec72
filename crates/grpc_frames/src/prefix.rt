//! The flag and the length before a message.
ghost use Rattle.std.specs.Prelude.{◌≡◌};
ghost use Rattle.grpc_frames.specs.Deframer.{fault_at, IsNoCut};
ghost use Rattle.grpc_frames.specs.LengthPrefixed.{prefix_of};
ghost use Rattle.grpc_frames.specs.DeframerSteps.{prefix_seen, error_of};

use crate::fault::FrameFault;

/// The number of bytes of a flag and a length.
pub(crate) const PREFIX_BYTES: usize = 5;

/// What is wrong with a flag or a length.
#[derive(Clone, Copy)]
pub(crate) enum PrefixFault {
    /// The flag is 1.
    Compressed,
    /// The flag is over 1.
    BadFlag,
    /// The length is over the limit.
    TooLong(u32),
}

/// What the bytes from a flag on say.
#[derive(Clone, Copy)]
pub(crate) enum PrefixSeen {
    /// Nothing is wrong so far, and the length is not whole.
    Open,
    /// What is wrong.
    Faulty(PrefixFault),
    /// The length of the message.
    Sized(u32),
}

impl PrefixFault {
    /// The fault of a message whose flag stands at the place.
    pub(crate) fn at(self, place: u64) -> FrameFault
        ensures fault { result ≡ fault_at place (error_of self) }
        ensures open { IsNoCut result }
    {
        match self {
            PrefixFault::Compressed => FrameFault::Compressed(place),
            PrefixFault::BadFlag => FrameFault::BadFlag(place),
            PrefixFault::TooLong(size) => FrameFault::TooLong(place, size),
        }
    }
}

/// What the bytes from a flag on say, under a limit on the length.
pub(crate) fn read_prefix(limit: u32, bytes: &[u8]) -> PrefixSeen
    ensures { prefix_seen result ≡ prefix_of limit bytes.now }
{
    match bytes {
        [] => PrefixSeen::Open,
        [0, a, b, c, d, ..] => {
            let size = u32::from_be_bytes([*a, *b, *c, *d]);
            if limit < size {
                PrefixSeen::Faulty(PrefixFault::TooLong(size))
            } else {
                PrefixSeen::Sized(size)
            }
        }
        [0, ..] => PrefixSeen::Open,
        [1, ..] => PrefixSeen::Faulty(PrefixFault::Compressed),
        _ => PrefixSeen::Faulty(PrefixFault::BadFlag),
    }
}
