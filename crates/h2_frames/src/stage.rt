//! How far a reader has read a frame.

use crate::fault::H2Fault;

/// Head, then payload; a frame that breaks a rule is the last.
#[derive(Clone, Copy)]
pub(crate) enum Stage {
    /// Less than the nine bytes of a head have come.
    Head,
    /// The head is whole, and so many bytes of the payload are to come.
    Payload(usize),
    /// The frame breaks a rule, which is answered from then on.
    Refused(H2Fault),
}
