//! Why a descriptor set is refused.

use base::Text;
use schema_link::LinkKind;
use wire_records::WireFault;

/// Why a descriptor set is refused. Out of memory is no such cause: it says nothing of the set.
#[derive(Debug, Drop)]
pub(crate) enum DescriptorFault {
    /// A record of the set, or of a listed message in it, is wrong.
    Wire(WireFault),
    /// A listed string is not UTF-8; the offset is that of its record in the set.
    NotUtf8(u64),
    /// The set has over 16,777,216 bytes.
    TooLong,
    /// The set is read, and is not linked for its first fault: its kind, the name of what has it, and a
    /// second name or nothing.
    Unlinked(LinkKind, Text, Text),
}
