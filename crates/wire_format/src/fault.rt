//! What is wrong with bytes (the encoding guide, "Message Structure").

use wire_records::WireFault;

/// Why bytes are no value of a message type.
#[derive(Debug, Clone, Copy, PartialEq, Eq)]
pub enum DecodeFault {
    /// A record or a packed element is wrong.
    Wire(WireFault),
    /// A string is not UTF-8; the offset is that of its record in the whole input.
    NotUtf8(u64),
    /// Out of memory.
    NoMemory,
}
