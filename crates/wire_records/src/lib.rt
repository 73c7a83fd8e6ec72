//! Records of the protobuf wire format (the encoding guide, "Message Structure"): varints, tags,
//! payloads and groups, without what a message type says of them.
//!
//! `Records` reads the records of one level. Begin with `Records` and `Record`.
#![tactic(auto)]

mod collected;
mod fault;
mod groups;
mod payload;
mod records;
mod varint;
mod wire_types;
mod written;

pub use collected::records_of;
pub use fault::{WireFault, WireKind};
pub use groups::{RawRecord, record_of};
pub use payload::{Payload, payload_of};
pub use records::{Record, Records};
pub use varint::{put_varint, varint_len};
pub use wire_types::{END_GROUP, I32, I64, LEN, START_GROUP, VARINT};
pub use written::{put_bytes, put_delimited, put_tag};
