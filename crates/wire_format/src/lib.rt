//! The protobuf wire format (the encoding guide): records of bytes, and the canonical bytes of a
//! value.
//!
//! `Records` reads the records of one level, `decode` a value, and `encode` writes one. Begin with
//! `decode` and `encode`.
#![tactic(auto)]

mod checker;
mod decoder;
mod encoder;
pub mod examples;
mod fault;
mod gathered;
mod items;
pub mod laws;
mod numbers;
mod payloads;
mod scalars;
mod sizes;
mod slots;
mod within;

pub use decoder::decode;
pub use encoder::encode;
pub use fault::DecodeFault;
pub use sizes::encoded_len;
pub use wire_records::{Record, Records, WireFault, WireKind};
