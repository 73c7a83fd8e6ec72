//! The texts of values that JSON writes in a form of their own (the ProtoJSON guide): bytes as base64 (RFC 4648,
//! sections 4 and 5), and messages that are timestamps, durations and field masks (timestamp.proto, duration.proto,
//! field_mask.proto, JSON Mapping).
//!
//! Texts stand here without the quotes around them. Begin with `read_bytes` and `read_known`.
#![tactic(auto)]

mod bytes;
pub mod examples;
mod fault;
pub mod laws;
mod masks;
mod moments;
mod reading;
mod showing;
mod symbols;
#[cfg(test)]
mod tests;

pub use bytes::{read_bytes, show_bytes};
pub use fault::{KnownFault, TextFault};
pub use reading::read_known;
pub use showing::{is_printable, show_known};
