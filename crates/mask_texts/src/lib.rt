//! The text of the well-known type google.protobuf.FieldMask (field_mask.proto, JSON Encoding of Field Masks; the
//! ProtoJSON guide, FieldMask): its paths, joined by commas, in which an upper-case letter stands for `_` and the
//! lower-case one.
//!
//! Texts stand here without the quotes around them. Begin with `read_mask`.
#![tactic(auto)]

mod bytes;
pub mod examples;
mod fault;
pub mod laws;
mod mask;
mod paths;
mod pieces;
#[cfg(test)]
mod tests;

pub use fault::{MaskFault, MaskShowFault};
pub use mask::{is_printable_mask, read_mask, show_mask};
