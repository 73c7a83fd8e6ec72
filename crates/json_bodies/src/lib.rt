//! Whole bodies of JSON read as messages (RFC 8259, section 2; the ProtoJSON guide).
//!
//! `read_body` reads the bytes of a whole text, token by token, as a message of a type or as one field of it, and gives
//! the value, or the first fault with its place. `read_front` reads the first bytes of a longer text, for the first
//! fault that they show before they end. Begin with `read_body`.
#![tactic(auto)]

pub mod examples;
mod fault;
mod front;
pub mod laws;
#[cfg(test)]
mod tests;
mod whole_message;

pub use fault::BodyFault;
pub use front::read_front;
pub use json_meanings::FieldKind;
pub use whole_message::read_body;
