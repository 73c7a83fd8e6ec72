//! ProtoJSON read as messages (the ProtoJSON guide).
//!
//! `Builder` takes one token after another, and gives the value or the first fault. Begin with
//! `Builder`.
#![tactic(auto)]

mod builder;
mod entries;
mod fault;
mod kinds;
pub mod laws;
mod partial_message;
mod refusal;
mod scalar_tokens;
mod spots;
mod tables;
#[cfg(test)]
mod tests;
mod turns;

pub use builder::Builder;
pub use fault::FieldFault;
pub use json_meanings::FieldKind;
pub use scalar_texts::{ScalarFault, read_scalar};
