//! The texts of leaves (the ProtoJSON guide), as they stand in a path or a query: of scalars and enums, of timestamps,
//! durations and field masks, and of wrappers, which are written as their values.
//!
//! `read_leaf` gives the item that a text means as a value of a kind, or what is wrong with it.
#![tactic(auto)]

pub mod examples;
pub mod laws;
mod reading;
#[cfg(test)]
mod tests;
mod wrappers;

pub use reading::read_leaf;
pub use scalar_texts::ScalarFault;
