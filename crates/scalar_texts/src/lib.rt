//! The texts of scalars (the ProtoJSON guide), as they stand in a path, a query or the key of a map in JSON.
//!
//! `read_scalar` gives the item that a text means, or what is wrong with it; `read_indexed` gives the same, and finds
//! the name of an enum in the logarithm of their number. Begin with `read_scalar`.
#![tactic(auto)]

pub mod examples;
mod fault;
pub mod laws;
mod meanings;
mod numbers;
mod reading;

pub use fault::ScalarFault;
pub use numbers::number_of;
pub use reading::{read_indexed, read_scalar};
