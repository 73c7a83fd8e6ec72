//! The parameters of a query (URL Standard, section 5.1, application/x-www-form-urlencoded parsing), with the numbers
//! that they have among the pieces between the `&`.
//!
//! `Parameters` gives them one by one, still encoded, as parts of the query; `decoded` gives the bytes that a name or a
//! value stands for. Bytes that are not UTF-8 are kept as they are: what reads them judges them. Begin with
//! `Parameters::of`.
#![tactic(auto)]

mod decoding;
pub mod examples;
pub mod laws;
mod parameters;
mod pieces;
#[cfg(test)]
mod tests;

pub use decoding::decoded;
pub use parameters::{Parameter, Parameters};
pub use pieces::first_piece;
