//! What the commands `check` and `routes` print of a linked set: how many bindings it has, and a line for each.
//!
//! Both texts name what was linked in the set's own words, and take their names from it alone. Begin with
//! `routes_text`.
#![tactic(auto)]

pub mod examples;
pub mod laws;
mod listing;

pub use listing::{check_text, routes_text};
