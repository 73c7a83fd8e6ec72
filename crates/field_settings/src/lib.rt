//! Setting fields of a message along paths of field numbers, as the variables of a path and the parameters of a
//! query do over what a body gave (google/api/http.proto): messages on the way are made, the other members of
//! each oneof on the way are cleared, and what stood at the end is replaced.
//!
//! Nothing here reads text: a setting has its slot. Begin with `Setting` and `apply`.
#![tactic(auto)]

mod applying;
pub mod examples;
mod fields;
pub mod laws;
mod paths;
mod setting;
mod stored;
#[cfg(test)]
mod tests;

pub use applying::apply;
pub use setting::Setting;
