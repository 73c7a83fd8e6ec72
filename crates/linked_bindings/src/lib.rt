//! The binding that is linked of a rule (google/api/http.proto, HttpRule), and what is wrong with the rule
//! beside the types of its method: the paths of its variables, its body, its response.
//!
//! Begin with `FieldNames` and `link_binding`.
#![tactic(auto)]

mod bodies;
pub mod examples;
mod field_names;
mod field_paths;
pub mod laws;
mod linker;
mod variable_paths;

pub use field_names::FieldNames;
pub use linker::link_binding;
