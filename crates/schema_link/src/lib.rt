//! Links a descriptor set (descriptor.proto, google/api/http.proto) to types, methods and bindings.
//!
//! `set_faults` judges what a set declares, `linked_types` links its types, `linked_bindings` its rules; here they
//! are put together, and bindings are compared as routes. A set is linked exactly where it has no fault, and
//! else its first one is answered. Begin with `link`.
#![tactic(auto)]

pub mod laws;
mod linker;
mod methods;
mod routes;
mod rules;

pub use linked_api::{Api, MethodInfo};
pub use linker::link;
pub use set_faults::{LinkFault, LinkKind};
