//! What is linked of a descriptor set (descriptor.proto, google/api/http.proto): its types, the methods that
//! are bound, and their bindings; and when that is linked (`IsLinked`), on which all that serves an API rests.
//!
//! Nothing here links; `schema_link` does, and re-exports both types. Begin with `Api`.
#![tactic(auto)]

mod api;
pub mod examples;
pub mod laws;
mod leaves;

pub use api::{Api, MethodInfo};
pub use leaves::{inner_message, is_leaf, is_singular};
