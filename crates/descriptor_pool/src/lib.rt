//! The declarations of a descriptor set by their full names (descriptor.proto): its messages and
//! enums, the methods that are bound to HTTP rules, and the messages that these reach.
//!
//! Begin with `has_types`, which counts before anything is named, and then `Names`, `declarations_of`
//! and `types_of`.
#![tactic(auto)]

mod declared_names;
mod declared_types;
mod field_types;
mod full_name;
mod json_names;
pub mod laws;
mod method_path;
mod name_index;
mod name_order;
mod queue;
mod set_methods;
mod type_count;
mod type_lists;
mod well_known;

pub use declared_names::{Declaration, Declared, declarations_of};
pub use declared_types::{DeclaredEnum, DeclaredMessage, SetTypes, types_of};
pub use field_types::{field_numbered, is_repeated};
pub use full_name::{FullName, Names};
pub use json_names::{json_names_of, json_of};
pub use method_path::MethodPath;
pub use name_index::index_of;
pub use queue::{Joined, reachable};
pub use set_methods::{BoundMethod, bound_methods, http_method, rule_methods, rules_of};
pub use type_count::has_types;
pub use well_known::{are_published, known_of};
