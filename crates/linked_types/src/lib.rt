//! The types that a descriptor set declares, linked by numbers (descriptor.proto): message types in the
//! order in which methods reach them, enum types in the order of the first field that names them.
//!
//! A set that is linkable (`AreLinkable`) is linked, and what is linked of it is sound and finds the names
//! that are declared: these are laws. Whether a set is so is not judged here. Begin with `linked_types`.
#![tactic(auto)]

pub mod examples;
pub mod laws;
mod linked_fields;
mod linked_indexes;
mod linked_kinds;
mod message_ids;
mod real_oneofs;
mod type_linker;

pub use message_ids::MessageIds;
pub use type_linker::linked_types;
