//! What JSON trees mean as protobuf values (the ProtoJSON guide), and the first fault of a list of tokens, as
//! definitions with the laws that tie them. A reader of tokens is proved against them; none stands here.
//!
//! Begin with `laws`. The texts of the well-known types Timestamp, Duration and FieldMask are a parameter, and
//! `schema_of` gives them their meaning; `are_by_fields` tells whether any type is one.
#![tactic(auto)]

pub mod examples;
mod fault;
pub mod laws;
mod text_types;

pub use fault::FieldKind;
pub use text_types::are_by_fields;
