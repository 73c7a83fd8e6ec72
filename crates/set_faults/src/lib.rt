//! The first fault of a descriptor set (descriptor.proto, google/api/http.proto, the ProtoJSON guide).
//!
//! A set is judged whole: its size, its names, its methods with their path templates, and the messages
//! that the methods reach. Nothing here links; what no fault is found in is linked by others. Begin with
//! `check_size` and `check_names`, before anything is looked up by name, and go on with `check_set`.
#![tactic(auto)]

mod counts;
mod enum_faults;
mod fault;
mod field_faults;
mod judged_types;
mod judging;
mod key_faults;
pub mod laws;
mod message_faults;
mod method_faults;
mod names;
mod templates;
mod told_name;

pub use counts::check_size;
pub use fault::{LinkFault, LinkKind, fault_at, refuse_if};
pub use judging::check_set;
pub use names::check_names;
