//! What the parameters of a request's query set of its message (google/api/http.proto, HttpRule; URL Standard, section
//! 5.1), as settings along paths of field numbers, or the first parameter at fault.
//!
//! The parameters are judged in their order. A name is field names joined by dots, each by its JSON name or by its name
//! in the .proto file. Begin with `read_query`.
#![tactic(auto)]

mod fault;
mod gathered;
mod judging;
pub mod laws;
mod reading;
mod targets;

pub use fault::{ParameterKind, QueryFault};
pub use field_settings::Setting;
pub use reading::read_query;
pub use targets::{Step, Target};
