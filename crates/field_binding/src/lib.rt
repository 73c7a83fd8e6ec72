//! Binds a request to the message of its method (google/api/http.proto, HttpRule): what the variables of a template
//! take of the path becomes settings of fields, and settings become a message.
//!
//! `bind_path` reads the path's values, and `bind_body` makes the message. A query, a body, and variables that end at
//! bytes or at a well-known type are not read yet: `binds_scalars` tells the bindings that can be. Begin with
//! `bind_path`.
#![tactic(auto)]

mod calls;
pub mod examples;
mod fault;
pub mod laws;
mod message;
mod overlay;
mod path_values;
mod targets;

pub use fault::{BindFault, ValueKind};
pub use field_settings::Setting;
pub use message::bind_body;
pub use overlay::Overlay;
pub use path_values::bind_path;
pub use targets::binds_scalars;
