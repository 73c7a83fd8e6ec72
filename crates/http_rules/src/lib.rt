//! Path templates of HTTP rules (google/api/http.proto, path template syntax).
//!
//! `parse_template` reads a template, `put_template` prints one, `same_flat` tells whether two
//! templates are one route, `first_repeated_route` finds two bindings that are one, and `capture`
//! decodes what a variable takes of a path. Which paths a template fits is defined here (`Matches`)
//! and searched in `path_router`. Begin with `Template`.
#![tactic(auto)]

pub mod examples;
mod fault;
pub mod laws;
mod order;
mod parser;
mod parts;
mod printer;
mod routes;
mod state;
mod template;
mod tokens;
mod unescape;

pub use fault::TemplateFault;
pub use order::same_flat;
pub use parser::parse_template;
pub use printer::put_template;
pub use routes::first_repeated_route;
pub use template::{Binding, Body, Segment, Template, Variable};
pub use tokens::{is_lower_case_token, is_method_kind, is_short_token, is_token, is_token_byte};
pub use unescape::capture;
