//! Chooses the binding of a request by its method and path (AIP-127, google/api/http.proto).
//!
//! `Router::build` takes the bindings of a set once, and `Router::route` finds the one that is served, with the span
//! of the path that each of its variables takes, or tells which methods the path has. `fit` matches one template.
//! What a variable takes is decoded by `http_rules::capture`, and `target_path` cuts
//! the path out of a request's target. Begin with `Router`.
#![tactic(auto)]

mod captures;
pub mod examples;
mod fitting;
pub mod laws;
mod methods;
mod order;
mod pieces;
mod routed;
mod router;
mod search;
mod target;
#[cfg(test)]
mod tests;

pub use captures::{Captures, Span};
pub use fitting::fit;
pub use methods::method_count;
pub use routed::Routed;
pub use router::Router;
pub use target::target_path;
