//! The answers of a router.

use crate::captures::Captures;

/// Which binding a request has.
#[derive(Debug, Drop)]
pub enum Routed {
    /// The index of the binding, and what its variables take of the path.
    Found(u32, Captures),
    /// Bindings fit the path, and none of them serves the method. The bit of each of their methods is set: bit i
    /// is for the i-th of all bindings' methods in the order of their bytes, which `Router::method` tells.
    WrongMethod(u64),
    /// No binding fits the path.
    NotFound,
}
