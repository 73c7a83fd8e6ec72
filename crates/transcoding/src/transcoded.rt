//! What a request means.

use base::{Blob, List, Text};

/// A gRPC request: the path of its method, which the API keeps, and its messages in order, which are its own.
#[derive(Debug, Drop)]
pub struct Transcoded<'a> {
    /// The gRPC path: a slash, the service's full name, a slash and the method's name.
    pub path: &'a Text,
    /// The canonical bytes of each message.
    pub messages: List<Blob>,
}
