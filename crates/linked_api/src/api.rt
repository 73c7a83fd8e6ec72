//! A linked descriptor set.

use base::{List, Text};
use http_rules::Binding;
use schema::{TypeId, Types};

/// A method that is bound.
#[derive(Debug, Drop)]
pub struct MethodInfo {
    /// The gRPC path: a slash, the service's full name, a slash and the method's name.
    pub path: Text,
    /// The type of the request's messages.
    pub input: TypeId,
    /// The type of the response's messages.
    pub output: TypeId,
    /// True where the client sends a stream of messages.
    pub client_streams: bool,
    /// True where the server sends a stream of messages.
    pub server_streams: bool,
}

/// What a descriptor set serves.
#[derive(Debug, Drop)]
pub struct Api {
    /// The types that the methods reach.
    pub types: Types,
    /// The methods that have an annotation, in the order of files, services and declarations.
    pub methods: List<MethodInfo>,
    /// The bindings of the methods, in order; `call` is an index into the methods.
    pub bindings: List<Binding>,
}
