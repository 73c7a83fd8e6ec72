//! gRPC's message framing: length-prefixed messages in a stream of bytes (gRPC over HTTP/2,
//! "Length-Prefixed-Message").
//!
//! `frame` puts a message on a stream, and a `Deframer` takes messages from a stream that comes in
//! any pieces. Compression is not read: a compressed message is a fault. What is put and read obeys
//! `laws`. Begin with `Deframer`.
#![tactic(auto)]

mod deframer;
pub mod examples;
mod fault;
mod framing;
pub mod laws;
mod prefix;
mod whole_stream;

pub use deframer::{Deframed, Deframer};
pub use fault::FrameFault;
pub use framing::frame;
pub use whole_stream::deframe_all;
