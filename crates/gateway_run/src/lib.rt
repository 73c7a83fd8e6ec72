//! The commands of `grpcjson`, over the outside as traits.
//!
//! `bind SET METHOD TARGET` prints the gRPC path and the framed messages that an HTTP request means, whose body is
//! the input; `check SET` prints how many bindings a set has, and `routes SET` a line for each. What a request means
//! `transcoding` says. Begin with `run_offline`.
#![tactic(auto)]

mod bind_command;
mod command;
mod command_output;
mod descriptor_fault;
mod error_lines;
pub mod examples;
mod input_reading;
pub mod laws;
mod offline;
mod pieces;
mod set_loading;
mod status;

pub use gate_world::{
    Files, FixedFiles, FixedSink, FixedSource, NamedBytes, NoFields, Policy, Read, Sink, Source,
    WriteFailed, Wrote, write_all,
};
pub use offline::run_offline;
pub use status::Status;
