//! The outside as traits: files, what comes in, what goes out, and which header fields pass. What
//! stands in memory for each of them is here too, and the table of causes for which a request is
//! refused.
//!
//! Contracts speak of the outside by optional contents and by counts of faults: a call answers
//! `Failed` only where its count rose. Begin with `Source` and `Sink`.
#![tactic(auto)]

mod body_length;
pub mod examples;
mod files;
mod head;
mod in_memory;
mod limits;
mod policy;
mod refusal;
mod sink;
mod source;
mod tests;
mod value_fault;
mod writing;

pub use body_length::BodyLength;
pub use files::Files;
pub use head::Head;
pub use in_memory::{FixedFiles, FixedSink, FixedSource, NamedBytes};
pub use limits::{
    BODY_BYTES, HEAD_BYTES, HEAD_FIELDS, Limits, MAX_CONNECTIONS, MAX_STREAMS, MESSAGE_BYTES,
    STANDARD_CONNECTIONS, TEXT_BYTES,
};
pub use policy::{NoFields, Policy};
pub use refusal::{Detail, Refusal};
pub use sink::{Sink, Wrote};
pub use source::{Read, Source};
pub use value_fault::ValueFault;
pub use writing::{WriteFailed, write_all};
