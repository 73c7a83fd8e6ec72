//! Reading the requests of a client's HTTP/1.1 connection in any pieces (RFC 9112).
//!
//! A `PartReader` gathers one part of the bytes at a time up to its end: a head, a chunk size line
//! or a trailer section. What such a part is and what requests the bytes are is defined in
//! `http1_requests`. Begin with `PartReader`.
#![tactic(auto)]

mod part;
mod part_reader;
mod place;
mod scan;
mod tests;

pub use part::Part;
pub use part_reader::{PartReader, PartState};
