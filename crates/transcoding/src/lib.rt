//! Transcodes a request: which gRPC path and message an HTTP request means, or why it is refused
//! (google/api/http.proto; gRPC's PROTOCOL-HTTP2, requests).
//!
//! The causes are tried in one order, which `IsTranscoding` has. A query, a body, a streamed request, and variables
//! that end at bytes or at a well-known type are not transcoded yet. Begin with `transcode`.
#![tactic(auto)]

pub mod examples;
mod forms;
pub mod laws;
mod message;
mod refusal;
mod route;
mod transcoded;
mod transcoder;
mod values;

pub use refusal::RequestRefusal;
pub use transcoded::Transcoded;
pub use transcoder::{MAX_BODY_BYTES, transcode};
