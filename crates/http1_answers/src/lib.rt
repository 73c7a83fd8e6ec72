//! The answers that a gateway gives of its own accord over HTTP/1.1 (RFC 9112): to requests that are refused.
//!
//! An answer is a status line, field lines, an empty line and the JSON text of the error. Each is appended whole or not
//! at all. Begin with `put_refusal`.
#![tactic(auto)]

pub mod examples;
mod head_lines;
pub mod laws;
mod refusal_answer;
mod tests;

pub use refusal_answer::put_refusal;
