//! Which requests the bytes of a client's HTTP/1.1 connection are (RFC 9112): definitions on whole
//! lists of bytes, their laws, and worked examples. There is no code here: `http1_front` reads.
//!
//! Where a head ends and how large it may be, which head it is by httparse's published grammar, for
//! what it is refused, how far its body has come, and what the client's end means. Begin with
//! `specs/ClientRequests.antt`.
#![tactic(auto)]

pub mod examples;
pub mod laws;
