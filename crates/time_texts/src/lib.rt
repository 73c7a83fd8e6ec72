//! The texts of the well-known types google.protobuf.Duration and google.protobuf.Timestamp (the ProtoJSON guide;
//! RFC 3339, section 5.6).
//!
//! Texts stand here without the quotes around them. Begin with `read_duration` and `read_timestamp`.
#![tactic(auto)]

mod civil;
mod digits;
mod duration;
pub mod examples;
mod fault;
mod fraction;
pub mod laws;
mod moment;
#[cfg(test)]
mod tests;
mod timestamp;

pub use civil::{Civil, Zone};
pub use duration::{MAX_DURATION_SECONDS, is_printable_duration, read_duration, show_duration};
pub use fault::{ShowFault, TimeFault};
pub use moment::Moment;
pub use timestamp::{Utc, is_printable_timestamp, read_timestamp, show_timestamp};
