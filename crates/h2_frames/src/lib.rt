//! HTTP/2 frames (RFC 9113, sections 4 and 6), read from bytes that come in any pieces and written
//! into room that is given.
//!
//! `FrameReader` cuts a stream of bytes into frames and judges each by what it shows itself and by
//! the frames before it: that the first is SETTINGS, the limit of a payload, field blocks that stay
//! together, frames of a stream and of the connection, no PUSH_PROMISE, and sizes and padding by
//! type. Which streams were opened, windows, and what payloads say are for others. The contracts
//! cite the frames and the first fault of a whole list of bytes, so that pieces do not matter.
//!
//! Begin with `FrameReader::new` and `FrameReader::feed`, or with `put_frame`.
#![tactic(auto)]

pub mod codes;
mod content;
mod context;
pub mod examples;
mod fault;
mod frame_head;
mod frame_rules;
pub mod laws;
mod length_rules;
mod parts;
mod reader;
mod stage;
mod stream_rules;
mod verdict;
mod writer;

pub use content::{bytes_before, content_range, is_padded, padding_size, waits_for_padding};
pub use fault::H2Fault;
pub use parts::{FrameFed, Part};
pub use reader::FrameReader;
pub use writer::put_frame;
