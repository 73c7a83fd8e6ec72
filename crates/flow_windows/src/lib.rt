//! The flow-control windows of one end of an HTTP/2 connection (RFC 9113, section 5.2): what may
//! still be sent (`Window`, sections 6.9.1 and 6.9.2) and what the peer may still send
//! (`Receipt`, section 6.9.1), each for one stream or for the connection.
//!
//! No frame is read or written here, and no call takes memory. Begin with `Window::new` for a
//! window to send and `Receipt::new` for one to receive.
#![tactic(auto)]

pub mod laws;
mod receipt;
mod sizes;
#[cfg(test)]
mod tests;
mod window;

pub use receipt::{Exceeded, Receipt};
pub use sizes::{DEFAULT_WINDOW_SIZE, MAX_WINDOW_SIZE};
pub use window::{Overflow, Window};
