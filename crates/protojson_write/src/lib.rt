//! Messages as JSON (the ProtoJSON guide): the text of a value, and the call that appends it.
//!
//! A value that has no text is told before anything is written. Begin with `show`.
#![tactic(auto)]

mod absent;
pub mod examples;
mod fault;
mod known;
pub mod laws;
mod printable;
mod room;
mod scalars;
mod shown;
#[cfg(test)]
mod tests;
mod within;
mod writer;

pub use fault::ShowFault;
pub use shown::show;
