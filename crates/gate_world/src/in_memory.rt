//! What stands in memory for the outside.

mod fixed_files;
mod fixed_sink;
mod fixed_source;
mod numbered;

pub use fixed_files::{FixedFiles, NamedBytes};
pub use fixed_sink::FixedSink;
pub use fixed_source::FixedSource;
