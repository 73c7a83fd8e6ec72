//! Rows of text: a line is a label and words behind it, and its answer is a line that begins with the label.
//!
//! Programs that answer rows implement `Answers`, and `answer_rows` runs them over their input. Inputs that
//! are streams implement `Stream`, which `told_however_cut` tries whole and in pieces.
#![tactic(auto)]

mod answers;
mod bytes;
mod cut;
mod first_byte;
mod row;

pub use answers::{Answers, answer_rows};
pub use bytes::{bytes_of, kept, shown};
pub use cut::{Cut, Stream, told_however_cut, told_in_sizes};
pub use first_byte::{behind_front, front};
pub use row::Row;
