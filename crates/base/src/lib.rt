//! What every crate speaks of, whatever it reads or writes: bytes, texts and lists that are owned,
//! the answer of a call that finds no memory, bytes that are appended, and numbers in groups of
//! seven bits.
//!
//! Nothing here knows protobuf, JSON or HTTP. The lemmas of proofs/ are for every crate. Begin with
//! `Blob`, `Text` and `List`.
#![tactic(auto)]

mod appended;
mod base128;
mod blob;
mod field_pair;
mod list;
mod no_memory;
mod text;

pub use appended::{append_within, cut_back};
pub use base128::{GroupFault, groups_len, put_groups, read_groups};
pub use blob::Blob;
pub use field_pair::FieldPair;
pub use list::List;
pub use no_memory::NoMemory;
pub use text::Text;
