//! JSON texts (RFC 8259) over UTF-8, in any pieces.
//!
//! `Reader` gives the tokens of a text as they end, with their offsets, and the place of the first byte
//! that no text goes on with; `read_text` gives those of a whole text. They make no tree, and do not say
//! what a number is beyond its spelling.
//! The writers append strings and numbers. An escape is written only where a string must have one.
//! The laws of what a text means stand in `laws`.
#![tactic(auto)]

mod endings;
mod escapes;
mod fault;
mod held;
pub mod laws;
mod nesting;
mod progress;
mod reader;
mod stack;
mod state;
mod step;
mod token;
mod whole_text;
mod words;
mod writer;

pub use fault::JsonFault;
pub use reader::Reader;
pub use token::{Fed, Spanned, Token};
pub use whole_text::read_text;
pub use writer::{put_characters, put_i64, put_string, put_u64};
