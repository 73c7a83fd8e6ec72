//! The integer that the text of a JSON number is (RFC 8259, section 6), exactly, whatever its length and its exponent.
//!
//! `read_integer` tells it, or why there is none. It makes no power of ten: digits are dropped, or zeros are added.
#![tactic(auto)]

mod digits;
pub mod examples;
mod integer;
mod integer_text;
pub mod laws;
mod parts;
mod places;

pub use integer::read_integer;
pub use integer_text::IntegerText;
