//! HPACK: header blocks, with one table over all blocks of a connection (RFC 7541). `Decoder` reads the
//! blocks of one direction, and `encode` writes blocks that use no dynamic table and no Huffman code.
//! Which fields a request may have is not asked here.
#![tactic(auto)]

mod decoder;
mod dynamic_table;
mod encoding;
pub mod examples;
mod fault;
mod field_starts;
mod fields;
mod huffman;
mod index_table;
mod integer;
pub mod laws;
mod literal;
mod put;
mod representation;
mod static_table;
mod string_literal;

pub use decoder::Decoder;
pub use encoding::encode;
pub use fault::BlockFault;
pub use fields::Fields;
