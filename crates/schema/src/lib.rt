//! Values and types of protobuf messages: the data that every other crate speaks of.
//!
//! The types say what `descriptor.proto` declares; the values say what one message holds. Nothing
//! here reads or writes bytes of the wire format or JSON. Begin with `Value` and `Types`.
#![tactic(auto)]

mod copies;
mod key;
pub mod laws;
mod pairs;
mod soundness;
mod validity;
mod value;

pub use base::{Blob, FieldPair, List, NoMemory, Text};
pub use key::Key;
pub use message_types::{
    EnumId, EnumType, EnumValue, Field, Kind, Known, MAX_FIELD_NUMBER, MAX_LEVELS, MessageType,
    Presence, Scalar, Shape, TypeId, Types, find_field,
};
pub use pairs::PairIter;
pub use soundness::{is_packable, sound};
pub use validity::{is_default, valid};
pub use value::{Item, Pairs, Slot, Value};
