//! Types of protobuf messages, linked by numbers: what `descriptor.proto` declares of messages, fields and
//! enums, and the limits that every reader and writer of messages shares.
//!
//! Nothing here judges what is declared; `schema` does, and re-exports all of it. Begin with `Types`.
#![tactic(auto)]

mod enums;
mod fields;
mod limits;
mod lookup;
mod messages;

pub use enums::{EnumId, EnumType, EnumValue};
pub use fields::{Field, Kind, Presence, Scalar, Shape};
pub use limits::{MAX_FIELD_NUMBER, MAX_LEVELS};
pub use lookup::find_field;
pub use messages::{Known, MessageType, TypeId, Types};
