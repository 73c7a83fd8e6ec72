//! The words that name kinds and shapes of fields.

use schema::{EnumId, Kind, Scalar, Shape, TypeId};

/// The scalar that a word names, or bytes.
pub(crate) fn scalar_of(word: &str) -> Scalar {
    match word {
        "int32" => Scalar::Int32,
        "int64" => Scalar::Int64,
        "uint32" => Scalar::Uint32,
        "uint64" => Scalar::Uint64,
        "sint32" => Scalar::Sint32,
        "sint64" => Scalar::Sint64,
        "fixed32" => Scalar::Fixed32,
        "fixed64" => Scalar::Fixed64,
        "sfixed32" => Scalar::Sfixed32,
        "sfixed64" => Scalar::Sfixed64,
        "bool" => Scalar::Bool,
        "text" => Scalar::Text,
        _ => Scalar::Bytes,
    }
}

/// The number that a word is, or 0.
fn index_of(word: &str) -> u32 {
    word.parse().unwrap_or(0)
}

/// The kind that a word names.
pub(crate) fn kind_of(word: &str) -> Kind {
    if let Some(index) = word.strip_prefix("message") {
        return Kind::Message(TypeId(index_of(index)));
    }
    match word.strip_prefix("enum") {
        Some(index) => Kind::One(Scalar::Enumeration(EnumId(index_of(index)))),
        None => Kind::One(scalar_of(word)),
    }
}

/// The shape that a word names.
pub(crate) fn shape_of(word: &str) -> Shape {
    if let Some(index) = word.strip_prefix("member") {
        return Shape::Member(index_of(index));
    }
    if let Some(key) = word.strip_prefix("map") {
        return Shape::Map(scalar_of(key));
    }
    match word {
        "many" => Shape::Many,
        _ => Shape::Single,
    }
}
