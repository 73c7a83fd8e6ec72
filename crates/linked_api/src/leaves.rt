//! Fields of one value, and where a path may end or pass on (google/api/http.proto, FieldPath).
ghost use Rattle.std.specs.Prelude.{◌≡◌};
ghost use Rattle.linked_api.specs.FieldPaths.{inner_message as inner_of_kind, is_leaf as is_leaf_kind, is_plain as is_plain_known, is_plain_message, is_singular as is_singular_shape, is_well_known};

use schema::{Kind, Known, Shape, TypeId, Types};

/// True for the shapes of one value: it stands alone, or is a member of a oneof.
pub fn is_singular(shape: Shape) -> bool
    ensures { result ≡ is_singular_shape shape }
{
    match shape {
        Shape::Single => true,
        Shape::Member(_) => true,
        Shape::Many => false,
        Shape::Map(_) => false,
    }
}

/// True for a message that is no well-known one.
fn is_plain(known: Known) -> bool
    ensures { result ≡ is_plain_known known }
{
    match known {
        Known::Plain => true,
        Known::Timestamp => false,
        Known::Duration => false,
        Known::FieldMask => false,
        Known::Wrapper => false,
    }
}

/// True where the type is there, and is no well-known one.
fn is_plain_message(types: &Types, id: TypeId) -> bool
    ensures { result ≡ is_plain_message types.now id }
{
    match types.messages.get(id.0 as usize) {
        Some(message) => is_plain(message.known),
        None => false,
    }
}

/// True where the type is there, and is a well-known one.
fn is_well_known(types: &Types, id: TypeId) -> bool
    ensures { result ≡ is_well_known types.now id }
{
    match types.messages.get(id.0 as usize) {
        Some(message) => !is_plain(message.known),
        None => false,
    }
}

/// True where one value of the kind is a leaf: a scalar, an enum, or a well-known type.
pub fn is_leaf(types: &Types, kind: Kind) -> bool
    ensures { result ≡ is_leaf_kind types.now kind }
{
    match kind {
        Kind::One(_) => true,
        Kind::Message(id) => is_well_known(types, id),
    }
}

/// The message that one value of the kind is, where it is no well-known one.
pub fn inner_message(types: &Types, kind: Kind) -> Option<TypeId>
    ensures { result ≡ inner_of_kind types.now kind }
{
    match kind {
        Kind::One(_) => None,
        Kind::Message(id) => {
            if is_plain_message(types, id) {
                return Some(id);
            }
            None
        }
    }
}
