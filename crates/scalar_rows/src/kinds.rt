//! Names of scalar kinds.
ghost use Rattle.std.specs.Prelude.{◌≢◌, IfSome};
ghost use Rattle.message_types.specs.declared.fields.Scalar.TheVariants.{Bytes};

use schema::{EnumId, Scalar};

/// The kind that has the name in a .proto file; `colour` is the enum. Bytes are not read.
pub(crate) fn kind_named(name: &str) -> Option<Scalar>
    ensures { IfSome result (λ scalar. scalar ≢ Bytes) }
{
    match name {
        "int32" => Some(Scalar::Int32),
        "int64" => Some(Scalar::Int64),
        "uint32" => Some(Scalar::Uint32),
        "uint64" => Some(Scalar::Uint64),
        "sint32" => Some(Scalar::Sint32),
        "sint64" => Some(Scalar::Sint64),
        "fixed32" => Some(Scalar::Fixed32),
        "fixed64" => Some(Scalar::Fixed64),
        "sfixed32" => Some(Scalar::Sfixed32),
        "sfixed64" => Some(Scalar::Sfixed64),
        "bool" => Some(Scalar::Bool),
        "string" => Some(Scalar::Text),
        "colour" => Some(Scalar::Enumeration(EnumId(0))),
        _ => None,
    }
}
