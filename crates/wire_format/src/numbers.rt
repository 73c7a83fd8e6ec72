//! Numbers as they are written (the encoding guide, "More Integer Types" and "Non-varint Numbers").
ghost use Rattle.std.specs.Prelude.{◌≡◌, ◌++◌, ◌^◌, ◌-◌, pos, negsuc, OnOk, OnErr};
ghost use Rattle.std.specs.Int.{w32, w64, cast_unsigned};
ghost use Rattle.schema.specs.Validity.{IsWithin, IsInt64, IsScalarItem};
ghost use Rattle.schema.specs.declared.value.Item.TheOpen.{Number};
ghost use Rattle.wire_format.specs.CanonicalBytes.{number_bytes, zigzag};
ghost use Rattle.base.specs.Extends.{Extends};
ghost use Rattle.wire_format.specs.Sizes.{size_of};

use base::NoMemory;
use schema::Scalar;
use wire_records::{put_bytes, put_varint, varint_len};

/// A signed number of 64 bits by zigzag.
fn zigzag_of(number: i128) -> u64
    requires { IsInt64 number }
    ensures { result ≡ zigzag number }
{
    if number < 0 {
        return (-(number + 1) * 2 + 1) as u64;
    }
    (number * 2) as u64
}

/// The 64 bits of a number, in two's complement.
fn bits_of(number: i128) -> u64
    requires { IsWithin (negsuc (2 ^ 63 - 1)) (pos (2 ^ 64)) number }
    ensures { result ≡ cast_unsigned w64 number }
{
    if number < 0 {
        return (number + (1 << 64)) as u64;
    }
    number as u64
}

/// The 32 bits of a number, in two's complement.
fn half_bits_of(number: i128) -> u32
    requires { IsWithin (negsuc (2 ^ 31 - 1)) (pos (2 ^ 32)) number }
    ensures { result ≡ cast_unsigned w32 number }
{
    if number < 0 {
        return (number + (1 << 32)) as u32;
    }
    number as u32
}

/// Appends a number of the scalar kind.
pub(crate) fn put_number(out: &mut Vec<u8>, scalar: Scalar, number: i128) -> Result<(), NoMemory>
    requires { IsScalarItem scalar (Number number) }
    ensures ok { OnOk result (out.new.items ≡ out.old.items ++ number_bytes scalar number) }
    ensures err { OnErr result (Extends out.old.items out.new.items) }
{
    match scalar {
        Scalar::Sint32 => put_varint(out, zigzag_of(number)),
        Scalar::Sint64 => put_varint(out, zigzag_of(number)),
        Scalar::Fixed32 => put_bytes(out, &half_bits_of(number).to_le_bytes()),
        Scalar::Sfixed32 => put_bytes(out, &half_bits_of(number).to_le_bytes()),
        Scalar::Fixed64 => put_bytes(out, &bits_of(number).to_le_bytes()),
        Scalar::Sfixed64 => put_bytes(out, &bits_of(number).to_le_bytes()),
        _ => put_varint(out, bits_of(number)),
    }
}

/// How many bytes a number of the scalar kind takes.
pub(crate) fn number_len(scalar: Scalar, number: i128) -> u64
    requires { IsScalarItem scalar (Number number) }
    ensures { result ≡ size_of (number_bytes scalar number) }
{
    match scalar {
        Scalar::Sint32 => varint_len(zigzag_of(number)) as u64,
        Scalar::Sint64 => varint_len(zigzag_of(number)) as u64,
        Scalar::Fixed32 => 4,
        Scalar::Sfixed32 => 4,
        Scalar::Fixed64 => 8,
        Scalar::Sfixed64 => 8,
        _ => varint_len(bits_of(number)) as u64,
    }
}
