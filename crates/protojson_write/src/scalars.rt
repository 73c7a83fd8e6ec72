//! Appending numbers, truth values, strings, bytes and enums (the ProtoJSON guide).
ghost use Rattle.std.specs.Prelude.{◌≡◌, ◌++◌, [], OnOk, OnErr};
ghost use Rattle.std.specs.Fmt.{signed_decimal};
ghost use Rattle.std.specs.Option.{option_copied};
ghost use Rattle.base.specs.Extends.{Extends};
ghost use Rattle.known_types.specs.BytesTexts.{bytes_text};
ghost use Rattle.schema.specs.declared.value.Item.{out-Item};
ghost use Rattle.protojson_write.specs.ScalarOutput.{default_of, enum_text, key_text, name_of, number_text, quoted, scalar_text};
ghost use Rattle.json_meanings.specs.JsonScalars.{truth_text};

use base::{NoMemory, Text};
use field_index::{IndexedEnum, IndexedTypes};
use itoa::Buffer;
use json_events::put_string;
use known_types::show_bytes;
use schema::{Item, Key, Scalar};

/// Appends a number.
fn put_decimal(out: &mut Vec<u8>, number: i128) -> Result<(), NoMemory>
    ensures ok { OnOk result (out.new.items ≡ out.old.items ++ signed_decimal number) }
    ensures err { OnErr result (out.new.items ≡ out.old.items) }
{
    out.extend_from_slice(Buffer::new().format(number).as_bytes())?;
    Ok(())
}

/// Appends a number between quotation marks.
fn put_quoted_decimal(out: &mut Vec<u8>, number: i128) -> Result<(), NoMemory>
    ensures ok { OnOk result (out.new.items ≡ out.old.items ++ quoted (signed_decimal number)) }
    ensures err { OnErr result (Extends out.old.items out.new.items) }
{
    out.push(b'"')?;
    put_decimal(out, number)?;
    out.push(b'"')?;
    Ok(())
}

/// Appends a truth value.
fn put_truth(out: &mut Vec<u8>, truth: bool) -> Result<(), NoMemory>
    ensures ok { OnOk result (out.new.items ≡ out.old.items ++ truth_text truth) }
    ensures err { OnErr result (out.new.items ≡ out.old.items) }
{
    if truth {
        out.extend_from_slice(b"true")?;
    } else {
        out.extend_from_slice(b"false")?;
    }
    Ok(())
}

/// Appends a truth value between quotation marks.
fn put_quoted_truth(out: &mut Vec<u8>, truth: bool) -> Result<(), NoMemory>
    ensures ok { OnOk result (out.new.items ≡ out.old.items ++ quoted (truth_text truth)) }
    ensures err { OnErr result (Extends out.old.items out.new.items) }
{
    out.push(b'"')?;
    put_truth(out, truth)?;
    out.push(b'"')?;
    Ok(())
}

/// Appends the base64 of bytes between quotation marks.
fn put_bytes(out: &mut Vec<u8>, bytes: &[u8]) -> Result<(), NoMemory>
    ensures ok { OnOk result (out.new.items ≡ out.old.items ++ quoted (bytes_text bytes.now)) }
    ensures err { OnErr result (Extends out.old.items out.new.items) }
{
    out.push(b'"')?;
    show_bytes(bytes, out)?;
    out.push(b'"')?;
    Ok(())
}

/// The first declared name of a number.
#[tactic(auto, using(crate::proofs::NameLemmas::name_found, crate::proofs::NameLemmas::name_missing))]
fn find_name<'a>(values: &IndexedEnum<'a>, number: i128) -> Option<&'a Text>
    ensures { option_copied result ≡ name_of values.now number }
{
    match values.value_with(number) {
        Some(value) => Some(&value.name),
        None => None,
    }
}

/// Appends a number of an enum.
fn put_enum(out: &mut Vec<u8>, name: Option<&Text>, number: i128) -> Result<(), NoMemory>
    ensures ok { OnOk result (out.new.items ≡ out.old.items ++ enum_text (option_copied name.entry) number) }
    ensures err { OnErr result (Extends out.old.items out.new.items) }
{
    match name {
        Some(text) => put_string(out, text),
        None => put_decimal(out, number),
    }
}

/// Appends a number of a scalar kind.
fn put_number(
    out: &mut Vec<u8>,
    types: &IndexedTypes<'_>,
    scalar: Scalar,
    number: i128,
) -> Result<(), NoMemory>
    ensures ok { OnOk result (out.new.items ≡ out.old.items ++ number_text types.now scalar number) }
    ensures err { OnErr result (Extends out.old.items out.new.items) }
{
    match scalar {
        Scalar::Int64 => put_quoted_decimal(out, number),
        Scalar::Uint64 => put_quoted_decimal(out, number),
        Scalar::Sint64 => put_quoted_decimal(out, number),
        Scalar::Fixed64 => put_quoted_decimal(out, number),
        Scalar::Sfixed64 => put_quoted_decimal(out, number),
        Scalar::Enumeration(id) => { put_enum(out, find_name(types.values(id), number), number) }
        _ => put_decimal(out, number),
    }
}

/// Appends an item of a scalar kind.
pub(crate) fn put_scalar(
    out: &mut Vec<u8>,
    types: &IndexedTypes<'_>,
    scalar: Scalar,
    item: &Item,
) -> Result<(), NoMemory>
    ensures ok { OnOk result (out.new.items ≡ out.old.items ++ scalar_text types.now scalar (out-Item item.now)) }
    ensures err { OnErr result (Extends out.old.items out.new.items) }
{
    match item {
        Item::Number(number) => put_number(out, types, scalar, *number),
        Item::Truth(truth) => put_truth(out, *truth),
        Item::Text(text) => put_string(out, text),
        Item::Bytes(bytes) => put_bytes(out, bytes.as_slice()),
        Item::Message(_) => Ok(()),
    }
}

/// Appends the default of a scalar kind.
pub(crate) fn put_default(
    out: &mut Vec<u8>,
    types: &IndexedTypes<'_>,
    scalar: Scalar,
) -> Result<(), NoMemory>
    ensures ok { OnOk result (out.new.items ≡ out.old.items ++ scalar_text types.now scalar (default_of scalar)) }
    ensures err { OnErr result (Extends out.old.items out.new.items) }
{
    match scalar {
        Scalar::Bool => put_truth(out, false),
        Scalar::Text => put_empty(out),
        Scalar::Bytes => put_bytes(out, &[]),
        _ => put_number(out, types, scalar, 0),
    }
}

/// Appends the empty string.
fn put_empty(out: &mut Vec<u8>) -> Result<(), NoMemory>
    ensures ok { OnOk result (out.new.items ≡ out.old.items ++ quoted []) }
    ensures err { OnErr result (Extends out.old.items out.new.items) }
{
    out.extend_from_slice(b"\"\"")?;
    Ok(())
}

/// Appends the key of an entry of a map, as a string.
pub(crate) fn put_key(out: &mut Vec<u8>, key: &Key) -> Result<(), NoMemory>
    ensures ok { OnOk result (out.new.items ≡ out.old.items ++ key_text key.now) }
    ensures err { OnErr result (Extends out.old.items out.new.items) }
{
    match key {
        Key::Number(number) => put_quoted_decimal(out, *number),
        Key::Truth(truth) => put_quoted_truth(out, *truth),
        Key::Text(text) => put_string(out, text),
    }
}
