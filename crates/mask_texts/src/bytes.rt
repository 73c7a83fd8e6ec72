//! The bytes of paths, one by one (field_mask.proto, JSON Encoding of Field Masks).
ghost use Rattle.std.specs.Prelude.{◌≡◌, ◌++◌, ◌<◌, IsTrue, OnOk, OnErr};
ghost use Rattle.mask_texts.specs.MaskTexts.{is_camel_byte, snake_byte, can_follow, camel_byte};

use base::{NoMemory, Text};

/// Whether a byte may stand in a path of a text.
pub(crate) fn is_camel_byte(byte: u8) -> bool
    ensures value { result ≡ is_camel_byte byte }
    ensures ascii { IsTrue result → byte < 128 }
{
    byte.is_ascii_alphanumeric() || byte == b'.' || byte == b'*'
}

/// Appends what a byte of a path in a text stands for. Where memory is not found, a part may stand.
pub(crate) fn put_snake(path: &mut Text, byte: u8) -> Result<(), NoMemory>
    requires { byte < 128 }
    ensures { OnOk result (path.new ≡ path.old ++ snake_byte byte) }
{
    if byte.is_ascii_uppercase() {
        path.push('_')?;
        return path.push(char::from(byte.to_ascii_lowercase()));
    }
    path.push(char::from(byte))
}

/// Whether a byte may stand in a path that is printed, where the one before it is `_` or not.
pub(crate) fn can_follow(is_after: bool, byte: u8) -> bool
    ensures { result ≡ can_follow is_after byte }
{
    if is_after {
        byte.is_ascii_lowercase()
    } else {
        byte.is_ascii_lowercase()
            || byte.is_ascii_digit()
            || byte == b'.'
            || byte == b'*'
            || byte == b'_'
    }
}

/// Appends what is written for a byte of a path, where the one before it is `_` or not.
pub(crate) fn put_camel_byte(out: &mut Vec<u8>, is_after: bool, byte: u8) -> Result<(), NoMemory>
    ensures ok { OnOk result (out.new.items ≡ out.old.items ++ camel_byte is_after byte) }
    ensures err { OnErr result (out.new.items ≡ out.old.items) }
{
    if is_after {
        out.push(byte.to_ascii_uppercase())?;
    } else if byte != b'_' {
        out.push(byte)?;
    }
    Ok(())
}
