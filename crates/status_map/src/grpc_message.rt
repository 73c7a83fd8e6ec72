//! The value of the field grpc-message (gRPC over HTTP/2, "Status-Message").
ghost use Rattle.std.specs.Prelude.{◌≡◌, ◌++◌, IfOk, OnOk, OnErr};
ghost use Rattle.base.specs.Extends.{Extends};
ghost use Rattle.status_map.specs.GrpcMessage.{encoded_message, decoded_message};

use base::{Blob, NoMemory, cut_back};
use percent_encoding::{AsciiSet, CONTROLS, ascii_set, percent_decode, percent_encode};
use std::alloc::Global;

/// The bytes of ASCII that are sent as escapes.
const ESCAPED: AsciiSet = ascii_set!(CONTROLS.add(b'%'));

/// Reads a value. Each `%` with two hexadecimal digits is the byte that they write; a `%` without
/// them stays.
pub fn read_message(alloc: Global, value: &[u8]) -> Result<Blob, NoMemory>
    ensures { IfOk result (λ b. b ≡ decoded_message value.now) }
{
    let mut bytes = Vec::new(alloc);
    percent_decode(value).append_to(&mut bytes)?;
    Ok(Blob::from_vec(bytes))
}

/// Appends the value of a text: spaces and the visible characters of ASCII but `%` as they are, other
/// bytes as `%` and two upper-case hexadecimal digits. Where memory is not found, `out` is as before.
pub fn put_message(out: &mut Vec<u8>, text: &[u8]) -> Result<(), NoMemory>
    ensures ok { OnOk result (out.new.items ≡ out.old.items ++ encoded_message text.now) }
    ensures err { OnErr result (out.new.items ≡ out.old.items) }
{
    let len = out.len();
    let done = write_message(out, text);
    cut_back(out, len, done)
}

/// The same as `put_message`, but that a part may stand where memory is not found.
fn write_message(out: &mut Vec<u8>, text: &[u8]) -> Result<(), NoMemory>
    ensures ok { OnOk result (out.new.items ≡ out.old.items ++ encoded_message text.now) }
    ensures err { OnErr result (Extends out.old.items out.new.items) }
{
    for piece in percent_encode(text, ESCAPED) {
        out.extend_from_slice(piece.as_bytes())?;
    }
    Ok(())
}
