//! Putting messages on a stream.
ghost use Rattle.std.specs.Prelude.{◌≡◌, ◌++◌, ◌+◌, ◌<◌, ◌^◌, length, OnOk, OnErr};
ghost use Rattle.grpc_frames.specs.LengthPrefixed.{length_prefixed};

use crate::prefix::PREFIX_BYTES;
use base::{NoMemory, append_within};

/// Appends a message behind a flag of 0 and its length. Where memory is not found, `out` is as
/// before.
pub fn frame(message: &[u8], out: &mut Vec<u8>) -> Result<(), NoMemory>
    requires { length message.now < 2 ^ 32 }
    ensures ok { OnOk result (out.new.items ≡ out.old.items ++ length_prefixed message.now) }
    ensures err { OnErr result (out.new.items ≡ out.old.items) }
{
    out.reserve(PREFIX_BYTES + message.len())?;
    append_within(out, &[0]);
    append_within(out, &(message.len() as u32).to_be_bytes());
    append_within(out, message);
    Ok(())
}
