//! Bytes that are put behind others: into room that is reserved, or whole or not at all.
ghost use Rattle.std.specs.Prelude.{◌≡◌, ◌++◌, ◌+◌, ◌≤◌, length, take, vec_len, vec_capacity, OnOk, OnErr};

use crate::no_memory::NoMemory;

/// Appends bytes for which there is room. Takes no memory, and keeps the room.
pub fn append_within(out: &mut Vec<u8>, bytes: &[u8])
    requires { vec_len out.old + length bytes.now ≤ vec_capacity out.old }
    ensures items { out.new.items ≡ out.old.items ++ bytes.now }
    ensures len { vec_len out.new ≡ vec_len out.old + length bytes.now }
    ensures capacity { vec_capacity out.old ≤ vec_capacity out.new }
{
    match out.extend_from_slice(bytes) {
        Ok(()) => {}
        Err(_) => unreachable!(),
    }
}

/// What was done, and after a refusal the bytes cut back to the length that they had before.
pub fn cut_back(out: &mut Vec<u8>, len: usize, done: Result<(), NoMemory>) -> Result<(), NoMemory>
    ensures done { result ≡ done }
    ensures ok { OnOk result (out.new.items ≡ out.old.items) }
    ensures err { OnErr result (out.new.items ≡ take len out.old.items) }
{
    if done.is_err() {
        out.truncate(len);
    }
    done
}
