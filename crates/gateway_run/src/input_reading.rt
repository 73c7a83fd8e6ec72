//! Reads the body of a request from the input.
ghost use Rattle.std.specs.Prelude.{◌≤◌, ◌<◌, ◌+◌, IfSome};
ghost use Rattle.gate_world.specs.Causes.{Rose};
ghost use Rattle.gateway_run.specs.InputReading.{IsBodyOf, LosesBody, LosesFront};
ghost use Rattle.gateway_run.specs.Outcomes.{Gives};

use crate::pieces::{PIECE_BYTES, len_of};
use crate::status::Stop;
use gate_world::{Read, Source};
use std::alloc::Global;
use transcoding::MAX_BODY_BYTES;

/// How many bytes are asked for behind so many.
fn room_behind(len: usize) -> usize
    requires { len ≤ MAX_BODY_BYTES }
    ensures some { 0 < result }
    ensures piece { result ≤ PIECE_BYTES }
    ensures within { result + len ≤ 1048577 }
{
    PIECE_BYTES.min(MAX_BODY_BYTES + 1 - len)
}

/// The bytes of an input: all that is left of it, or the first 1,048,577. Where a read fails or memory is not found,
/// the input has lost what was read before.
pub(crate) fn read_input<I: Source>(alloc: Global, input: &mut I) -> Result<Vec<u8>, Stop>
    ensures gives { Gives
        (λ bytes. IsBodyOf (I.left input.old) bytes.items
        × IfSome (I.left input.old) (λ told. LosesBody told (I.left input.new)))
        (λ _. ⊥) (λ _. ⊥) (Rose (I.faults input.old) (I.faults input.new)) result }
    ensures left { IfSome (I.left input.old) (λ told. LosesFront told (I.left input.new)) }
    ensures later { I.faults input.old ≤ I.faults input.new }
{
    let mut bytes = Vec::new(alloc);
    let mut piece = [0u8; PIECE_BYTES];
    while len_of(&bytes) <= MAX_BODY_BYTES {
        let room = room_behind(len_of(&bytes));
        match input.read(&mut piece[..room]) {
            Read::Bytes(n) => bytes.extend_from_slice(&piece[..n])?,
            Read::End => return Ok(bytes),
            Read::Failed => return Err(Stop::ReadFault),
        }
    }
    Ok(bytes)
}
