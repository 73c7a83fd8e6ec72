//! Reads the descriptor set's file.
ghost use Rattle.std.specs.Prelude.{◌≡◌, ◌≤◌, ◌<◌, ◌+◌, length, take, Err, IfSome};
ghost use Rattle.gate_world.specs.Causes.{Rose};
ghost use Rattle.gate_world.specs.ToldFiles.{IsMissing, told_file};
ghost use Rattle.gateway_run.specs.Outcomes.{Gives};

use crate::pieces::{PIECE_BYTES, len_of};
use crate::status::Stop;
use descriptor_set::MAX_SET_BYTES;
use gate_world::{Files, Read};
use std::alloc::Global;

/// How many bytes are asked for behind so many.
fn room_behind(len: usize) -> usize
    requires { len ≤ MAX_SET_BYTES }
    ensures some { 0 < result }
    ensures piece { result ≤ PIECE_BYTES }
    ensures within { result + len ≤ 16777217 }
{
    PIECE_BYTES.min(MAX_SET_BYTES + 1 - len)
}

/// The bytes of a file: all of them, or the first 16,777,217.
pub(crate) fn read_whole<F: Files>(
    alloc: Global,
    files: &mut F,
    path: &str,
) -> Result<Vec<u8>, Stop>
    ensures gives { let told = told_file (F.contents files.old) path.now in
        Gives (λ bytes. IfSome told (λ file. bytes.items ≡ take 16777217 file)) (λ _. ⊥) (λ _. ⊥)
        (Rose (F.faults files.old) (F.faults files.new)) result }
    ensures missing { IsMissing (F.contents files.old) path.now → result ≡ Err Stop.ReadFault }
    ensures later { F.faults files.old ≤ F.faults files.new }
    ensures same { F.contents files.new ≡ F.contents files.old }
{
    let mut bytes = Vec::new(alloc);
    let mut piece = [0u8; PIECE_BYTES];
    while len_of(&bytes) <= MAX_SET_BYTES {
        let from = len_of(&bytes);
        let room = room_behind(from);
        match files.read(path, from as u64, &mut piece[..room]) {
            Read::Bytes(n) => bytes.extend_from_slice(&piece[..n])?,
            Read::End => return Ok(bytes),
            Read::Failed => return Err(Stop::ReadFault),
        }
    }
    Ok(bytes)
}
