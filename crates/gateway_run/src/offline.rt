//! Runs a command that serves nothing.
ghost use Rattle.std.specs.Prelude.{◌≡◌, ◌≤◌, ◌↔◌, ◌⊎◌, [], None, Err, map, string_bytes};
ghost use Rattle.gate_world.specs.Causes.{Rose};
ghost use Rattle.gate_world.specs.Sinks.{Gains};
ghost use Rattle.gateway_run.specs.Commands.{command_of};
ghost use Rattle.gateway_run.specs.InputReading.{FailedRead, Leaves, MayRead};
ghost use Rattle.gateway_run.specs.Outcomes.{AnswersTold, Ran, Writes, line_of, status_of};

use crate::command::command_of;
use crate::command_output::command_output;
use crate::error_lines::write_line;
use crate::status::{Status, Stop};
use gate_world::{Files, Policy, Sink, Source, write_all};
use std::alloc::Global;

/// Runs the command of the words and writes its output.
fn run_command<F: Files, I: Source, O: Sink>(
    alloc: Global,
    words: &[String],
    files: &mut F,
    input: &mut I,
    out: &mut O,
) -> Result<(), Stop>
    ensures usage { (result ≡ Err Stop.Usage) ↔ (command_of (map string_bytes words.now) ≡ None) }
    ensures answers { AnswersTold (command_of (map string_bytes words.now)) (F.contents files.old) (I.left input.old) (status_of result) (line_of result) (O.written out.old) (O.written out.new) }
    ensures nothing { (Writes (status_of result) → ⊥) → Gains (O.written out.old) (O.written out.new) [] }
    ensures read { result ≡ Err Stop.ReadFault → FailedRead (command_of (map string_bytes words.now)) (F.contents files.old)
        (Rose (F.faults files.old) (F.faults files.new)) (Rose (I.faults input.old) (I.faults input.new)) }
    ensures write { result ≡ Err Stop.WriteFault → Rose (O.faults out.old) (O.faults out.new) }
    ensures left { Leaves (command_of (map string_bytes words.now)) (status_of result) (I.left input.old) (I.left input.new) }
    ensures unread { (MayRead (command_of (map string_bytes words.now)) (F.contents files.old) (status_of result) → ⊥)
        → input.new ≡ input.old }
    ensures later { (F.faults files.old ≤ F.faults files.new) × (I.faults input.old ≤ I.faults input.new) × (O.faults out.old ≤ O.faults out.new) }
    ensures same { F.contents files.new ≡ F.contents files.old }
{
    let Some(command) = command_of(words) else {
        return Err(Stop::Usage);
    };
    let output = command_output(alloc, command, files, input)?;
    write_all(out, output.as_slice())?;
    Ok(())
}

/// Runs the command of the words behind the program's name, and always returns. It reads files from
/// `files` and, for `bind`, the request's body from `input`, writes its output to `out` and, where it does not end
/// with Done, one line to `err`; a write to `err` that fails changes nothing. So far no command asks `policy`.
///
/// A body is read only behind the set, to the input's end or to its first byte past 1,048,576; so a set that cannot
/// be served is told before anything of the input, and a failed read of the input before a refusal.
pub fn run_offline<F: Files, I: Source, O: Sink, P: Policy + Drop>(
    alloc: Global,
    words: &[String],
    files: &mut F,
    input: &mut I,
    out: &mut O,
    err: &mut O,
    policy: P,
) -> Status
    // Usage is exactly for words that are no command.
    ensures usage { (result ≡ Status.Usage) ↔ (command_of (map string_bytes words.now) ≡ None) }
    // What the status says of the set, the input and the command, what it wrote, and its line, where the contents
    // are told; where they are, and the set's path is none of theirs, it is ReadFault.
    ensures ran { Ran result (Rose (O.faults err.old) (O.faults err.new)) (O.written err.old) (O.written err.new)
        (λ line. AnswersTold (command_of (map string_bytes words.now)) (F.contents files.old) (I.left input.old) result line (O.written out.old) (O.written out.new)) }
    // With any other status than Done and WriteFault nothing is written to `out`.
    ensures nothing { (Writes result → ⊥) → Gains (O.written out.old) (O.written out.new) [] }
    // A fault is answered only where its count rose: of a read that of the files, or behind them that of the input.
    ensures read { result ≡ Status.ReadFault → FailedRead (command_of (map string_bytes words.now)) (F.contents files.old)
        (Rose (F.faults files.old) (F.faults files.new)) (Rose (I.faults input.old) (I.faults input.new)) }
    ensures write { result ≡ Status.WriteFault → Rose (O.faults out.old) (O.faults out.new) }
    // Only a `bind` whose set is served reads the input, and what is left of it is what stood behind the bytes read.
    ensures unread { (MayRead (command_of (map string_bytes words.now)) (F.contents files.old) result → ⊥)
        → input.new ≡ input.old }
    ensures left { Leaves (command_of (map string_bytes words.now)) result (I.left input.old) (I.left input.new) }
    // Counts never fall; the files' contents stay.
    ensures later { (F.faults files.old ≤ F.faults files.new) × (I.faults input.old ≤ I.faults input.new) × (O.faults out.old ≤ O.faults out.new) × (O.faults err.old ≤ O.faults err.new) }
    ensures same { F.contents files.new ≡ F.contents files.old }
{
    let _ = policy;
    match run_command(alloc, words, files, input, out) {
        Ok(()) => Status::Done,
        Err(stop) => {
            let _ = write_line(err, &stop);
            stop.status()
        }
    }
}
