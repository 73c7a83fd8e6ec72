//! What a command prints, over the file of its descriptor set.
ghost use Rattle.std.specs.Prelude.{◌≡◌, ◌≤◌, ◌⊎◌, Some, Err, IfSome};
ghost use Rattle.gate_world.specs.Causes.{Rose};
ghost use Rattle.gate_world.specs.ToldFiles.{IsMissing, told_file};
ghost use Rattle.gateway_run.specs.CommandOutput.{IsOutput, IsRefusedBy, Prints, Refuses};
ghost use Rattle.gateway_run.specs.CommandViews.{bind_view, command_view};
ghost use Rattle.gateway_run.specs.Commands.{bind, set_of};
ghost use Rattle.gateway_run.specs.DeclaredApi.{Declares, IsUnserved};
ghost use Rattle.gateway_run.specs.InputReading.{FailedRead, IsBind, Leaves, MayRead, OfInput};
ghost use Rattle.gateway_run.specs.Outcomes.{Gives, status_of};
ghost use Rattle.linked_api.specs.LinkedApi.{IsLinked};

use crate::bind_command::bind_output;
use crate::command::{Bind, Command};
use crate::input_reading::read_input;
use crate::set_loading::read_whole;
use crate::status::Stop;
use descriptor_set::read_set;
use gate_world::{Files, Source};
use schema_link::{Api, link};
use set_listing::{check_text, routes_text};
use std::alloc::Global;

/// What the set of these bytes declares.
fn linked(alloc: Global, bytes: &[u8]) -> Result<Api, Stop>
    ensures gives { Gives (λ api. Declares bytes.now api × IsLinked api) (IsUnserved bytes.now) (λ _. ⊥) ⊥ result }
{
    let set = read_set(alloc, bytes)?;
    let api = link(alloc, &set)?;
    Ok(api)
}

/// What `bind` prints of a linked set and an input.
fn request_output<I: Source>(
    alloc: Global,
    api: &Api,
    words: Bind<'_>,
    input: &mut I,
) -> Result<Vec<u8>, Stop>
    requires { IsLinked api.now }
    ensures gives { let c = bind (bind_view words.entry) in
        Gives (λ out. OfInput (I.left input.old) (λ held. Prints api.now c held out.items)) (λ _. ⊥)
        (λ r. OfInput (I.left input.old) (λ held. Refuses api.now c held r))
        (Rose (I.faults input.old) (I.faults input.new)) result }
    ensures left { Leaves (Some (bind (bind_view words.entry))) (status_of result) (I.left input.old)
        (I.left input.new) }
    ensures later { I.faults input.old ≤ I.faults input.new }
{
    let body = read_input(alloc, input)?;
    bind_output(alloc, api, words, body.as_slice())
}

/// What the command prints of a linked set and an input.
fn api_output<I: Source>(
    alloc: Global,
    api: &Api,
    command: Command<'_>,
    input: &mut I,
) -> Result<Vec<u8>, Stop>
    requires { IsLinked api.now }
    ensures gives { let c = command_view command.entry in
        Gives (λ out. OfInput (I.left input.old) (λ held. Prints api.now c held out.items)) (λ _. ⊥)
        (λ r. OfInput (I.left input.old) (λ held. Refuses api.now c held r))
        (IsBind c × Rose (I.faults input.old) (I.faults input.new)) result }
    ensures left { Leaves (Some (command_view command.entry)) (status_of result) (I.left input.old) (I.left input.new) }
    ensures unread { (IsBind (command_view command.entry) → ⊥) → input.new ≡ input.old }
    ensures later { I.faults input.old ≤ I.faults input.new }
{
    match command {
        Command::Bind(words) => request_output(alloc, api, words, input),
        Command::Check(_) => Ok(check_text(alloc, api)?),
        Command::Routes(_) => Ok(routes_text(alloc, api)?),
    }
}

/// What the command prints.
pub(crate) fn command_output<F: Files, I: Source>(
    alloc: Global,
    command: Command<'_>,
    files: &mut F,
    input: &mut I,
) -> Result<Vec<u8>, Stop>
    ensures gives { let c = command_view command.entry in
        let told = told_file (F.contents files.old) (set_of c) in
        Gives (λ out. IfSome told (λ file. OfInput (I.left input.old) (λ held. IsOutput file held c out.items)))
        (λ f. IfSome told (λ file. IsUnserved file f))
        (λ r. IfSome told (λ file. OfInput (I.left input.old) (λ held. IsRefusedBy file held c r)))
        (FailedRead (Some c) (F.contents files.old) (Rose (F.faults files.old) (F.faults files.new))
        (Rose (I.faults input.old) (I.faults input.new))) result }
    ensures missing { IsMissing (F.contents files.old) (set_of (command_view command.entry))
        → result ≡ Err Stop.ReadFault }
    ensures left { Leaves (Some (command_view command.entry)) (status_of result) (I.left input.old) (I.left input.new) }
    ensures unread { (MayRead (Some (command_view command.entry)) (F.contents files.old) (status_of result) → ⊥)
        → input.new ≡ input.old }
    ensures later { (F.faults files.old ≤ F.faults files.new) × (I.faults input.old ≤ I.faults input.new) }
    ensures same { F.contents files.new ≡ F.contents files.old }
{
    let bytes = read_whole(alloc, files, command.set())?;
    match linked(alloc, bytes.as_slice()) {
        Ok(api) => api_output(alloc, &api, command, input),
        Err(stop) => Err(stop),
    }
}
