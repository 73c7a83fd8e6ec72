//! The command `bind SET METHOD TARGET`: the gRPC path and the framed messages that a request means.
ghost use Rattle.std.specs.Prelude.{◌≡◌, ◌≤◌, ◌++◌, length, IfOk, OnOk};
ghost use Rattle.std.specs.List.{AllByRecursion, flat_map};
ghost use Rattle.gateway_run.specs.CommandOutput.{IsBindOutput, IsBindRefusal, message_line, output};
ghost use Rattle.gateway_run.specs.CommandViews.{bind_view};
ghost use Rattle.gateway_run.specs.Outcomes.{Gives};
ghost use Rattle.hex.specs.Hex.{encode_lower};
ghost use Rattle.linked_api.specs.LinkedApi.{IsLinked};
ghost use Rattle.transcoding.specs.TranscodedView.{transcoded_view};

use crate::command::Bind;
use crate::status::Stop;
use base::{Blob, NoMemory};
use field_binding::laws::linked_bindings_are_routable;
use grpc_frames::frame;
use linked_api::Api;
use path_router::Router;
use std::alloc::Global;
use transcoding::{Transcoded, transcode};

/// Appends bytes in lower-case hexadecimal.
fn put_hex(alloc: Global, out: &mut Vec<u8>, bytes: &[u8]) -> Result<(), NoMemory>
    ensures { OnOk result (out.new.items ≡ out.old.items ++ encode_lower bytes.now) }
{
    let text = hex::encode(alloc, bytes)?;
    out.extend_from_slice(text.as_bytes())?;
    Ok(())
}

/// Appends the line `frame HEX` of a message.
fn put_message(alloc: Global, out: &mut Vec<u8>, message: &[u8]) -> Result<(), NoMemory>
    requires { length message.now ≤ 1048576 }
    ensures { OnOk result (out.new.items ≡ out.old.items ++ message_line message.now) }
{
    let mut framed = Vec::new(alloc);
    frame(message, &mut framed)?;
    out.extend_from_slice(b"frame ")?;
    put_hex(alloc, out, framed.as_slice())?;
    out.push(b'\n')?;
    Ok(())
}

/// Appends a line for each message.
fn put_messages(alloc: Global, out: &mut Vec<u8>, messages: &[Blob]) -> Result<(), NoMemory>
    requires { AllByRecursion (λ m. length m ≤ 1048576) messages.now }
    ensures { OnOk result (out.new.items ≡ out.old.items ++ flat_map message_line messages.now) }
{
    for message in messages {
        put_message(alloc, out, message.as_slice())?;
    }
    Ok(())
}

/// The lines `path P` and `frame HEX` of what a request means.
fn lines(alloc: Global, request: &Transcoded<'_>) -> Result<Vec<u8>, NoMemory>
    requires { AllByRecursion (λ m. length m ≤ 1048576) request.now.messages }
    ensures { IfOk result (λ out. out.items ≡ output (transcoded_view request.now)) }
{
    let mut out = Vec::new(alloc);
    out.extend_from_slice(b"path ")?;
    out.extend_from_slice(request.path.as_str().as_bytes())?;
    out.push(b'\n')?;
    put_messages(alloc, &mut out, request.messages.as_slice())?;
    Ok(out)
}

/// What the command prints of a linked set and a body.
pub(crate) fn bind_output(
    alloc: Global,
    api: &Api,
    words: Bind<'_>,
    body: &[u8],
) -> Result<Vec<u8>, Stop>
    requires { IsLinked api.now }
    ensures { Gives (λ out. IsBindOutput api.now (bind_view words.entry) body.now out.items) (λ _. ⊥) (IsBindRefusal api.now (bind_view words.entry) body.now) ⊥ result }
{
    linked_bindings_are_routable();
    let router = Router::build(alloc, &api.bindings)?;
    let method = words.method.as_bytes();
    let target = words.target.as_bytes();
    match transcode(alloc, api, &router, method, target, body) {
        Ok(request) => Ok(lines(alloc, &request)?),
        Err(refusal) => Err(Stop::from(refusal)),
    }
}
