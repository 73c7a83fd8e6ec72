//! The answer to a request that is refused (RFC 9110, sections 8.3, 8.6, 10.2.1 and 15; RFC 9112, section 9.6).
ghost use Rattle.std.specs.Prelude.{◌≡◌, ◌++◌, IfOk, OnOk, OnErr};
ghost use Rattle.base.specs.Extends.{Extends};
ghost use Rattle.http.specs.StatusCode.{IsStatusCode};
ghost use Rattle.gate_world.specs.Refusals.{row_of};
ghost use Rattle.http1_answers.specs.RefusalAnswers.{allow_line, bare_answer, bare_lines, close_line, refusal_answer, refusal_body, text_lines, told_answer, told_head, told_lines};

use crate::head_lines::{write_end, write_field, write_status};
use base::{NoMemory, cut_back};
use gate_world::Refusal;
use itoa::Buffer;
use status_map::put_error;
use std::alloc::Global;

/// Appends the answer to a request that is refused: a status line, `content-type`, `content-length`, for a method that
/// is not allowed the methods that are, as `allow: GET, PUT`, `connection: close` where the connection closes, and the
/// JSON text of the error. The answer to HEAD and CONNECT has no text, and always closes. Where memory is not found,
/// `out` is as before.
pub fn put_refusal(
    alloc: Global,
    out: &mut Vec<u8>,
    refusal: Refusal,
    close: bool,
    allow: &[u8],
) -> Result<(), NoMemory>
    ensures ok { OnOk result (out.new.items ≡ out.old.items ++ refusal_answer refusal close allow.now) }
    ensures err { OnErr result (out.new.items ≡ out.old.items) }
{
    let len = out.len();
    let done = write_refusal(alloc, out, refusal, close, allow);
    cut_back(out, len, done)
}

/// The same as `put_refusal`, but that a part may stand where memory is not found.
fn write_refusal(
    alloc: Global,
    out: &mut Vec<u8>,
    refusal: Refusal,
    close: bool,
    allow: &[u8],
) -> Result<(), NoMemory>
    ensures ok { OnOk result (out.new.items ≡ out.old.items ++ refusal_answer refusal close allow.now) }
    ensures err { OnErr result (Extends out.old.items out.new.items) }
{
    match refusal {
        Refusal::MethodNotServed => write_bare(out, refusal.status()),
        _ => write_told(alloc, out, refusal, close, allow),
    }
}

/// Appends an answer without a body. Where memory is not found, a part may stand.
fn write_bare(out: &mut Vec<u8>, status: u16) -> Result<(), NoMemory>
    requires { IsStatusCode status }
    ensures ok { OnOk result (out.new.items ≡ out.old.items ++ bare_answer status) }
    ensures err { OnErr result (Extends out.old.items out.new.items) }
{
    write_status(out, status)?;
    write_bare_lines(out)?;
    Ok(())
}

/// Appends the lines behind the status line of an answer without a body. Where memory is not found, a part may stand.
fn write_bare_lines(out: &mut Vec<u8>) -> Result<(), NoMemory>
    ensures ok { OnOk result (out.new.items ≡ out.old.items ++ bare_lines) }
    ensures err { OnErr result (Extends out.old.items out.new.items) }
{
    write_field(out, b"content-length", b"0")?;
    write_field(out, b"connection", b"close")?;
    write_end(out)?;
    Ok(())
}

/// Appends an answer with the JSON text of the error. Where memory is not found, a part may stand.
fn write_told(
    alloc: Global,
    out: &mut Vec<u8>,
    refusal: Refusal,
    close: bool,
    allow: &[u8],
) -> Result<(), NoMemory>
    ensures ok { OnOk result (out.new.items ≡ out.old.items
        ++ told_answer (row_of refusal).http_status (allow_line refusal allow.now ++ close_line close)
        (refusal_body refusal)) }
    ensures err { OnErr result (Extends out.old.items out.new.items) }
{
    let body = body_text(alloc, refusal)?;
    let text = body.as_slice();
    write_head(out, refusal, close, allow, text.len())?;
    out.extend_from_slice(text)?;
    Ok(())
}

/// Appends the head of an answer with a JSON text of so many bytes. Where memory is not found, a part may stand.
fn write_head(
    out: &mut Vec<u8>,
    refusal: Refusal,
    close: bool,
    allow: &[u8],
    len: usize,
) -> Result<(), NoMemory>
    ensures ok { OnOk result (out.new.items ≡ out.old.items
        ++ told_head (row_of refusal).http_status len (allow_line refusal allow.now ++ close_line close)) }
    ensures err { OnErr result (Extends out.old.items out.new.items) }
{
    write_lines(out, refusal.status(), len)?;
    write_options(out, refusal, close, allow)?;
    write_end(out)?;
    Ok(())
}

/// The JSON text of a refusal.
fn body_text(alloc: Global, refusal: Refusal) -> Result<Vec<u8>, NoMemory>
    ensures { IfOk result (λ body. body.items ≡ refusal_body refusal) }
{
    let mut text = Vec::new(alloc);
    refusal.put_text(&mut text)?;
    let mut body = Vec::new(alloc);
    put_error(&mut body, refusal.code(), &text)?;
    Ok(body)
}

/// Appends a status line and the type and length of a JSON text. Where memory is not found, a part may stand.
fn write_lines(out: &mut Vec<u8>, status: u16, len: usize) -> Result<(), NoMemory>
    requires { IsStatusCode status }
    ensures ok { OnOk result (out.new.items ≡ out.old.items ++ told_lines status len) }
    ensures err { OnErr result (Extends out.old.items out.new.items) }
{
    write_status(out, status)?;
    write_text_lines(out, len)?;
    Ok(())
}

/// Appends the type and length of a JSON text. Where memory is not found, a part may stand.
fn write_text_lines(out: &mut Vec<u8>, len: usize) -> Result<(), NoMemory>
    ensures ok { OnOk result (out.new.items ≡ out.old.items ++ text_lines len) }
    ensures err { OnErr result (Extends out.old.items out.new.items) }
{
    write_field(out, b"content-type", b"application/json")?;
    write_field(out, b"content-length", Buffer::new().format(len).as_bytes())?;
    Ok(())
}

/// Appends the methods that are allowed and whether the connection closes. Where memory is not found, a part may stand.
fn write_options(
    out: &mut Vec<u8>,
    refusal: Refusal,
    close: bool,
    allow: &[u8],
) -> Result<(), NoMemory>
    ensures ok { OnOk result (out.new.items ≡ out.old.items ++ (allow_line refusal allow.now ++ close_line close)) }
    ensures err { OnErr result (Extends out.old.items out.new.items) }
{
    write_allow(out, refusal, allow)?;
    write_close(out, close)
}

/// Appends the methods that are allowed, where the refusal is of the method. Where memory is not found, a part may
/// stand.
fn write_allow(out: &mut Vec<u8>, refusal: Refusal, allow: &[u8]) -> Result<(), NoMemory>
    ensures ok { OnOk result (out.new.items ≡ out.old.items ++ allow_line refusal allow.now) }
    ensures err { OnErr result (Extends out.old.items out.new.items) }
{
    match refusal {
        Refusal::MethodNotAllowed => write_field(out, b"allow", allow),
        _ => Ok(()),
    }
}

/// Appends that the connection closes, where it does. Where memory is not found, a part may stand.
fn write_close(out: &mut Vec<u8>, close: bool) -> Result<(), NoMemory>
    ensures ok { OnOk result (out.new.items ≡ out.old.items ++ close_line close) }
    ensures err { OnErr result (Extends out.old.items out.new.items) }
{
    if close {
        return write_field(out, b"connection", b"close");
    }
    Ok(())
}
