//! The lines of an answer's head (RFC 9112, sections 4 and 5).
ghost use Rattle.std.specs.Prelude.{◌≡◌, ◌++◌, OnOk, OnErr};
ghost use Rattle.base.specs.Extends.{Extends};
ghost use Rattle.http.specs.StatusCode.{IsStatusCode};
ghost use Rattle.http1_answers.specs.AnswerLines.{field_line, line_end, phrase_of, status_line, status_start};

use base::NoMemory;
use http::StatusCode;
use itoa::Buffer;

/// The status of a client that closed its connection, for which RFC 9110 has no phrase.
const CLIENT_CLOSED_REQUEST: u16 = 499;

/// Appends a status line. Where memory is not found, a part may stand.
pub(crate) fn write_status(out: &mut Vec<u8>, status: u16) -> Result<(), NoMemory>
    requires { IsStatusCode status }
    ensures ok { OnOk result (out.new.items ≡ out.old.items ++ status_line status) }
    ensures err { OnErr result (Extends out.old.items out.new.items) }
{
    write_start(out, status)?;
    write_phrase(out, status)?;
    Ok(())
}

/// Appends what stands before the phrase of a status line. Where memory is not found, a part may stand.
fn write_start(out: &mut Vec<u8>, status: u16) -> Result<(), NoMemory>
    ensures ok { OnOk result (out.new.items ≡ out.old.items ++ status_start status) }
    ensures err { OnErr result (Extends out.old.items out.new.items) }
{
    out.extend_from_slice(b"HTTP/1.1 ")?;
    out.extend_from_slice(Buffer::new().format(status).as_bytes())?;
    out.extend_from_slice(b" ")?;
    Ok(())
}

/// Appends the phrase of a status, and ends the line. Where memory is not found, a part may stand.
fn write_phrase(out: &mut Vec<u8>, status: u16) -> Result<(), NoMemory>
    requires { IsStatusCode status }
    ensures ok { OnOk result (out.new.items ≡ out.old.items ++ (phrase_of status ++ line_end)) }
    ensures err { OnErr result (Extends out.old.items out.new.items) }
{
    out.extend_from_slice(phrase(status).as_bytes())?;
    write_end(out)
}

/// Ends a line, or the head. Where memory is not found, a part may stand.
pub(crate) fn write_end(out: &mut Vec<u8>) -> Result<(), NoMemory>
    ensures ok { OnOk result (out.new.items ≡ out.old.items ++ line_end) }
    ensures err { OnErr result (Extends out.old.items out.new.items) }
{
    out.extend_from_slice(b"\r\n")?;
    Ok(())
}

/// The phrase of a status; none where it has no standard one.
fn phrase(status: u16) -> &'static str
    requires { IsStatusCode status }
    ensures { result.now ≡ phrase_of status }
{
    if status == CLIENT_CLOSED_REQUEST {
        return "Client Closed Request";
    }
    match StatusCode::from_u16(status) {
        Ok(code) => match code.canonical_reason() {
            Some(text) => text,
            None => "",
        },
        Err(_) => unreachable!(),
    }
}

/// Appends a field line. Where memory is not found, a part may stand.
pub(crate) fn write_field(out: &mut Vec<u8>, name: &[u8], value: &[u8]) -> Result<(), NoMemory>
    ensures ok { OnOk result (out.new.items ≡ out.old.items ++ field_line name.now value.now) }
    ensures err { OnErr result (Extends out.old.items out.new.items) }
{
    out.extend_from_slice(name)?;
    out.extend_from_slice(b": ")?;
    out.extend_from_slice(value)?;
    out.extend_from_slice(b"\r\n")?;
    Ok(())
}
