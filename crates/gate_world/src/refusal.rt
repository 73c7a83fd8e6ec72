//! Why a request is refused: the one table of causes, in the order in which they are tried, with the HTTP
//! status (RFC 9110, section 15), the gRPC code (google/rpc/code.proto) and the text of each.
ghost use Rattle.std.specs.Prelude.{◌≡◌, ◌++◌, OnOk, OnErr};
ghost use Rattle.base.specs.Extends.{Extends};
ghost use Rattle.gate_world.specs.Refusals.{detail_of, detail_text, refusal_text, row_of};

use crate::value_fault::ValueFault;
use base::{NoMemory, cut_back};
use itoa::Buffer;
use std::fmt;

/// Why a request is refused, in the order in which the causes are tried; `NoMemory` may come at any
/// time.
#[derive(Debug, Clone, Copy, PartialEq, Eq)]
pub enum Refusal {
    /// The request head is of no lawful form.
    HeadNotReadable,
    /// The request head is over its limit.
    HeadTooLong,
    /// The version is HTTP/1.0.
    VersionNotServed,
    /// The method is HEAD or CONNECT.
    MethodNotServed,
    /// The field Host does not stand exactly once.
    HostField,
    /// The fields that say how long the body is are not lawful.
    BodyLengthFields,
    /// No template fits the path.
    PathUnknown,
    /// Templates fit the path, and none of them for the method.
    MethodNotAllowed,
    /// The body's type or coding is not served.
    ContentType,
    /// The field grpc-timeout is not lawful.
    GrpcTimeout,
    /// The value of a path variable is wrong: which one, counted from 1, and what is wrong.
    PathValue(u32, ValueFault),
    /// A query parameter is wrong: which one, counted from 1, and what is wrong.
    QueryParameter(u32, ValueFault),
    /// The upstream cannot be reached, or takes no further call.
    UpstreamNotUsable,
    /// The body's framing is not lawful.
    BodyFraming,
    /// The body, or an element of a body that is a stream, is over its limit.
    BodyTooLong,
    /// The body's JSON or a field in it is wrong: the offset in the body, in bytes, and what is wrong.
    BodyAt(u64, ValueFault),
    /// The encoded request message is over its limit.
    MessageTooLong,
    /// Memory was asked for and not found.
    NoMemory,
}

/// Which value a refusal names, by its number or its offset, and what is wrong with it.
#[derive(Debug, Clone, Copy, PartialEq, Eq)]
pub struct Detail {
    /// The value's number, counted from 1, or its offset in bytes.
    pub at: u64,
    /// What is wrong with the value.
    pub fault: ValueFault,
}

impl fmt::Display for Detail {
    ghost use Rattle.std.specs.Prelude.{Some};
    ghost use Rattle.gate_world.specs.Refusals.{detail_text};

    ghost output = { λ detail. Some (detail_text detail) };

    fn fmt<W: fmt::Write>(&self, f: &mut fmt::Formatter<W>) -> fmt::Result {
        f.write_str(Buffer::new().format(self.at))?;
        f.write_str(": ")?;
        f.write_str(self.fault.text())
    }
}

/// One cause of the table.
#[derive(Clone, Copy)]
struct Row {
    /// Its rank among the causes, or None for the one that may come at any time.
    rank: Option<u8>,
    /// Its HTTP status.
    status: u16,
    /// Its gRPC code.
    code: u8,
    /// Its text, or what of the text stands in front of the value that it names.
    cause: &'static str,
}

/// A row of a cause that has a rank.
fn ranked(rank: u8, status: u16, code: u8, cause: &'static str) -> Row
    ensures rank { result.rank ≡ Some rank }
    ensures status { result.status ≡ status }
    ensures code { result.code ≡ code }
    ensures cause { result.cause.now ≡ cause.now }
{
    Row {
        rank: Some(rank),
        status,
        code,
        cause,
    }
}

impl Refusal {
    /// The table.
    fn row(self) -> Row
        ensures rank { result.rank ≡ (row_of self).rank }
        ensures status { result.status ≡ (row_of self).http_status }
        ensures code { result.code ≡ (row_of self).grpc_code }
        ensures cause { result.cause.now ≡ (row_of self).cause }
    {
        match self {
            Refusal::HeadNotReadable => ranked(1, 400, 3, "head not readable"),
            Refusal::HeadTooLong => ranked(2, 431, 8, "head too long"),
            Refusal::VersionNotServed => ranked(3, 505, 12, "version not served"),
            Refusal::MethodNotServed => ranked(4, 501, 12, "method not served"),
            Refusal::HostField => ranked(5, 400, 3, "host field"),
            Refusal::BodyLengthFields => ranked(6, 400, 3, "body length fields"),
            Refusal::PathUnknown => ranked(7, 404, 5, "path unknown"),
            Refusal::MethodNotAllowed => ranked(8, 405, 12, "method not allowed"),
            Refusal::ContentType => ranked(9, 415, 3, "content type"),
            Refusal::GrpcTimeout => ranked(10, 400, 3, "grpc-timeout"),
            Refusal::PathValue(_, _) => ranked(11, 400, 3, "path variable "),
            Refusal::QueryParameter(_, _) => ranked(12, 400, 3, "query parameter "),
            Refusal::UpstreamNotUsable => ranked(13, 503, 14, "upstream not usable"),
            Refusal::BodyFraming => ranked(14, 400, 3, "body framing"),
            Refusal::BodyTooLong => ranked(15, 413, 8, "body too long"),
            Refusal::BodyAt(_, _) => ranked(16, 400, 3, "body at "),
            Refusal::MessageTooLong => ranked(17, 429, 8, "message too long"),
            Refusal::NoMemory => Row {
                rank: None,
                status: 507,
                code: 8,
                cause: "out of memory",
            },
        }
    }

    /// Its rank among the causes in the order in which they are tried, counted from 1.
    pub fn rank(self) -> Option<u8>
        ensures { result ≡ (row_of self).rank }
    {
        self.row().rank
    }

    /// Its HTTP status.
    pub fn status(self) -> u16
        ensures { result ≡ (row_of self).http_status }
    {
        self.row().status
    }

    /// Its gRPC code.
    pub fn code(self) -> u8
        ensures { result ≡ (row_of self).grpc_code }
    {
        self.row().code
    }

    /// The text of its cause: all of its text, or what stands in front of the value that it names.
    pub fn cause(self) -> &'static str
        ensures { result.now ≡ (row_of self).cause }
    {
        self.row().cause
    }

    /// The value that it names, where it names one.
    pub fn detail(self) -> Option<Detail>
        ensures { result ≡ detail_of self }
    {
        match self {
            Refusal::PathValue(at, fault) => Some(Detail {
                at: u64::from(at),
                fault,
            }),
            Refusal::QueryParameter(at, fault) => Some(Detail {
                at: u64::from(at),
                fault,
            }),
            Refusal::BodyAt(at, fault) => Some(Detail { at, fault }),
            _ => None,
        }
    }

    /// Appends its text. Where memory is not found, `out` is as before.
    pub fn put_text(self, out: &mut Vec<u8>) -> Result<(), NoMemory>
        ensures ok { OnOk result (out.new.items ≡ out.old.items ++ refusal_text self) }
        ensures err { OnErr result (out.new.items ≡ out.old.items) }
    {
        let len = out.len();
        let done = write_text(out, self);
        cut_back(out, len, done)
    }
}

/// The same as `put_text`, but that a part may stand where memory is not found.
fn write_text(out: &mut Vec<u8>, refusal: Refusal) -> Result<(), NoMemory>
    ensures ok { OnOk result (out.new.items ≡ out.old.items ++ refusal_text refusal) }
    ensures err { OnErr result (Extends out.old.items out.new.items) }
{
    out.extend_from_slice(refusal.cause().as_bytes())?;
    match refusal.detail() {
        Some(detail) => write_detail(out, detail),
        None => Ok(()),
    }
}

/// Appends which value it is and what is wrong with it. Where memory is not found, a part may stand.
fn write_detail(out: &mut Vec<u8>, detail: Detail) -> Result<(), NoMemory>
    ensures ok { OnOk result (out.new.items ≡ out.old.items ++ detail_text detail) }
    ensures err { OnErr result (Extends out.old.items out.new.items) }
{
    out.extend_from_slice(Buffer::new().format(detail.at).as_bytes())?;
    out.extend_from_slice(b": ")?;
    out.extend_from_slice(detail.fault.text().as_bytes())?;
    Ok(())
}

impl fmt::Display for Refusal {
    ghost use Rattle.std.specs.Prelude.{Some};
    ghost use Rattle.gate_world.specs.Refusals.{refusal_text};

    ghost output = { λ refusal. Some (refusal_text refusal) };

    fn fmt<W: fmt::Write>(&self, f: &mut fmt::Formatter<W>) -> fmt::Result {
        f.write_str(self.cause())?;
        match self.detail() {
            Some(detail) => write!(f, "{detail}"),
            None => Ok(()),
        }
    }
}
