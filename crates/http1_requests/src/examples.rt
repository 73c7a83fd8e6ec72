//! Worked examples of heads, of bodies and of the requests of a connection, as laws.
ghost use Rattle.http1_requests.specs.HeadExamples.{RequestLinesAreJudged, TargetsAreText, HostsAreCounted, LengthsAreRead, OptionsAreRead, FieldsAreCounted};
ghost use Rattle.http1_requests.specs.RequestExamples.{CountedBodiesAreRead, ChunksAreRead, TrailersAreRead, EmptyLinesAreSkipped, LimitsAreKept};

/// Methods have their case: `get` is a method and `head` is served, as HEAD and CONNECT are not.
/// HTTP/1.0 comes before the method, and the method before Host. What the grammar does not have is
/// not readable.
pub fn request_lines_are_judged()
    ensures { RequestLinesAreJudged }
{}

/// A target that is not UTF-8 is not readable.
pub fn targets_are_text()
    ensures { TargetsAreText }
{}

/// The field Host stands once, and may be empty.
pub fn hosts_are_counted()
    ensures { HostsAreCounted }
{}

/// `Content-Length: 0` is a length. 19 digits, a sign, a list, a length that stands twice, both
/// fields and `gzip, chunked` are refused.
pub fn lengths_are_read()
    ensures { LengthsAreRead }
{}

/// Each field Connection and each field Expect counts: `close` among parts between commas,
/// `100-continue` as a whole value.
pub fn options_are_read()
    ensures { OptionsAreRead }
{}

/// 64 fields are read. A head of 65 is refused for that before its method, its lengths and its
/// grammar count.
pub fn fields_are_counted()
    ensures { FieldsAreCounted }
{}

/// A body with a length ends with its last byte. A client that ends inside a body breaks its
/// framing; inside a head, or between requests, its end shows nothing.
pub fn counted_bodies_are_read()
    ensures { CountedBodiesAreRead }
{}

/// Chunks with sizes of up to 16 hexadecimal digits and with extensions; a size line that is
/// refused, a line feed alone behind it, and what stands behind the data.
pub fn chunks_are_read()
    ensures { ChunksAreRead }
{}

/// A trailer section of up to 64 fields is read and dropped; a line feed alone behind `0` ends it.
pub fn trailers_are_read()
    ensures { TrailersAreRead }
{}

/// Empty lines before and between requests are skipped, and line feeds alone end lines; a CR alone
/// does not.
pub fn empty_lines_are_skipped()
    ensures { EmptyLinesAreSkipped }
{}

/// A head of 16,384 bytes is read, with the empty lines before it and the one that ends it. 65
/// field lines show nothing before the head ends.
pub fn limits_are_kept()
    ensures { LimitsAreKept }
{}
