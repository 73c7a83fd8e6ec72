//! The constants of HTTP/2 frames, by their names in RFC 9113.

/// The bytes of a frame's head (RFC 9113, section 4.1).
pub const FRAME_HEAD_BYTES: u32 = 9;

/// The largest payload in bytes until a SETTINGS says otherwise: the initial value of
/// SETTINGS_MAX_FRAME_SIZE (RFC 9113, sections 4.2 and 6.5.2). This end never raises it.
pub const MAX_FRAME_SIZE: u32 = 16_384;

/// The stream of frames for the whole connection (RFC 9113, section 5.1.1).
pub const CONNECTION_STREAM: u32 = 0;

// Frame types (RFC 9113, section 6).

/// Data of a stream (RFC 9113, section 6.1).
pub const DATA: u8 = 0x00;
/// Begins a field block (RFC 9113, section 6.2).
pub const HEADERS: u8 = 0x01;
/// Deprecated, and without effect (RFC 9113, section 6.3).
pub const PRIORITY: u8 = 0x02;
/// Ends a stream at once (RFC 9113, section 6.4).
pub const RST_STREAM: u8 = 0x03;
/// Parameters of the connection, or their acknowledgement (RFC 9113, section 6.5).
pub const SETTINGS: u8 = 0x04;
/// Server push, which does not come (RFC 9113, section 6.6).
pub const PUSH_PROMISE: u8 = 0x05;
/// A round trip, or its answer (RFC 9113, section 6.7).
pub const PING: u8 = 0x06;
/// The last stream that is processed (RFC 9113, section 6.8).
pub const GOAWAY: u8 = 0x07;
/// An increment of a window (RFC 9113, section 6.9).
pub const WINDOW_UPDATE: u8 = 0x08;
/// Goes on with a field block (RFC 9113, section 6.10).
pub const CONTINUATION: u8 = 0x09;

// Flags, each of some frame types.

/// The sender's last DATA or HEADERS of a stream (RFC 9113, sections 6.1 and 6.2).
pub const END_STREAM: u8 = 0x01;
/// An acknowledgement: SETTINGS and PING (RFC 9113, sections 6.5 and 6.7).
pub const ACK: u8 = 0x01;
/// The end of a field block: HEADERS and CONTINUATION (RFC 9113, sections 6.2 and 6.10).
pub const END_HEADERS: u8 = 0x04;
/// A pad length and padding: DATA and HEADERS (RFC 9113, sections 6.1 and 6.2).
pub const PADDED: u8 = 0x08;
/// The flag PRIORITY: priority fields of HEADERS (RFC 9113, section 6.2).
pub const PRIORITY_FLAG: u8 = 0x20;

// Settings (RFC 9113, section 6.5.2).

/// The size in bytes of the table that this end's decoder may be asked to keep.
pub const SETTINGS_HEADER_TABLE_SIZE: u16 = 0x01;
/// Whether PUSH_PROMISE may come.
pub const SETTINGS_ENABLE_PUSH: u16 = 0x02;
/// How many streams may be open at once.
pub const SETTINGS_MAX_CONCURRENT_STREAMS: u16 = 0x03;
/// The size in bytes of a new stream's window.
pub const SETTINGS_INITIAL_WINDOW_SIZE: u16 = 0x04;
/// The largest payload in bytes.
pub const SETTINGS_MAX_FRAME_SIZE: u16 = 0x05;
/// The size in bytes of a field section.
pub const SETTINGS_MAX_HEADER_LIST_SIZE: u16 = 0x06;

// Error codes (RFC 9113, section 7).

/// No error: a shutdown, or a stream that is not needed.
pub const NO_ERROR: u32 = 0x00;
/// Another rule of the protocol is broken.
pub const PROTOCOL_ERROR: u32 = 0x01;
/// An error of the implementation.
pub const INTERNAL_ERROR: u32 = 0x02;
/// A window is exceeded or too large.
pub const FLOW_CONTROL_ERROR: u32 = 0x03;
/// SETTINGS was not acknowledged in time.
pub const SETTINGS_TIMEOUT: u32 = 0x04;
/// A frame for a half-closed stream.
pub const STREAM_CLOSED: u32 = 0x05;
/// A frame of a wrong size.
pub const FRAME_SIZE_ERROR: u32 = 0x06;
/// The stream was not processed.
pub const REFUSED_STREAM: u32 = 0x07;
/// The stream is no longer needed.
pub const CANCEL: u32 = 0x08;
/// The header table can no longer be kept.
pub const COMPRESSION_ERROR: u32 = 0x09;
/// The connection of a CONNECT failed.
pub const CONNECT_ERROR: u32 = 0x0a;
/// The peer asks for too much.
pub const ENHANCE_YOUR_CALM: u32 = 0x0b;
/// The transport is not secure enough.
pub const INADEQUATE_SECURITY: u32 = 0x0c;
/// HTTP/1.1 is wanted.
pub const HTTP_1_1_REQUIRED: u32 = 0x0d;
