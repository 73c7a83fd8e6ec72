//! Sizes of windows in bytes (RFC 9113, sections 6.9.1 and 6.9.2).

/// The largest window that there may be (RFC 9113, section 6.9.1).
pub const MAX_WINDOW_SIZE: u32 = 2_147_483_647;

/// What the connection's window and, until a SETTINGS says otherwise, each stream's begins with
/// (RFC 9113, section 6.9.2).
pub const DEFAULT_WINDOW_SIZE: u32 = 65_535;
