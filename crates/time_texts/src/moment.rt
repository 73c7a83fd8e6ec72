//! What a Duration or a Timestamp holds (duration.proto, timestamp.proto).

/// The two fields of a google.protobuf.Duration, or of a google.protobuf.Timestamp, which counts from
/// 1970-01-01T00:00:00Z.
#[derive(Clone, Copy, Debug, PartialEq, Eq)]
pub struct Moment {
    /// Whole seconds.
    pub seconds: i64,
    /// Billionths of a second besides.
    pub nanos: i32,
}
