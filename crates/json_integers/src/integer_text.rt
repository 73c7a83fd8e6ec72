//! What the text of a number is.

/// Which integer a text is, or why it is none that is told.
#[derive(Debug, Clone, Copy, PartialEq, Eq)]
pub enum IntegerText {
    /// It is not a number (RFC 8259, section 6).
    NotANumber,
    /// It is a number, and no integer.
    NotAnInteger,
    /// It is an integer of a magnitude past 64 bits.
    PastRange,
    /// It is this integer.
    Integer(i128),
}
