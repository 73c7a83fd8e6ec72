//! What is wrong with a text.

/// What is wrong with the text of a scalar.
#[derive(Debug, Clone, Copy, PartialEq, Eq)]
pub enum ScalarFault {
    /// It is not that of a bool, or spells no bytes in base64 (RFC 4648, sections 4 and 5).
    BadText,
    /// It is not that of an integer.
    BadNumber,
    /// It is that of an integer which the kind does not have.
    OutOfRange,
    /// It is neither a name of the enum nor a number.
    BadEnum,
    /// It is not UTF-8 (RFC 3629).
    NotUtf8,
    /// No memory was found for the item, which is a string or bytes. Nothing is wrong with a string's text then.
    NoMemory,
}
