//! A header field: a name and a value (RFC 9113, section 8.2; RFC 7541, section 1.3).

use crate::blob::Blob;

/// One header field, as bytes.
#[derive(Debug, Drop)]
pub struct FieldPair {
    /// The field's name.
    pub name: Blob,
    /// The field's value.
    pub value: Blob,
}
