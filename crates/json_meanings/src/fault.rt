//! Why JSON is no value of a type (the ProtoJSON guide).

/// Why a token is refused. Where several hold at one token, the order of the variants is not the order in which they
/// count: see `fills`, `opens_array`, `opens_object` and `names_spot`.
#[derive(Clone, Copy, Debug, PartialEq, Eq)]
pub enum FieldKind {
    /// No field of the message has this name.
    UnknownKey,
    /// The field came before, by either name, or the map's key did.
    KeyTwice,
    /// Another member of the field's oneof has a value.
    OneofTwice,
    /// A token of a kind that is no value here.
    WrongShape,
    /// The text of no number, or of a number that is no integer.
    BadNumber,
    /// An integer out of the field's range.
    OutOfRange,
    /// Neither a name of the enum nor a number.
    BadEnum,
    /// A text of no value: of a bool's key, of bytes, or of a well-known type.
    BadText,
    /// Null as an item of an array or as the value of a map's entry.
    NullInside,
    /// The value would have over 100 levels.
    TooDeep,
}
