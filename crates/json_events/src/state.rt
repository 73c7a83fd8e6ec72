//! What the reader keeps of a text that has not ended.
//!
//! ```text
//! Want:   Value ─▶ After          a scalar, or a value's closing bracket
//!         FirstItem, FirstKey     behind an opening bracket
//!         FirstKey, Key ─▶ Colon ─▶ Value
//!         After ─▶ Value, Key     behind a comma
//! number: Minus ─▶ Zero, Whole ─▶ Point ─▶ Fraction ─▶ Exponent ─▶ Sign ─▶ Power
//! ```

/// The two kinds of brackets (RFC 8259, section 2).
#[derive(Clone, Copy, Debug, PartialEq, Eq)]
pub(crate) enum Bracket {
    /// Square brackets, around the items of an array.
    Array,
    /// Curly brackets, around the members of an object.
    Object,
}

/// A literal name (RFC 8259, section 3).
#[derive(Clone, Copy, Debug, PartialEq, Eq)]
pub(crate) enum Name {
    /// `true`
    True,
    /// `false`
    False,
    /// `null`
    Null,
}

/// What has to come next.
#[derive(Clone, Copy, Debug, PartialEq, Eq)]
pub(crate) enum Want {
    /// A value.
    Value,
    /// A value, or the end of the array that has just begun.
    FirstItem,
    /// A key, or the end of the object that has just begun.
    FirstKey,
    /// A key.
    Key,
    /// The colon behind a key.
    Colon,
    /// What may follow a value.
    After,
}

/// How far a string has come (RFC 8259, section 7).
#[derive(Clone, Copy, Debug, PartialEq, Eq)]
pub(crate) enum StringState {
    /// Between two characters.
    Plain,
    /// Inside a character of two to four bytes: the least and the greatest next byte, and how many
    /// bytes follow that one.
    Continuation(u8, u8, u8),
    /// Behind a reverse solidus.
    Escape,
    /// Inside the digits behind `\u`: how many are to come, and the number of those that came.
    Hex(u8, u32),
    /// Behind the first half of a surrogate pair, which is given: a reverse solidus has to come.
    LowSolidus(u32),
    /// Behind that reverse solidus.
    LowU(u32),
    /// Inside the digits of the second half, as in `Hex`, with the first half before them.
    Low(u32, u8, u32),
    /// Behind the closing quotation mark.
    Closed,
}

/// How far a word has come: what stands between white space.
#[derive(Clone, Copy, Debug, PartialEq, Eq)]
pub(crate) enum WordState {
    /// An opening bracket.
    Open(Bracket),
    /// A closing bracket.
    Close(Bracket),
    /// A comma.
    Comma,
    /// A colon.
    Colon,
    /// A literal name, of which so many bytes came.
    Literal(Name, u8),
    /// A string, behind its opening quotation mark.
    Inside(StringState),
    /// A number up to its minus.
    Minus,
    /// A number whose integer part is 0.
    Zero,
    /// Inside another integer part.
    Whole,
    /// Behind the decimal point.
    Point,
    /// Inside the digits behind it.
    Fraction,
    /// Behind the letter of the exponent.
    Exponent,
    /// Behind the sign of the exponent.
    Sign,
    /// Inside the digits of the exponent.
    Power,
}

/// A mark of a text without what it holds.
#[derive(Clone, Copy, Debug, PartialEq, Eq)]
pub(crate) enum Kind {
    /// An opening bracket.
    Opening(Bracket),
    /// A closing bracket.
    Closing(Bracket),
    /// A comma.
    Separator,
    /// A colon.
    Between,
    /// A key.
    Naming,
    /// A value without brackets.
    Scalar,
}

/// What a mark does to the brackets around.
#[derive(Clone, Copy, Debug, PartialEq, Eq)]
pub(crate) enum Turn {
    /// They stay, and this is wanted.
    Stay(Want),
    /// One comes around.
    Push(Bracket, Want),
    /// The inmost is left.
    Pop(Want),
    /// The mark may not come here.
    Refuse,
}
