//! Where in a template a text is, byte by byte (google/api/http.proto, path template syntax).
ghost use Rattle.std.specs.Prelude.{◌≡◌};
ghost use Rattle.http_rules.specs.TemplateMachine.{class_of, ended, is_final, turn};

use Act::{CloseBare, CloseRange, EndName, EndSegment, Keep, OpenRange, Skip};
use Level::{Inner, Outer};

/// What a byte of a literal may be besides.
#[derive(Clone, Copy)]
pub(crate) enum Kind {
    /// A letter or an underscore, which begins an identifier.
    Letter,
    /// A digit.
    Digit,
    /// `.`
    Dot,
    /// `=`
    Equals,
    /// Any other mark.
    Mark,
}

/// What a byte may be in a template.
#[derive(Clone, Copy)]
pub(crate) enum Class {
    /// A byte of a literal.
    Literal(Kind),
    /// `/`
    Slash,
    /// `*`
    Star,
    /// `:`
    Colon,
    /// `{`
    Open,
    /// `}`
    Close,
    /// No byte of a template.
    Other,
}

/// Whether within the braces of a variable.
#[derive(Clone, Copy)]
pub(crate) enum Level {
    /// Outside braces.
    Outer,
    /// Behind the `=` of a variable.
    Inner,
}

/// What stands before the next byte.
#[derive(Clone, Copy)]
pub(crate) enum State {
    /// Nothing.
    Start,
    /// A slash or `=`: a segment begins.
    Segment(Level),
    /// One `*`.
    Star(Level),
    /// `**`.
    Stars(Level),
    /// A byte of a literal.
    Literal(Level),
    /// `{` or a dot: an identifier begins.
    Name,
    /// A byte of an identifier.
    Path,
    /// The `}` of a variable that does not end with `**`.
    Closed,
    /// The `}` of a variable that ends with `**`.
    ClosedRest,
    /// The colon of the verb.
    Colon,
    /// A byte of the verb.
    Verb,
}

/// Which segment has ended.
#[derive(Clone, Copy)]
pub(crate) enum Shape {
    /// `*`
    One,
    /// `**`
    Rest,
    /// The literal that was kept.
    Literal,
}

/// What a byte does to the parts read so far.
#[derive(Clone, Copy)]
pub(crate) enum Act {
    /// Nothing.
    Skip,
    /// It joins the word.
    Keep,
    /// The word ends as a name of the field path.
    EndName,
    /// So it does, and the segments of the variable begin.
    OpenRange,
    /// So it does, and the variable takes one segment.
    CloseBare,
    /// A segment ends.
    EndSegment(Shape),
    /// A segment ends, and the variable with it.
    CloseRange(Shape),
}

/// What the byte may be in a template.
pub(crate) fn class_of(byte: u8) -> Class
    ensures { result ≡ class_of byte }
{
    match byte {
        b'A'..=b'Z' | b'a'..=b'z' | b'_' => Class::Literal(Kind::Letter),
        b'0'..=b'9' => Class::Literal(Kind::Digit),
        b'.' => Class::Literal(Kind::Dot),
        b'=' => Class::Literal(Kind::Equals),
        b'-' | b'~' | b'!' | b'$' | b'&' | b'\'' | b'(' | b')' | b'+' | b',' | b';' | b'@' => {
            Class::Literal(Kind::Mark)
        }
        b'/' => Class::Slash,
        b'*' => Class::Star,
        b':' => Class::Colon,
        b'{' => Class::Open,
        b'}' => Class::Close,
        _ => Class::Other,
    }
}

/// A segment of this shape ends by the byte.
fn ended(level: Level, shape: Shape, class: Class) -> Option<(State, Act)>
    ensures { result ≡ ended level shape class }
{
    match (level, class) {
        (Outer, Class::Slash) => Some((State::Segment(level), EndSegment(shape))),
        (Outer, Class::Colon) => Some((State::Colon, EndSegment(shape))),
        (Inner, Class::Slash) => Some((State::Segment(level), EndSegment(shape))),
        (Inner, Class::Close) => Some((State::Closed, CloseRange(shape))),
        _ => None,
    }
}

/// Where a byte leads and what it does, or nothing where no template goes on so.
pub(crate) fn turn(state: State, class: Class) -> Option<(State, Act)>
    ensures { result ≡ turn state class }
{
    match (state, class) {
        (State::Start, Class::Slash) => Some((State::Segment(Outer), Skip)),
        (State::Segment(level), Class::Star) => Some((State::Star(level), Skip)),
        (State::Segment(level), Class::Literal(_)) => Some((State::Literal(level), Keep)),
        (State::Segment(Outer), Class::Open) => Some((State::Name, Skip)),
        (State::Star(level), Class::Star) => Some((State::Stars(level), Skip)),
        (State::Star(level), _) => ended(level, Shape::One, class),
        (State::Stars(Outer), Class::Colon) => Some((State::Colon, EndSegment(Shape::Rest))),
        (State::Stars(Inner), Class::Close) => Some((State::ClosedRest, CloseRange(Shape::Rest))),
        (State::Literal(level), Class::Literal(_)) => Some((State::Literal(level), Keep)),
        (State::Literal(level), _) => ended(level, Shape::Literal, class),
        (State::Name, Class::Literal(Kind::Letter)) => Some((State::Path, Keep)),
        (State::Path, Class::Literal(Kind::Letter | Kind::Digit)) => Some((State::Path, Keep)),
        (State::Path, Class::Literal(Kind::Dot)) => Some((State::Name, EndName)),
        (State::Path, Class::Literal(Kind::Equals)) => Some((State::Segment(Inner), OpenRange)),
        (State::Path, Class::Close) => Some((State::Closed, CloseBare)),
        (State::Closed, Class::Slash) => Some((State::Segment(Outer), Skip)),
        (State::Closed | State::ClosedRest, Class::Colon) => Some((State::Colon, Skip)),
        (State::Colon | State::Verb, Class::Literal(_)) => Some((State::Verb, Keep)),
        _ => None,
    }
}

/// Whether a template may end there.
pub(crate) fn is_final(state: State) -> bool
    ensures { result ≡ is_final state }
{
    matches!(
        state,
        State::Star(Outer)
            | State::Stars(Outer)
            | State::Literal(Outer)
            | State::Closed
            | State::ClosedRest
            | State::Verb
    )
}
