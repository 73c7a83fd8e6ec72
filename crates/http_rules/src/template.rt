//! Templates and bindings as data (google/api/http.proto, path template syntax).

use base::{List, Text};

/// One segment of a template.
#[derive(Debug, Drop)]
pub enum Segment {
    /// A segment that is equal byte for byte.
    Literal(Text),
    /// `*`: one segment.
    One,
    /// `**`: zero or more segments, the last of a template.
    Rest,
}

/// A variable: the field that it sets, and the segments that it takes.
#[derive(Debug, Drop)]
pub struct Variable {
    /// The identifiers of the field path, as they stand between dots.
    pub path: List<Text>,
    /// The index of its first segment.
    pub from: u32,
    /// The index after its last segment.
    pub to: u32,
}

/// A template without its braces: all segments in order, and which of them a variable takes.
#[derive(Debug, Drop)]
pub struct Template {
    /// The segments, at least one.
    pub segments: List<Segment>,
    /// The variables, in the order of their segments.
    pub variables: List<Variable>,
    /// What stands behind the colon.
    pub verb: Option<Text>,
}

/// What the body of a request is read into.
#[derive(Debug, Drop)]
pub enum Body {
    /// No body.
    Nothing,
    /// The whole message.
    Whole,
    /// The field of this number.
    Part(u32),
}

/// One HTTP rule of a method, linked.
#[derive(Debug, Drop)]
pub struct Binding {
    /// The HTTP method, or `*` for any.
    pub method: Text,
    /// Which paths it takes.
    pub template: Template,
    /// For each variable the numbers of the fields on its path.
    pub paths: List<List<u32>>,
    /// What the body is.
    pub body: Body,
    /// The field of the output that is the response, if not the whole.
    pub response: Option<u32>,
    /// The index of the method that is called.
    pub call: u32,
}
