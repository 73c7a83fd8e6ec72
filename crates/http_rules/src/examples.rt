//! Worked examples of what variables take, decoded, of what is read, of routes, of the order of templates, and of
//! methods, as laws.
ghost use Rattle.http_rules.specs.EscapedSlashes.{DecodingExamplesHold};
ghost use Rattle.http_rules.specs.OrderExamples.{OrderExamplesHold};
ghost use Rattle.http_rules.specs.RouteExamples.{ReadingExamplesHold, RouteExamplesHold};
ghost use Rattle.http_rules.specs.Tokens.{MethodKindExamplesHold};

/// An escaped slash is decoded in a variable of one segment and stays in one of several, and nothing
/// is decoded twice: `%252F` is the text `%2F`.
pub fn decoding_examples()
    ensures { DecodingExamplesHold }
{}

/// What is read of a few texts: templates, and faults where they stand.
pub fn reading_examples()
    ensures { ReadingExamplesHold }
{}

/// Which of a few bindings are one route, and which are repeated.
pub fn route_examples()
    ensures { RouteExamplesHold }
{}

/// Which of two templates stands first.
pub fn order_examples()
    ensures { OrderExamplesHold }
{}

/// Which words are methods of a binding: `*`, and tokens of at most 32 bytes but for HEAD and CONNECT.
pub fn method_kind_examples()
    ensures { MethodKindExamplesHold }
{}
