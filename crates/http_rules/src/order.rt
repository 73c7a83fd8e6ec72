//! When two templates are one route.
ghost use Rattle.std.specs.Prelude.{◌≡◌, ◌↔◌, IsTrue};
ghost use Rattle.http_rules.specs.Template.{IsSameFlat};

use crate::template::{Segment, Template};
use base::Text;

fn same_text(a: &Text, b: &Text) -> bool
    ensures { IsTrue result ↔ (a.now ≡ b.now) }
{
    a.as_str() == b.as_str()
}

fn same_segment(a: &Segment, b: &Segment) -> bool
    ensures { IsTrue result ↔ (a.now ≡ b.now) }
{
    match (a, b) {
        (Segment::Literal(x), Segment::Literal(y)) => same_text(x, y),
        (Segment::One, Segment::One) => true,
        (Segment::Rest, Segment::Rest) => true,
        _ => false,
    }
}

fn same_segments(a: &[Segment], b: &[Segment]) -> bool
    ensures { IsTrue result ↔ (a.now ≡ b.now) }
{
    if a.len() != b.len() {
        return false;
    }
    for (i, x) in a.iter().enumerate() {
        if !same_segment(x, &b[i]) {
            return false;
        }
    }
    true
}

fn same_verb(a: &Option<Text>, b: &Option<Text>) -> bool
    ensures { IsTrue result ↔ (a.now ≡ b.now) }
{
    match (a, b) {
        (Some(x), Some(y)) => same_text(x, y),
        (None, None) => true,
        _ => false,
    }
}

/// Whether the two templates are one route: equal segments and equal verbs. What their variables
/// are is no matter. Takes no memory.
pub fn same_flat(a: &Template, b: &Template) -> bool
    ensures { IsTrue result ↔ IsSameFlat a.now b.now }
{
    same_segments(a.segments.as_slice(), b.segments.as_slice()) && same_verb(&a.verb, &b.verb)
}
