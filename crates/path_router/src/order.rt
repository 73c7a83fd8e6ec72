//! Which of two bindings comes first.
ghost use Rattle.std.specs.Prelude.{◌≡◌, ◌↔◌, ◌∷◌, [], IsTrue};
ghost use Rattle.http_rules.specs.TemplateOrder.{IsTemplateBefore, StandBefore, front_rank, verb_rank};
ghost use Rattle.path_router.specs.RouteChoice.{Precedes, Serves, method_rank};

use http_rules::{Binding, Segment, Template};

/// True where two segments are equal.
fn is_same(a: &Segment, b: &Segment) -> bool
    ensures { IsTrue result ↔ (a.now ≡ b.now) }
{
    match (a, b) {
        (Segment::Literal(l), Segment::Literal(m)) => l.as_str() == m.as_str(),
        (Segment::One, Segment::One) => true,
        (Segment::Rest, Segment::Rest) => true,
        _ => false,
    }
}

/// The place of a segment at one position of two templates.
fn segment_rank(segment: &Segment) -> u8
    ensures { result ≡ front_rank (segment.now ∷ []) }
{
    match segment {
        Segment::Literal(_) => 1,
        Segment::One => 2,
        Segment::Rest => 3,
    }
}

/// True where segments stand before others.
fn stand_before(a: &[Segment], b: &[Segment]) -> bool
    ensures { IsTrue result ↔ StandBefore a.now b.now }
{
    for (i, x) in a.iter().enumerate() {
        let Some(y) = b.get(i) else {
            return false;
        };
        if !is_same(x, y) {
            return segment_rank(x) < segment_rank(y);
        }
    }
    a.len() < b.len()
}

/// The place of a template by its verb.
fn verb_rank(template: &Template) -> u8
    ensures { result ≡ verb_rank template.now }
{
    if template.verb.is_some() { 0 } else { 1 }
}

/// True where a template stands before another.
fn is_template_before(a: &Template, b: &Template) -> bool
    ensures { IsTrue result ↔ IsTemplateBefore a.now b.now }
{
    let (own, other) = (verb_rank(a), verb_rank(b));
    own < other || (own == other && stand_before(a.segments.as_slice(), b.segments.as_slice()))
}

/// The place of a binding by its method.
fn method_rank(method: &[u8], binding: &Binding) -> u8
    ensures { result ≡ method_rank method.now binding.now }
{
    if binding.method.as_str().as_bytes() == method {
        0
    } else {
        1
    }
}

/// True where a binding precedes another for this method.
pub(crate) fn precedes(method: &[u8], a: &Binding, b: &Binding) -> bool
    ensures { IsTrue result ↔ Precedes method.now a.now b.now }
{
    let (own, other) = (method_rank(method, a), method_rank(method, b));
    own < other || (own == other && is_template_before(&a.template, &b.template))
}

/// True where a binding serves the method.
pub(crate) fn serves(method: &[u8], binding: &Binding) -> bool
    ensures { IsTrue result ↔ Serves method.now binding.now }
{
    let own = binding.method.as_str();
    own.as_bytes() == method || own == "*"
}
