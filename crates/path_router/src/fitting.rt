//! Whether a path fits a template, and what its variables take of it.
ghost use Rattle.std.specs.Prelude.{◌≡◌, ◌<◌, ◌≤◌, ◌++◌, ◌∷◌, ◌^◌, ℕ, List, length, map, IsTrue, ◌↔◌, MatchOption};
ghost use Rattle.http_rules.specs.Template.{IsTemplate, verb_text};
ghost use Rattle.http_rules.specs.TemplateMatch.{Fits, IsPath, Matches, span_of};
ghost use Rattle.path_router.specs.PathSegments.{FitsBody, TakeAll, shares_of};
ghost use Rattle.path_router.specs.RouteChoice.{ends_of};

use crate::captures::{Captures, Span};
use crate::pieces::{offset_behind, take_all};
use base::Text;
use http_rules::{Template, Variable, laws};

/// True where a text is a colon and the name.
fn is_verb(text: &[u8], name: &[u8]) -> bool
    ensures { IsTrue result ↔ (text.now ≡ 58 ∷ name.now) }
{
    match text.split_first() {
        Some((colon, verb)) => *colon == b':' && verb == name,
        None => false,
    }
}

/// What stands before a colon and the name at the end of a path, or None where the path has another end.
fn before_name<'a>(name: &[u8], path: &'a [u8]) -> Option<&'a [u8]>
    ensures { MatchOption result ((body : List ℕ) → path.now ≡ body ++ 58 ∷ name.now → ⊥)
        (λ body. path.now ≡ body.now ++ 58 ∷ name.now) }
{
    let behind_colon = path.len().checked_sub(name.len())?;
    let colon = behind_colon.checked_sub(1)?;
    let (body, end) = path.split_at(colon);
    if is_verb(end, name) { Some(body) } else { None }
}

/// What stands before the verb at the end of a path, or None where the path has another end.
fn before_verb<'a>(verb: &Option<Text>, path: &'a [u8]) -> Option<&'a [u8]>
    ensures { MatchOption result ((body : List ℕ) → path.now ≡ body ++ verb_text verb.now → ⊥)
        (λ body. path.now ≡ body.now ++ verb_text verb.now) }
{
    match verb {
        None => Some(path),
        Some(verb) => before_name(verb.as_str().as_bytes(), path),
    }
}

/// The part of a path before the verb, where the template fits the path.
fn fitting_body<'a>(template: &Template, path: &'a [u8]) -> Option<&'a [u8]>
    requires { IsTemplate template.now }
    ensures { MatchOption result (Fits template.now path.now → ⊥) (λ body. FitsBody template.now path.now body.now) }
{
    if path.len() >= 1 << 32 {
        return None;
    }
    let body = before_verb(&template.verb, path)?;
    if template.verb.is_some() && body.is_empty() {
        return None;
    }
    if take_all(template.segments.as_slice(), body) {
        Some(body)
    } else {
        None
    }
}

/// What a variable takes of the part of a path before the verb.
fn span_in(template: &Template, variable: &Variable, body: &[u8]) -> Span
    requires template { IsTemplate template.now }
    requires path { IsPath body.now }
    requires from { variable.now.from < variable.now.to }
    requires to { variable.now.to ≤ length template.now.segments }
    ensures { (taken : TakeAll template.now.segments body.now)
        → ends_of result ≡ span_of (shares_of template.now.segments taken.0) variable.now }
{
    let from = offset_behind(body, variable.from);
    let to = if (variable.to as usize) < template.segments.len() {
        offset_behind(body, variable.to)
    } else {
        body.len()
    };
    Span {
        from: (from + 1).min(to) as u32,
        to: to as u32,
    }
}

/// What the variables take of the part of a path before the verb.
fn captures_in(template: &Template, body: &[u8]) -> Captures
    requires template { IsTemplate template.now }
    requires path { IsPath body.now }
    ensures { (taken : TakeAll template.now.segments body.now)
        → map ends_of result ≡ map (span_of (shares_of template.now.segments taken.0)) template.now.variables }
{
    laws::variables_take_segments();
    let mut captures = Captures::new();
    for variable in template.variables.as_slice() {
        captures.push(span_in(template, variable, body));
    }
    captures
}

/// What the variables of a template take of a path, or None where the template does not fit it. Takes no memory. A
/// path of 2^32 bytes and more fits no template.
pub fn fit(template: &Template, path: &[u8]) -> Option<Captures>
    requires { IsTemplate template.now }
    ensures { MatchOption result (Fits template.now path.now → ⊥)
        (λ spans. Matches template.now path.now (map ends_of spans)) }
{
    let body = fitting_body(template, path)?;
    Some(captures_in(template, body))
}

/// True where a template fits a path. Takes no memory.
pub(crate) fn fits(template: &Template, path: &[u8]) -> bool
    requires { IsTemplate template.now }
    ensures { IsTrue result ↔ Fits template.now path.now }
{
    fitting_body(template, path).is_some()
}
