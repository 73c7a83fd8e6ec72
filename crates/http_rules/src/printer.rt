//! Printing a template, each variable as `{path=segments}`.
ghost use Rattle.std.specs.Prelude.{◌≡◌, ◌≤◌, ◌-◌, ◌++◌, ◌∷◌, length, map, take, drop, OnOk, OnErr};
ghost use Rattle.std.specs.List.{flat_map};
ghost use Rattle.http_rules.specs.Template.{IsTemplate, AreRanges, variable_of, joined, segment_text, part_text, verb_text};
ghost use Rattle.http_rules.specs.TemplateText.{printed_parts, template_text, slashed_parts, slashed_segments, dotted_names, text_through};

use crate::template::{Segment, Template, Variable};
use base::{NoMemory, Text};

fn put_segment(out: &mut Vec<u8>, segment: &Segment) -> Result<(), NoMemory>
    ensures { OnOk result (out.new.items ≡ out.old.items ++ segment_text segment.now) }
{
    match segment {
        Segment::Literal(text) => out.extend_from_slice(text.as_str().as_bytes())?,
        Segment::One => out.push(b'*')?,
        Segment::Rest => out.extend_from_slice(b"**")?,
    }
    Ok(())
}

/// Each segment behind a slash.
pub(crate) fn put_slashed(out: &mut Vec<u8>, segments: &[Segment]) -> Result<(), NoMemory>
    ensures { OnOk result (out.new.items ≡ out.old.items ++ slashed_segments segments.now) }
{
    for segment in segments {
        out.push(b'/')?;
        put_segment(out, segment)?;
    }
    Ok(())
}

/// The segments with slashes between them.
fn put_segments(out: &mut Vec<u8>, segments: &[Segment]) -> Result<(), NoMemory>
    ensures { OnOk result (out.new.items ≡ out.old.items ++ joined 47 (map segment_text segments.now)) }
{
    if let [first, rest @ ..] = segments {
        put_segment(out, first)?;
        put_slashed(out, rest)?;
    }
    Ok(())
}

/// Each name behind a dot.
fn put_dotted(out: &mut Vec<u8>, names: &[Text]) -> Result<(), NoMemory>
    ensures { OnOk result (out.new.items ≡ out.old.items ++ dotted_names names.now) }
{
    for name in names {
        out.push(b'.')?;
        out.extend_from_slice(name.as_str().as_bytes())?;
    }
    Ok(())
}

/// The names with dots between them.
fn put_path(out: &mut Vec<u8>, names: &[Text]) -> Result<(), NoMemory>
    ensures { OnOk result (out.new.items ≡ out.old.items ++ joined 46 names.now) }
{
    if let [first, rest @ ..] = names {
        out.extend_from_slice(first.as_str().as_bytes())?;
        put_dotted(out, rest)?;
    }
    Ok(())
}

fn put_variable(
    out: &mut Vec<u8>,
    variable: &Variable,
    segments: &[Segment],
) -> Result<(), NoMemory>
    ensures { OnOk result (out.new.items ≡ out.old.items ++ 47 ∷ part_text (variable_of variable.now.path segments.now)) }
{
    out.extend_from_slice(b"/{")?;
    put_path(out, variable.path.as_slice())?;
    out.push(b'=')?;
    put_segments(out, segments)?;
    out.push(b'}')?;
    Ok(())
}

fn range(segments: &[Segment], from: u32, to: u32) -> &[Segment]
    requires order { from ≤ to }
    requires within { to ≤ length segments.now }
    ensures { result.now ≡ take (to - from) (drop from segments.now) }
{
    &segments[from as usize..to as usize]
}

/// The segments from an index up to a variable, and the variable.
fn put_through(
    out: &mut Vec<u8>,
    segments: &[Segment],
    from: u32,
    variable: &Variable,
) -> Result<(), NoMemory>
    requires front { from ≤ variable.now.from }
    requires order { variable.now.from ≤ variable.now.to }
    requires within { variable.now.to ≤ length segments.now }
    ensures { OnOk result (out.new.items ≡ out.old.items ++ text_through segments.now from variable.now) }
{
    put_slashed(out, range(segments, from, variable.from))?;
    put_variable(out, variable, range(segments, variable.from, variable.to))
}

/// The segments, with the variables among them.
fn put_parts(
    out: &mut Vec<u8>,
    segments: &[Segment],
    variables: &[Variable],
) -> Result<(), NoMemory>
    requires { AreRanges 0 variables.now (length segments.now) }
    ensures { OnOk result (out.new.items ≡ out.old.items ++ slashed_parts (printed_parts 0 segments.now variables.now)) }
{
    let mut from = 0;
    for variable in variables {
        put_through(out, segments, from, variable)?;
        from = variable.to;
    }
    put_slashed(out, &segments[from as usize..])
}

/// The verb behind its colon, if there is one.
pub(crate) fn put_verb(out: &mut Vec<u8>, verb: &Option<Text>) -> Result<(), NoMemory>
    ensures { OnOk result (out.new.items ≡ out.old.items ++ verb_text verb.now) }
{
    if let Some(text) = verb {
        out.push(b':')?;
        out.extend_from_slice(text.as_str().as_bytes())?;
    }
    Ok(())
}

/// Appends the text of a template, with each variable as `{path=segments}`. That text means the
/// same template. Where memory runs out, nothing is appended.
#[tactic(auto, using(crate::proofs::RangeLemmas::ranges_of))]
pub fn put_template(out: &mut Vec<u8>, template: &Template) -> Result<(), NoMemory>
    requires { IsTemplate template.now }
    ensures ok { OnOk result (out.new.items ≡ out.old.items ++ template_text template.now) }
    ensures err { OnErr result (out.new.items ≡ out.old.items) }
{
    let mut text = Vec::new(*out.allocator());
    put_parts(
        &mut text,
        template.segments.as_slice(),
        template.variables.as_slice(),
    )?;
    put_verb(&mut text, &template.verb)?;
    out.extend_from_slice(text.as_slice())?;
    Ok(())
}
