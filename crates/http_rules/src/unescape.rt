//! Decoding of what a variable takes of a path (RFC 3986, section 2.1).
ghost use Rattle.std.specs.Prelude.{◌≡◌, ◌<◌, ◌++◌, length, slice_get, IfOk};
ghost use Rattle.percent_encoding.specs.Percent.{percent_decode};
ghost use Rattle.http_rules.specs.Template.{IsTemplate};
ghost use Rattle.http_rules.specs.PercentDecoding.{begins_slash_escape, first_escape, decode_but_slashes, is_single, variable_segments, captured};

use crate::template::{Segment, Template};
use base::{Blob, NoMemory};
use percent_encoding::percent_decode;
use std::alloc::Global;

/// The text with all escapes decoded.
fn decoded_whole(alloc: Global, text: &[u8]) -> Result<Blob, NoMemory>
    ensures { IfOk result (λ b. b ≡ percent_decode text.now) }
{
    let mut out = Vec::with_capacity(alloc, text.len())?;
    percent_decode(text).append_to(&mut out)?;
    Ok(Blob::from_vec(out))
}

fn has_slash_escape(text: &[u8]) -> bool
    ensures { result ≡ begins_slash_escape text.now }
{
    matches!(text, [b'%', b'2', b'F' | b'f', ..])
}

fn front_escape(text: &[u8]) -> Option<u8>
    ensures { result ≡ first_escape text.now }
{
    let [b'%', high, low, ..] = text else {
        return None;
    };
    let high = char::from(*high).to_digit(16)?;
    let low = char::from(*low).to_digit(16)?;
    Some(16 * high as u8 + low as u8)
}

/// Appends what the first byte or escape of the text becomes, and gives the text behind it.
fn put_front<'a>(out: &mut Vec<u8>, text: &'a [u8]) -> Result<&'a [u8], NoMemory>
    requires { 0 < length text.now }
    ensures text { IfOk result (λ rest. out.new.items ++ decode_but_slashes rest.now ≡ out.old.items ++ decode_but_slashes text.now) }
    ensures shorter { IfOk result (λ rest. length rest.now < length text.now) }
{
    if has_slash_escape(text) {
        let (escape, rest) = text.split_at(3);
        out.extend_from_slice(escape)?;
        return Ok(rest);
    }
    match front_escape(text) {
        Some(byte) => {
            out.push(byte)?;
            Ok(text.split_at(3).1)
        }
        None => {
            out.push(text[0])?;
            Ok(text.split_at(1).1)
        }
    }
}

/// The text with all escapes decoded but those of a slash.
fn decoded_but_slashes(alloc: Global, text: &[u8]) -> Result<Blob, NoMemory>
    ensures { IfOk result (λ b. b ≡ decode_but_slashes text.now) }
{
    let mut out = Vec::with_capacity(alloc, text.len())?;
    let mut rest = text;
    while !rest.is_empty() {
        rest = put_front(&mut out, rest)?;
    }
    Ok(Blob::from_vec(out))
}

fn is_single(segments: &[Segment]) -> bool
    ensures { result ≡ is_single segments.now }
{
    match segments {
        [Segment::Literal(_) | Segment::One] => true,
        _ => false,
    }
}

/// The segments that a variable takes.
#[tactic(auto, using(crate::proofs::RangeLemmas::range_within))]
fn taken_by(template: &Template, variable: u32) -> &[Segment]
    requires template { IsTemplate template.now }
    requires variable { variable < length template.now.variables }
    ensures { result.now ≡ variable_segments template.now.segments (slice_get template.now.variables variable) }
{
    let taken = &template.variables.as_slice()[variable as usize];
    &template.segments.as_slice()[taken.from as usize..taken.to as usize]
}

/// Decodes what the variable of this index, counted from 0, takes of a path. A variable of one
/// segment other than `**` is decoded whole; in any other `%2F` and `%2f` stay, so that a slash of
/// the value is not taken for one between segments. A `%` without two hexadecimal digits stays.
pub fn capture(
    alloc: Global,
    template: &Template,
    variable: u32,
    text: &[u8],
) -> Result<Blob, NoMemory>
    requires template { IsTemplate template.now }
    requires variable { variable < length template.now.variables }
    ensures { IfOk result (λ b. b ≡ captured template.now variable text.now) }
{
    if is_single(taken_by(template, variable)) {
        decoded_whole(alloc, text)
    } else {
        decoded_but_slashes(alloc, text)
    }
}
