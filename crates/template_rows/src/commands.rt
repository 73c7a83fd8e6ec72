//! What the commands tell.

use http_rules::{Template, TemplateFault, capture, parse_template, put_template, same_flat};
use rows::{Row, kept, shown};
use std::alloc::Global;
use std::io;

/// Appends where a text is refused.
fn put_fault(alloc: Global, out: &mut String, fault: TemplateFault) -> io::Result<()> {
    match fault {
        TemplateFault::Syntax(offset) => out.push_str(format!(in alloc; "at {offset}")?.as_str())?,
        TemplateFault::TooMany => out.push_str("many")?,
        TemplateFault::NoMemory => out.push_str("no memory")?,
    }
    Ok(())
}

/// Appends the printed template, or where it is refused.
pub(crate) fn put_printed(alloc: Global, out: &mut String, text: &str) -> io::Result<()> {
    match parse_template(alloc, text) {
        Ok(template) => {
            let mut printed = Vec::new(alloc);
            kept(put_template(&mut printed, &template))?;
            Ok(out.push_str(shown(alloc, printed.as_slice())?.as_str())?)
        }
        Err(fault) => put_fault(alloc, out, fault),
    }
}

/// Appends the text of the fault.
pub(crate) fn put_fault_text(alloc: Global, out: &mut String, text: &str) -> io::Result<()> {
    match parse_template(alloc, text) {
        Ok(_) => out.push_str("no fault")?,
        Err(fault) => out.push_str(format!(in alloc; "{fault}")?.as_str())?,
    }
    Ok(())
}

/// Whether two templates are one route, asked in both orders.
fn route_word(one: &Template, other: &Template) -> &'static str {
    match (same_flat(one, other), same_flat(other, one)) {
        (true, true) => "same",
        (false, false) => "other",
        _ => "one order alone",
    }
}

/// Appends whether a text and that of the next word are one route.
pub(crate) fn put_route(
    alloc: Global,
    out: &mut String,
    one: &str,
    row: &mut Row,
) -> io::Result<()> {
    let other = row.bytes(alloc)?;
    let other = std::str::from_utf8(other.as_slice()).unwrap_or("not UTF-8");
    match (parse_template(alloc, one), parse_template(alloc, other)) {
        (Ok(one), Ok(other)) => out.push_str(route_word(&one, &other))?,
        _ => out.push_str("no template")?,
    }
    Ok(())
}

/// Appends what the variable of the index that is the next word takes of the word behind it.
pub(crate) fn put_capture(
    alloc: Global,
    out: &mut String,
    text: &str,
    row: &mut Row,
) -> io::Result<()> {
    let index: u32 = row.word().parse().unwrap_or(0);
    let taken = row.bytes(alloc)?;
    let template = match parse_template(alloc, text) {
        Ok(template) => template,
        Err(fault) => return put_fault(alloc, out, fault),
    };
    if index as usize >= template.variables.len() {
        return Ok(out.push_str("no variable")?);
    }
    let bytes = kept(capture(alloc, &template, index, taken.as_slice()))?;
    Ok(out.push_str(shown(alloc, bytes.as_slice())?.as_str())?)
}

/// Appends the number of segments, each variable with its range, and the verb.
fn put_template_parts(alloc: Global, out: &mut String, template: &Template) -> io::Result<()> {
    out.push_str(format!(in alloc; "{}", template.segments.len())?.as_str())?;
    for variable in template.variables.as_slice() {
        let mut sign = " ";
        for name in variable.path.as_slice() {
            out.push_str(sign)?;
            out.push_str(name.as_str())?;
            sign = ".";
        }
        out.push_str(format!(in alloc; " {}..{}", variable.from, variable.to)?.as_str())?;
    }
    if let Some(verb) = &template.verb {
        out.push_str(" :")?;
        out.push_str(verb.as_str())?;
    }
    Ok(())
}

/// Appends the parts of a template.
pub(crate) fn put_parts(alloc: Global, out: &mut String, text: &str) -> io::Result<()> {
    match parse_template(alloc, text) {
        Ok(template) => put_template_parts(alloc, out, &template),
        Err(fault) => put_fault(alloc, out, fault),
    }
}
