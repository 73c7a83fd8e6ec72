//! The JSON name of a field (the ProtoJSON guide).
ghost use Rattle.std.specs.Prelude.{◌≡◌, map, IfOk};
ghost use Rattle.descriptor_pool.specs.JsonFieldNames.{camel_name, cased, json_of};

use base::{NoMemory, Text};
use descriptors::FieldInfo;
use std::alloc::Global;

/// The character, in upper case where it follows an underscore.
fn cased(is_after_underscore: bool, c: char) -> char
    ensures { result ≡ cased is_after_underscore c }
{
    if is_after_underscore {
        c.to_ascii_uppercase()
    } else {
        c
    }
}

/// The name without underscores, where a lower-case letter that follows an underscore becomes upper
/// case.
fn camel_name(alloc: Global, name: &str) -> Result<Text, NoMemory>
    ensures { IfOk result (λ json. json ≡ camel_name name.now) }
{
    let mut json = Text::new(alloc);
    let mut is_after_underscore = false;
    for c in name.chars() {
        if c == '_' {
            is_after_underscore = true;
        } else {
            json.push(cased(is_after_underscore, c))?;
            is_after_underscore = false;
        }
    }
    Ok(json)
}

/// The JSON name of a field: the declared one, or that which its name gives.
pub fn json_of(alloc: Global, field: &FieldInfo) -> Result<Text, NoMemory>
    ensures { IfOk result (λ json. json ≡ json_of field.now) }
{
    match &field.json_name {
        Some(json) => Text::copy_of(alloc, json.as_str()),
        None => camel_name(alloc, field.name.as_str()),
    }
}

/// The JSON names of fields.
pub fn json_names_of(alloc: Global, fields: &[FieldInfo]) -> Result<Vec<Text>, NoMemory>
    ensures { IfOk result (λ names. names.items ≡ map json_of fields.now) }
{
    let mut names = Vec::new(alloc);
    for field in fields {
        names.push(json_of(alloc, field)?)?;
    }
    Ok(names)
}
