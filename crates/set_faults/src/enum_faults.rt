//! Which enums may be.
ghost use Rattle.std.specs.Prelude.{◌≡◌, map, IfOk};
ghost use Rattle.set_faults.specs.MessageFaults.{begins_with_zero, is_lawful_enum};

use crate::counts::distinct_len;
use base::NoMemory;
use message_types::EnumValue;
use std::alloc::Global;

/// True where the first value has the number 0.
fn begins_with_zero(values: &[EnumValue]) -> bool
    ensures { result ≡ begins_with_zero values.now }
{
    match values.first() {
        Some(value) => value.number == 0,
        None => false,
    }
}

/// The names of values.
fn value_names<'a>(alloc: Global, values: &'a [EnumValue]) -> Result<Vec<&'a [u8]>, NoMemory>
    ensures { IfOk result (λ names. map (λ n. n.now) names.items ≡ map (λ v. v.name) values.now) }
{
    let mut names = Vec::new(alloc);
    for value in values {
        names.push(value.name.as_str().as_bytes())?;
    }
    Ok(names)
}

/// True where an enum may be: it has 0 first, and no name twice.
pub(crate) fn is_lawful_enum(alloc: Global, values: &[EnumValue]) -> Result<bool, NoMemory>
    ensures { IfOk result (λ b. b ≡ is_lawful_enum values.now) }
{
    if !begins_with_zero(values) {
        return Ok(false);
    }
    Ok(distinct_len(alloc, value_names(alloc, values)?)? == values.len())
}
