//! What the variables of a template take of a path becomes settings (google/api/http.proto, HttpRule).
ghost use Rattle.std.specs.Prelude.{◌≡◌, ◌≢◌, ◌<◌, ◌≤◌, ℕ, Some, IfOk, length, map};
ghost use Rattle.field_binding.specs.PathReadings.{AreRead, AreReadable, IsValueReading, IsVariableReading, LieInside};
ghost use Rattle.field_binding.specs.PathSettings.{AreCapturesOf, BindsScalars, EndsAt, EndsAtScalar, IsPathBinding, text_at};
ghost use Rattle.http_rules.specs.Template.{IsTemplate};
ghost use Rattle.linked_api.specs.LinkedApi.{IsLinked};
ghost use Rattle.message_types.specs.declared.fields.Scalar.TheVariants.{Bytes, Text as text_kind};
ghost use Rattle.scalar_texts.specs.ScalarTexts.{IsScalarReading};

use crate::calls::call_of;
use crate::fault::{BindFault, ValueFault, ValueKind};
use crate::overlay::Overlay;
use crate::targets::last_field;
use base::{Blob, List, NoMemory, Text};
use field_settings::Setting;
use http_rules::{Binding, capture};
use linked_api::Api;
use path_router::Captures;
use scalar_texts::{ScalarFault, read_scalar};
use schema::{Item, Kind, Scalar, Slot, TypeId, Types};
use std::alloc::Global;

/// The most numbers on the path of a setting: each but the last is a message in the one before, and a message has at
/// most so many levels.
const MAX_NUMBERS: usize = 100;

/// The scalar kind of the field at the end of a path of numbers.
fn scalar_at(types: &Types, input: TypeId, numbers: &[u32]) -> Scalar
    requires { EndsAtScalar types.now input numbers.now }
    ensures ends { EndsAt types.now input numbers.now result }
    ensures not_bytes { result ≢ Bytes }
{
    match last_field(types, input, numbers) {
        Some(field) => match field.kind {
            Kind::One(scalar) => scalar,
            Kind::Message(_) => unreachable!(),
        },
        None => unreachable!(),
    }
}

/// The text as an item, in the block that it has.
fn text_item(types: &Types, text: Blob) -> Result<Item, ScalarFault>
    ensures { IsScalarReading types.now text_kind text result }
{
    match String::from_utf8(text.into_vec()) {
        Ok(string) => {
            let text = Text::from_string(string);
            let _utf8 = text.as_str();
            Ok(Item::Text(text))
        }
        Err(_) => Err(ScalarFault::NotUtf8),
    }
}

/// The item that a decoded text means.
fn item_of(alloc: Global, types: &Types, scalar: Scalar, text: Blob) -> Result<Item, ScalarFault>
    requires { scalar ≢ Bytes }
    ensures { IsScalarReading types.now scalar text result }
{
    match scalar {
        Scalar::Text => text_item(types, text),
        _ => read_scalar(alloc, types, scalar, text.as_slice()),
    }
}

/// A copy of numbers.
fn copy_of(alloc: Global, numbers: &[u32]) -> Result<List<u32>, NoMemory>
    ensures { IfOk result (λ copy. copy ≡ numbers.now) }
{
    Ok(List::from_vec(Vec::from_slice(alloc, numbers)?))
}

/// What a variable with these numbers on its path sets by its decoded text.
fn read_value(
    alloc: Global,
    types: &Types,
    input: TypeId,
    numbers: &[u32],
    text: Blob,
) -> Result<Setting, ValueFault>
    requires { EndsAtScalar types.now input numbers.now }
    ensures { IsValueReading types.now input numbers.now text result }
{
    if numbers.len() > MAX_NUMBERS {
        return Err(ValueFault::Wrong(ValueKind::TooDeep));
    }
    let scalar = scalar_at(types, input, numbers);
    let item = item_of(alloc, types, scalar, text)?;
    Ok(Setting {
        path: copy_of(alloc, numbers)?,
        slot: Slot::One(item),
    })
}

/// The decoded text of the variable of an index.
fn variable_text(
    alloc: Global,
    binding: &Binding,
    index: u32,
    path: &[u8],
    captures: &Captures,
) -> Result<Blob, NoMemory>
    requires template { IsTemplate binding.now.template }
    requires index { index < length binding.now.template.variables }
    requires spans { length captures.now ≡ length binding.now.template.variables }
    requires inside { LieInside path.now captures.now }
    ensures { IfOk result (λ text. text_at binding.now path.now captures.now index ≡ Some text) }
{
    match captures.get(index as usize) {
        Some(span) => {
            let taken = &path[span.from as usize..span.to as usize];
            capture(alloc, &binding.template, index, taken)
        }
        None => unreachable!(),
    }
}

/// What the variable of an index sets.
fn read_variable(
    alloc: Global,
    types: &Types,
    input: TypeId,
    binding: &Binding,
    index: u32,
    path: &[u8],
    captures: &Captures,
) -> Result<Setting, BindFault>
    requires readable { AreReadable types.now input binding.now path.now captures.now }
    requires index { index < length binding.now.paths }
    ensures { IsVariableReading types.now input binding.now path.now captures.now index result }
{
    let numbers = &binding.paths.as_slice()[index as usize];
    let text = variable_text(alloc, binding, index, path, captures)?;
    match read_value(alloc, types, input, numbers.as_slice(), text) {
        Ok(setting) => Ok(setting),
        Err(fault) => Err(fault.of_variable(index + 1)),
    }
}

/// What each variable sets, in order, up to the first at fault.
fn read_variables(
    alloc: Global,
    types: &Types,
    input: TypeId,
    binding: &Binding,
    path: &[u8],
    captures: &Captures,
) -> Result<List<Setting>, BindFault>
    requires { AreReadable types.now input binding.now path.now captures.now }
    ensures { AreRead types.now input binding.now path.now captures.now result }
{
    let mut settings = List::new(alloc);
    for index in 0..binding.paths.len() as u32 {
        let setting = read_variable(alloc, types, input, binding, index, path, captures)?;
        settings.push(setting)?;
    }
    Ok(settings)
}

/// What a path that was captured for a binding sets of its message. The first variable at fault counts.
pub fn bind_path(
    alloc: Global,
    api: &Api,
    binding: u32,
    path: &[u8],
    captures: &Captures,
) -> Result<Overlay, BindFault>
    requires linked { IsLinked api.now }
    requires binding { binding < length api.now.bindings }
    requires captures { AreCapturesOf api.now binding path.now captures.now }
    requires scalars { BindsScalars api.now binding }
    ensures { IsPathBinding api.now binding path.now captures.now result }
{
    let (bound, method) = call_of(api, binding);
    match read_variables(alloc, &api.types, method.input, bound, path, captures) {
        Ok(settings) => Ok(Overlay {
            query: List::new(alloc),
            path: settings,
        }),
        Err(fault) => Err(fault),
    }
}
