//! What the commands `check SET` and `routes SET` print of a linked set.
ghost use Rattle.std.specs.Prelude.{◌≡◌, ◌++◌, ◌∷◌, [], ℕ, List, codes, IfOk, IfSome, IsSome, OnOk};
ghost use Rattle.set_listing.specs.RouteLines.{IsBodyText, IsFieldName, IsResponseText, IsRouteLine, IsRoutesText, check_text, route_words};
ghost use Rattle.http_rules.specs.Template.{IsTemplate, joined};
ghost use Rattle.linked_api.specs.LinkedApi.{IsBindingOf, IsBodyOf, IsLinked};
ghost use Rattle.message_types.specs.Types.{field_in};

use base::NoMemory;
use http_rules::{Binding, Body, put_template};
use itoa::Buffer;
use linked_api::{Api, MethodInfo};
use message_types::{Field, find_field};
use std::alloc::Global;

/// The proto name of the field of a number.
fn field_name(fields: &[Field], number: u32) -> &str
    requires { IsSome (field_in fields.now number) }
    ensures { IsFieldName fields.now number result.now }
{
    match find_field(fields, number) {
        Some(field) => field.name.as_str(),
        None => unreachable!(),
    }
}

/// How a body is printed, of a method whose input has these fields.
fn body_text<'a>(fields: &'a [Field], body: &Body) -> &'a str
    requires { IsBodyOf fields.now body.now }
    ensures { IsBodyText fields.now body.now result.now }
{
    match body {
        Body::Nothing => "-",
        Body::Whole => "*",
        Body::Part(number) => field_name(fields, *number),
    }
}

/// How a response is printed, of a method whose output has these fields.
fn response_text(fields: &[Field], response: Option<u32>) -> &str
    requires { IfSome response (λ n. IsSome (field_in fields.now n)) }
    ensures { IsResponseText fields.now response result.now }
{
    match response {
        Some(number) => field_name(fields, number),
        None => "-",
    }
}

/// Appends a word and a space.
fn put_word(out: &mut Vec<u8>, word: &str) -> Result<(), NoMemory>
    ensures { OnOk result (out.new.items ≡ out.old.items ++ (word.now ++ 32 ∷ [])) }
{
    out.extend_from_slice(word.as_bytes())?;
    out.push(b' ')?;
    Ok(())
}

/// Appends the words of a binding with spaces between them, and a line feed.
fn put_words(
    out: &mut Vec<u8>,
    binding: &Binding,
    method: &MethodInfo,
    body: &str,
    response: &str,
) -> Result<(), NoMemory>
    requires { IsTemplate binding.now.template }
    ensures { let words = route_words binding.now method.now body.now response.now in
        OnOk result (out.new.items ≡ out.old.items ++ (joined 32 words ++ codes "\n")) }
{
    put_word(out, binding.method.as_str())?;
    put_template(out, &binding.template)?;
    out.push(b' ')?;
    put_word(out, method.path.as_str())?;
    put_word(out, body)?;
    out.extend_from_slice(response.as_bytes())?;
    out.push(b'\n')?;
    Ok(())
}

/// Appends the line of a binding.
fn put_line(out: &mut Vec<u8>, api: &Api, binding: &Binding) -> Result<(), NoMemory>
    requires { IsBindingOf api.now binding.now }
    ensures { OnOk result ((line : List ℕ)
        × IsRouteLine api.now binding.now line × (out.new.items ≡ out.old.items ++ line)) }
{
    let Some(method) = api.methods.get(binding.call as usize) else {
        unreachable!()
    };
    let body = body_text(api.types.fields(method.input), &binding.body);
    let response = response_text(api.types.fields(method.output), binding.response);
    put_words(out, binding, method, body, response)
}

/// What `routes` prints: a line for each binding, in order, as `POST /items/{name=*} /shop.Shop/Sell * -`: the HTTP
/// method, the template with each variable as `{path=segments}`, the gRPC path, the body and the response. A body is
/// `*` for the whole message, the name of a field, or `-` for none; a response is the name of a field, or `-` for the
/// whole message.
pub fn routes_text(alloc: Global, api: &Api) -> Result<Vec<u8>, NoMemory>
    requires { IsLinked api.now }
    ensures { IfOk result (λ out. IsRoutesText api.now out.items) }
{
    let mut out = Vec::new(alloc);
    for binding in api.bindings.as_slice() {
        put_line(&mut out, api, binding)?;
    }
    Ok(out)
}

/// What `check` prints: `bindings `, their number in decimal, and a line feed, as `bindings 12`.
pub fn check_text(alloc: Global, api: &Api) -> Result<Vec<u8>, NoMemory>
    ensures { IfOk result (λ out. out.items ≡ check_text api.now) }
{
    let mut buffer = Buffer::new();
    let digits = buffer.format(api.bindings.len());
    let mut out = Vec::new(alloc);
    out.extend_from_slice(b"bindings ")?;
    out.extend_from_slice(digits.as_bytes())?;
    out.extend_from_slice(b"\n")?;
    Ok(out)
}
