//! What the answers of a router tell.
ghost use Rattle.path_router.specs.RoutableBindings.{IsRouterOf};

use base::List;
use http_rules::Binding;
use path_router::{Captures, Routed, Router};
use rows::Row;
use std::alloc::Global;
use std::io;

/// The most methods of bindings.
const MAX_METHODS: usize = 64;

/// The most requests of a row.
const MAX_REQUESTS: usize = 1_000;

/// Appends the span of each variable.
fn put_spans(alloc: Global, out: &mut String, captures: &Captures) -> io::Result<()> {
    for i in 0..captures.len() {
        if let Some(span) = captures.get(i) {
            out.push_str(format!(in alloc; " {}-{}", span.from, span.to)?.as_str())?;
        }
    }
    Ok(())
}

/// Appends the methods whose bits are set.
fn put_methods(out: &mut String, router: &Router, bits: u64) -> io::Result<()> {
    out.push_str("wrong")?;
    for number in 0..MAX_METHODS {
        if bits & 1 << number != 0 {
            let method = router.method(number).unwrap_or(b" no method");
            out.push_str(" ")?;
            out.push_str(std::str::from_utf8(method).unwrap_or("not UTF-8"))?;
        }
    }
    Ok(())
}

/// Appends the answer to a request.
fn put_answer(alloc: Global, out: &mut String, router: &Router, routed: &Routed) -> io::Result<()> {
    match routed {
        Routed::Found(index, captures) => {
            out.push_str(format!(in alloc; "found {index}")?.as_str())?;
            put_spans(alloc, out, captures)
        }
        Routed::WrongMethod(bits) => put_methods(out, router, *bits),
        Routed::NotFound => Ok(out.push_str("none")?),
    }
}

/// Appends the answer to each request of the row.
pub(crate) fn put_answers(
    alloc: Global,
    out: &mut String,
    router: &Router,
    bindings: &List<Binding>,
    row: &mut Row,
) -> io::Result<()>
    requires { IsRouterOf router.now bindings.now }
{
    for _ in 0..MAX_REQUESTS {
        if row.is_empty() {
            break;
        }
        if !out.is_empty() {
            out.push_str(" | ")?;
        }
        let method = row.bytes(alloc)?;
        let path = row.bytes(alloc)?;
        let routed = router.route(bindings, method.as_slice(), path.as_slice());
        put_answer(alloc, out, router, &routed)?;
    }
    Ok(())
}
