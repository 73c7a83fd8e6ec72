//! Answers rows about the choice of a route (AIP-127, google/api/http.proto).
//!
//! After the label a row has a command. `clear` takes all bindings away; `binding METHOD TEMPLATE` puts one behind
//! the others; both print how many there are. `route METHOD PATH ..` tells for each method and path the index of the
//! binding that is found and the span of each variable, or the methods of the bindings that fit, or that none fits.
//!
//! The rows are made by scripts/route_paths.py.
#![tactic(auto)]

mod answers;
mod bindings;

use answers::put_answers;
use base::{List, Text};
use bindings::{is_routable, read_bindings};
use path_router::Router;
use rows::{Answers, Row, answer_rows, kept};
use std::alloc::Global;
use std::io;

/// What answers rows: the texts of the bindings so far, a method and a template each.
#[derive(Drop)]
struct Routes {
    texts: List<(Text, Text)>,
}

/// The text that the next word spells.
fn text_of(alloc: Global, row: &mut Row) -> io::Result<Text> {
    let bytes = row.bytes(alloc)?;
    kept(Text::copy_of(
        alloc,
        std::str::from_utf8(bytes.as_slice()).unwrap_or("not UTF-8"),
    ))
}

impl Routes {
    /// Puts a binding behind the others.
    fn put(&mut self, alloc: Global, row: &mut Row) -> io::Result<()> {
        let method = text_of(alloc, row)?;
        let template = text_of(alloc, row)?;
        kept(self.texts.push((method, template)))
    }

    /// Appends the answer to each request of the row.
    fn put_routes(&self, alloc: Global, out: &mut String, row: &mut Row) -> io::Result<()> {
        let Some(bindings) = read_bindings(alloc, self.texts.as_slice())? else {
            return Ok(out.push_str("no template")?);
        };
        if !is_routable(alloc, &bindings)? {
            return Ok(out.push_str("not routable")?);
        }
        match Router::build(alloc, &bindings) {
            Ok(router) => put_answers(alloc, out, &router, &bindings, row),
            Err(_) => Err(io::Error::from(io::ErrorKind::OutOfMemory)),
        }
    }
}

impl Answers for Routes {
    fn answer(&mut self, alloc: Global, row: &mut Row) -> io::Result<String> {
        let mut out = String::new(alloc);
        match row.word() {
            "route" => {
                self.put_routes(alloc, &mut out, row)?;
                return Ok(out);
            }
            "binding" => self.put(alloc, row)?,
            "clear" => self.texts = List::new(alloc),
            _ => out.push_str("no command ")?,
        }
        out.push_str(format!(in alloc; "{}", self.texts.len())?.as_str())?;
        Ok(out)
    }
}

fn main(rt: HostRuntime) -> io::Result<()> {
    let alloc = rt.alloc();
    let texts = List::new(alloc);
    answer_rows(alloc, rt.reader(), io::writer(&rt), &mut Routes { texts })
}
