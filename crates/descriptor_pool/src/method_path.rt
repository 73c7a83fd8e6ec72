//! The gRPC path of a method (gRPC's PROTOCOL-HTTP2, Path).
ghost use Rattle.std.specs.Prelude.{◌≡◌, ◌++◌, IfOk, OnOk};
ghost use Rattle.std.specs.String.{string_bytes};
ghost use Rattle.base.specs.Extends.{Extends};
ghost use Rattle.descriptor_pool.specs.DeclaredNames.{in_scope};
ghost use Rattle.descriptor_pool.specs.SetMethods.{grpc_path};

use base::{NoMemory, Text};
use std::alloc::Global;
use std::marker::Model;

/// A method's gRPC path, seen by contracts as the list of its bytes: a slash, the service's full name,
/// a slash and the method's name. It is not written out before it is wanted.
#[derive(Drop)]
pub struct MethodPath<'a> {
    scope: &'a str,
    service: &'a str,
    method: &'a str,
}

impl<'a> Model for MethodPath<'a> {
    ghost use Rattle.std.specs.Prelude.{List, ℕ};
    ghost use Rattle.descriptor_pool.specs.SetMethods.{grpc_path};

    ghost Value = { List ℕ };

    ghost view = { λ p. grpc_path p.scope.now p.service.now p.method.now };
}

/// Appends the name in a scope: behind the scope and a dot, or alone where the scope is empty. Where
/// memory is not found a part of it may be appended.
#[tactic(auto, using(base::proofs::ExtendsLemmas::extends_more, base::proofs::ExtendsLemmas::extends_self))]
fn put_name(out: &mut String, scope: &str, name: &str) -> Result<(), NoMemory>
    ensures ok { OnOk result (string_bytes out.new ≡ string_bytes out.old ++ in_scope scope.now name.now) }
    ensures begins { Extends (string_bytes out.old) (string_bytes out.new) }
{
    if !scope.is_empty() {
        out.push_str(scope)?;
        out.push_str(".")?;
    }
    out.push_str(name)?;
    Ok(())
}

impl<'a> MethodPath<'a> {
    /// The path of a method of a service in a package.
    pub(crate) fn of(scope: &'a str, service: &'a str, method: &'a str) -> MethodPath<'a>
        ensures { result ≡ grpc_path scope.now service.now method.now }
    {
        MethodPath {
            scope,
            service,
            method,
        }
    }

    /// The same path. Takes no memory.
    pub fn copy(&self) -> MethodPath<'a>
        ensures { result ≡ self.now }
    {
        MethodPath {
            scope: self.scope,
            service: self.service,
            method: self.method,
        }
    }

    /// Appends it. Where memory is not found a part of it may be appended.
    #[tactic(auto, using(base::proofs::ExtendsLemmas::extends_more, base::proofs::ExtendsLemmas::extends_self))]
    pub fn put(&self, out: &mut String) -> Result<(), NoMemory>
        ensures ok { OnOk result (string_bytes out.new ≡ string_bytes out.old ++ self.now) }
        ensures begins { Extends (string_bytes out.old) (string_bytes out.new) }
    {
        out.push_str("/")?;
        put_name(out, self.scope, self.service)?;
        out.push_str("/")?;
        out.push_str(self.method)?;
        Ok(())
    }

    /// A text of its own.
    pub fn to_text(&self, alloc: Global) -> Result<Text, NoMemory>
        ensures { IfOk result (λ text. text ≡ self.now) }
    {
        let mut text = String::new(alloc);
        self.put(&mut text)?;
        Ok(Text::from_string(text))
    }
}
