//! Routers.
ghost use Rattle.std.specs.Prelude.{◌≡◌, List, slice_get, IfOk};
ghost use Rattle.std.specs.Option.{option_copied};
ghost use Rattle.http_rules.specs.declared.template.Binding.{Binding};
ghost use Rattle.path_router.specs.BindingMethods.{methods_of};
ghost use Rattle.path_router.specs.RouteChoice.{IsChoice};
ghost use Rattle.path_router.specs.declared.routed.Routed.{Routed};

use crate::laws;
use crate::methods::{copies, methods_in, numbers_in};
use crate::routed::Routed;
use crate::search::{first_served, found, refused};
use base::{List, NoMemory, Text};
use http_rules::Binding;
use std::alloc::Global;

/// What chooses among bindings. It holds none of them: `route` is given the list that it was built from.
#[derive(Debug, Drop)]
pub struct Router {
    /// The methods of the bindings in the order of their bytes, each once.
    methods: List<Text>,
    /// For each binding the index of its method.
    numbers: List<u8>,
}

impl Router {
    ghost use Rattle.path_router.specs.RoutableBindings.{AreRoutable, IsRouterOf};

    /// The router of these bindings.
    pub fn build(alloc: Global, bindings: &List<Binding>) -> Result<Router, NoMemory>
        requires { AreRoutable bindings.now }
        ensures { IfOk result (λ router. IsRouterOf router bindings.now) }
    {
        let bindings = bindings.as_slice();
        let methods = methods_in(alloc, bindings)?;
        let numbers = numbers_in(alloc, methods.as_slice(), bindings)?;
        let methods = copies(alloc, methods.as_slice())?;
        Ok(Router { methods, numbers })
    }

    /// The answer to a request of this method and path, among the bindings that the router was built from. Takes no
    /// memory. A path of 2^32 bytes and more is not found.
    pub fn route(&self, bindings: &List<Binding>, method: &[u8], path: &[u8]) -> Routed
        requires { IsRouterOf self.now bindings.now }
        ensures choice { IsChoice bindings.now method.now path.now result }
        ensures only { (r : Routed) → IsChoice bindings.now method.now path.now r → r ≡ result }
    {
        laws::one_choice();
        let bindings = bindings.as_slice();
        match first_served(bindings, method, path) {
            Some(index) => found(bindings, method, path, index),
            None => refused(self.numbers.as_slice(), bindings, method, path),
        }
    }

    /// The method of a number, as the bits of `WrongMethod` have them. Takes no memory.
    pub fn method(&self, number: usize) -> Option<&[u8]>
        ensures { (bindings : List Binding) → IsRouterOf self.now bindings
            → option_copied result ≡ slice_get (methods_of bindings) number }
    {
        match self.methods.get(number) {
            Some(method) => Some(method.as_str().as_bytes()),
            None => None,
        }
    }
}
