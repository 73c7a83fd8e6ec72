//! The methods of bindings in the order of their bytes.
ghost use Rattle.std.specs.Prelude.{◌≡◌, ◌≤◌, ℕ, insert, length, map, slice_get, Some, IfErr, IfOk, OnErr};
ghost use Rattle.std.specs.Set.{distinct_count};
ghost use Rattle.std.specs.Str.{bytes_eq};
ghost use Rattle.path_router.specs.BindingMethods.{AreNumbersOf, AreRising, methods_of, with_method};

use base::{List, NoMemory, Text};
use http_rules::Binding;
use std::alloc::Global;

/// The index of a method among methods in order, or else the index at which it belongs.
fn place_of(methods: &[&str], method: &str) -> Result<usize, usize>
    requires { AreRising (map (λ m. m.now) methods.now) }
    ensures found { IfOk result (λ i. slice_get (map (λ m. m.now) methods.now) i ≡ Some method.now) }
    ensures absent { OnErr result ((i : ℕ) → slice_get (map (λ m. m.now) methods.now) i ≡ Some method.now → ⊥) }
    ensures put { IfErr result (λ i. (i ≤ length methods.now)
        × (with_method (map (λ m. m.now) methods.now) method.now
        ≡ insert (map (λ m. m.now) methods.now) i method.now)) }
{
    (&*methods).binary_search(&method)
}

/// The methods of bindings, each once, in the order of their bytes.
pub(crate) fn methods_in(alloc: Global, bindings: &[Binding]) -> Result<Vec<&str>, NoMemory>
    ensures { IfOk result (λ methods. map (λ m. m.now) methods.items ≡ methods_of bindings.now) }
{
    let mut methods = Vec::new(alloc);
    for binding in bindings {
        let method = binding.method.as_str();
        if let Err(place) = place_of(methods.as_slice(), method) {
            methods.insert(place, method)?;
        }
    }
    Ok(methods)
}

/// Copies of texts.
pub(crate) fn copies(alloc: Global, texts: &[&str]) -> Result<List<Text>, NoMemory>
    ensures { IfOk result (λ copies. copies ≡ map (λ m. m.now) texts.now) }
{
    let mut copies = List::new(alloc);
    for text in texts {
        copies.push(Text::copy_of(alloc, text)?)?;
    }
    Ok(copies)
}

/// The number of each binding's method among these.
pub(crate) fn numbers_in(
    alloc: Global,
    methods: &[&str],
    bindings: &[Binding],
) -> Result<List<u8>, NoMemory>
    requires methods { map (λ m. m.now) methods.now ≡ methods_of bindings.now }
    requires few { length methods.now ≤ 64 }
    ensures { IfOk result (AreNumbersOf (methods_of bindings.now) bindings.now) }
{
    let mut numbers = List::new(alloc);
    for binding in bindings {
        match place_of(&*methods, binding.method.as_str()) {
            Ok(number) => numbers.push(number as u8)?,
            Err(_) => unreachable!(),
        }
    }
    Ok(numbers)
}

/// The number of distinct methods of bindings, of which a router has 64 at most.
pub fn method_count(alloc: Global, bindings: &[Binding]) -> Result<usize, NoMemory>
    ensures { IfOk result (λ count. count ≡ distinct_count bytes_eq (map (λ b. b.method) bindings.now)) }
{
    let methods = methods_in(alloc, bindings)?;
    Ok(methods.as_slice().len())
}
