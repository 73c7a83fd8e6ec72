//! The search among the bindings of a set.
ghost use Rattle.std.specs.Prelude.{◌≡◌, ◌≢◌, ◌<◌, ◌↔◌, ℕ, length, map, slice_get, Some, MatchOption, IsTrue};
ghost use Rattle.std.specs.Int.{bit_at};
ghost use Rattle.std.specs.Option.{ForSome};
ghost use Rattle.http_rules.specs.Template.{IsTemplate};
ghost use Rattle.http_rules.specs.declared.template.Binding.{Binding};
ghost use Rattle.path_router.specs.BindingMethods.{AreNumbersOf, methods_of};
ghost use Rattle.path_router.specs.RoutableBindings.{AreRoutable};
ghost use Rattle.path_router.specs.RouteChoice.{IsChoice, IsFirst, IsMethodThatFits, IsNotFound, IsUnserved, SomeFits};
ghost use Rattle.path_router.specs.RouteSearch.{IsBest, Leads, TakesOver};

use crate::fitting::{fit, fits};
use crate::order::{precedes, serves};
use crate::routed::Routed;
use http_rules::Binding;

/// True where a binding leads the best so far.
fn leads(bindings: &[Binding], method: &[u8], best: Option<usize>, binding: &Binding) -> bool
    requires { ForSome best (λ index. index < length bindings.now) }
    ensures { IsTrue result ↔ Leads bindings.now method.now best binding.now }
{
    match best {
        Some(index) => precedes(method, binding, &bindings[index]),
        None => true,
    }
}

/// True where a binding takes the place of the best so far.
fn takes_over(
    bindings: &[Binding],
    method: &[u8],
    path: &[u8],
    best: Option<usize>,
    binding: &Binding,
) -> bool
    requires template { IsTemplate binding.now.template }
    requires best { ForSome best (λ index. index < length bindings.now) }
    ensures { IsTrue result ↔ TakesOver bindings.now method.now path.now best binding.now }
{
    serves(method, binding)
        && fits(&binding.template, path)
        && leads(bindings, method, best, binding)
}

/// The index of the first binding that serves the method and fits the path.
pub(crate) fn first_served(bindings: &[Binding], method: &[u8], path: &[u8]) -> Option<usize>
    requires { AreRoutable bindings.now }
    ensures { IsBest bindings.now method.now path.now result }
{
    let mut best = None;
    for (i, binding) in bindings.iter().enumerate() {
        if takes_over(bindings, method, path, best, binding) {
            best = Some(i);
        }
    }
    best
}

/// The answer where the first binding is found.
pub(crate) fn found(bindings: &[Binding], method: &[u8], path: &[u8], index: usize) -> Routed
    requires routable { AreRoutable bindings.now }
    requires first { (b : Binding) × IsFirst bindings.now method.now path.now index b }
    ensures { IsChoice bindings.now method.now path.now result }
{
    match fit(&bindings[index].template, path) {
        Some(captures) => Routed::Found(index as u32, captures),
        None => unreachable!(),
    }
}

/// A number with one bit more.
fn with_bit(bits: u64, number: u8) -> u64
    requires { number < 64 }
    ensures own { bit_at result number ≡ 1 }
    ensures others { (i : ℕ) → i ≢ number → bit_at result i ≡ bit_at bits i }
{
    bits | 1 << number
}

/// The bits of the methods of the bindings that fit the path, or None where none fits.
fn methods_that_fit(numbers: &[u8], bindings: &[Binding], path: &[u8]) -> Option<u64>
    requires routable { AreRoutable bindings.now }
    requires numbers { AreNumbersOf (methods_of bindings.now) bindings.now numbers.now }
    ensures { MatchOption result (IsNotFound bindings.now path.now)
        (λ bits. SomeFits bindings.now path.now
        × ((i : ℕ) → (bit_at bits i ≡ 1) ↔ IsMethodThatFits bindings.now path.now i)) }
{
    let mut bits = None;
    for (i, binding) in bindings.iter().enumerate() {
        if fits(&binding.template, path) {
            bits = Some(with_bit(bits.unwrap_or(0), numbers[i]));
        }
    }
    bits
}

/// The answer where no binding that fits the path serves the method.
pub(crate) fn refused(numbers: &[u8], bindings: &[Binding], method: &[u8], path: &[u8]) -> Routed
    requires routable { AreRoutable bindings.now }
    requires numbers { AreNumbersOf (methods_of bindings.now) bindings.now numbers.now }
    requires unserved { IsUnserved bindings.now method.now path.now }
    ensures { IsChoice bindings.now method.now path.now result }
{
    match methods_that_fit(numbers, bindings, path) {
        Some(bits) => Routed::WrongMethod(bits),
        None => Routed::NotFound,
    }
}
