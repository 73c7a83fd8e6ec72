//! Laws of the definitions that the calls' contracts cite. Each is the contract of an empty function.
ghost use Rattle.std.specs.Prelude.{◌≡◌, ◌<◌, ◌≤◌, ◌↔◌, ◌⊎◌, ◌++◌, ℕ, List, codes, length, map, slice_get, Some};
ghost use Rattle.std.specs.Cmp.Lexicographic.{slice_cmp};
ghost use Rattle.std.specs.List.{AllByRecursion};
ghost use Rattle.std.specs.Ordering.{nat_cmp};
ghost use Rattle.std.specs.Set.{distinct_count};
ghost use Rattle.std.specs.Str.{bytes_eq};
ghost use Rattle.std.specs.declared.cmp.Ordering.TheVariants.{Less};
ghost use Rattle.http_rules.specs.Routes.{IsSameRoute};
ghost use Rattle.http_rules.specs.Template.{IsTemplate, verb_text};
ghost use Rattle.http_rules.specs.TemplateMatch.{Fits, Matches};
ghost use Rattle.http_rules.specs.declared.template.Binding.{Binding};
ghost use Rattle.http_rules.specs.declared.template.Template.{Template};
ghost use Rattle.path_router.specs.BindingMethods.{methods_of};
ghost use Rattle.path_router.specs.RoutableBindings.{AreRoutable};
ghost use Rattle.path_router.specs.RouteChoice.{IsChoice, IsFound, Precedes, Serves, ends_of};
ghost use Rattle.path_router.specs.TargetPath.{IsBehindScheme, IsRooted, IsTargetPath};
ghost use Rattle.path_router.specs.declared.captures.Span.{Span};
ghost use Rattle.path_router.specs.declared.routed.Routed.{Routed};

/// The order of bindings is strict: none precedes itself or one that precedes it, and what a binding precedes
/// precedes with it.
pub fn order_is_strict()
    ensures irreflexive { (method : List ℕ) (a : Binding) → Precedes method a a → ⊥ }
    ensures transitive { (method : List ℕ) (a b c : Binding) → Precedes method a b → Precedes method b c
        → Precedes method a c }
    ensures asymmetric { (method : List ℕ) (a b : Binding) → Precedes method a b → Precedes method b a → ⊥ }
{}

/// Of two bindings that serve a method and fit a path, and are not one route, one precedes the other.
pub fn order_is_total()
    ensures { (method path : List ℕ) (a b : Binding) → IsTemplate a.template → IsTemplate b.template
        → Serves method a → Serves method b → Fits a.template path → Fits b.template path
        → (IsSameRoute a b → ⊥) → Precedes method a b ⊎ Precedes method b a }
{}

/// A request has one answer at most, with one list of spans.
pub fn one_choice()
    ensures { (bindings : List Binding) (method path : List ℕ) (r s : Routed)
        → AllByRecursion (λ (b : Binding). IsTemplate b.template) bindings
        → IsChoice bindings method path r → IsChoice bindings method path s → r ≡ s }
{}

/// Each request has an answer, whatever its method and its path.
pub fn each_request_has_a_choice()
    ensures { (bindings : List Binding) (method path : List ℕ) → AreRoutable bindings
        → (r : Routed) × IsChoice bindings method path r }
{}

/// The spans of a template that matches a path are one for each variable, and lie inside the path.
pub fn fitting_spans_lie_inside()
    ensures { (template : Template) (path : List ℕ) (spans : List Span) → Matches template path (map ends_of spans)
        → (length spans ≡ length template.variables)
        × AllByRecursion (λ (s : Span). (s.from ≤ s.to) × (s.to ≤ length path)) spans }
{}

/// No segment of a path that a template fits is empty: the path has no two slashes in a row, and what stands before
/// the verb, or the path where there is none, does not end in a slash.
pub fn no_segment_is_empty()
    ensures inside { (template : Template) (path front back : List ℕ) → IsTemplate template → Fits template path
        → path ≡ front ++ codes "//" ++ back → ⊥ }
    ensures last { (template : Template) (path front : List ℕ) → IsTemplate template → Fits template path
        → path ≡ front ++ codes "/" ++ verb_text template.verb → ⊥ }
{}

/// The spans of what is found are one for each variable, and lie inside the path.
pub fn found_spans_lie_inside()
    ensures { (bindings : List Binding) (method path : List ℕ) (index : ℕ) (spans : List Span)
        → (found : IsFound bindings method path index spans)
        → (length spans ≡ length found.binding.template.variables)
        × AllByRecursion (λ (s : Span). (s.from ≤ s.to) × (s.to ≤ length path)) spans }
{}

/// The methods of bindings rise in the order of their bytes, are those that some binding has, and are as many as the
/// distinct methods of the bindings.
pub fn methods_are_in_order()
    ensures rising { (bindings : List Binding) (i j : ℕ) (m n : List ℕ) → i < j
        → slice_get (methods_of bindings) i ≡ Some m → slice_get (methods_of bindings) j ≡ Some n
        → slice_cmp nat_cmp m n ≡ Less }
    ensures exact { (bindings : List Binding) (m : List ℕ)
        → ((i : ℕ) × (slice_get (methods_of bindings) i ≡ Some m))
        ↔ ((i : ℕ) × (b : Binding) × (slice_get bindings i ≡ Some b) × (b.method ≡ m)) }
    ensures count { (bindings : List Binding)
        → length (methods_of bindings) ≡ distinct_count bytes_eq (map (λ (b : Binding). b.method) bindings) }
{}

/// A target has one path at most.
pub fn one_path_of_a_target()
    ensures { (target p q : List ℕ) → IsTargetPath target p → IsTargetPath target q → p ≡ q }
{}

/// A target has a path exactly where it begins with a slash, or with the scheme `http` and `://`; and which of the two
/// holds is decided.
pub fn which_targets_have_paths()
    ensures exact { (target : List ℕ) → ((path : List ℕ) × IsTargetPath target path)
        ↔ (IsRooted target ⊎ ((behind : List ℕ) × IsBehindScheme target behind)) }
    ensures decided { (target : List ℕ)
        → ((path : List ℕ) × IsTargetPath target path) ⊎ ((path : List ℕ) → IsTargetPath target path → ⊥) }
{}
