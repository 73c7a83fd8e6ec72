//! Laws of the definitions that the calls' contracts cite. Each is the contract of an empty function.
ghost use Rattle.std.specs.Prelude.{◌≡◌, ◌≢◌, ◌<◌, ◌≤◌, ◌↔◌, ℕ, IsTrue, List, [], ◌∷◌, ◌++◌, length, take, get_or, slice_get, Result, Some};
ghost use Rattle.std.specs.List.{AllByRecursion, flat_map};
ghost use Rattle.percent_encoding.specs.Percent.{percent_decode};
ghost use Rattle.http_rules.specs.declared.fault.TemplateFault.{TemplateFault};
ghost use Rattle.http_rules.specs.declared.template.Binding.{Binding};
ghost use Rattle.http_rules.specs.declared.template.Template.{Template};
ghost use Rattle.http_rules.specs.declared.template.Variable.{Variable};
ghost use Rattle.http_rules.specs.declared.template.Segment.TheVariants.{Literal};
ghost use Rattle.http_rules.specs.Template.{IsLiteral, IsSegment, IsTemplateText, IsTemplate, AreRanges, verb_text};
ghost use Rattle.http_rules.specs.EscapedSlashes.{HasNoSlashEscape, decoded_parts, part_escaped, part_whole};
ghost use Rattle.http_rules.specs.PercentDecoding.{captured, decode_but_slashes};
ghost use Rattle.http_rules.specs.Routes.{AreRoutesApart, IsSameRoute, is_same_route, repeated_routes};
ghost use Rattle.http_rules.specs.Tokens.{NamedMethodsAreKinds, NamedMethodsAreTokens};
ghost use Rattle.http_rules.specs.TemplatePrefix.{BeginsTemplate, IsSyntaxFault};
ghost use Rattle.http_rules.specs.TemplateReading.{IsReading, reading};
ghost use Rattle.http_rules.specs.TemplateText.{template_text, slashed_segments};
ghost use Rattle.http_rules.specs.TemplateMatch.{IsPath, AreLiterals, Matches, AreSpansOf, Fits};

/// A text means one template at most.
pub fn one_meaning()
    ensures { (text : List ℕ) (t u : Template) → IsTemplateText text t → IsTemplateText text u → t ≡ u }
{}

/// Of each text one thing is read: the template that it means, that it means one past the limits, or
/// where it goes wrong.
pub fn a_text_has_one_reading()
    ensures each { (text : List ℕ) → IsReading text (reading text) }
    ensures one { (text : List ℕ) (r : Result Template TemplateFault) → IsReading text r → r ≡ reading text }
{}

/// What is printed of a template means the same template.
pub fn printed_means_the_same()
    ensures { (t : Template) → IsTemplate t → IsTemplateText (template_text t) t }
{}

/// The ranges of a template's variables are not empty, follow one another, and lie within its segments.
pub fn ranges_are_in_order()
    ensures { (t : Template) → IsTemplate t → AreRanges 0 t.variables (length t.segments) }
{}

/// A variable of a template takes one segment at least, within its segments.
pub fn variables_take_segments()
    ensures { (t : Template) (i : ℕ) (d : Variable) → IsTemplate t → i < length t.variables
        → ((get_or t.variables i d).from < (get_or t.variables i d).to)
        × ((get_or t.variables i d).to ≤ length t.segments) }
{}

/// The segments of a template are literals and wildcards.
pub fn segments_are_lawful()
    ensures { (text : List ℕ) (t : Template) → IsTemplateText text t → AllByRecursion IsSegment t.segments }
{}

/// No byte of a literal is a slash.
pub fn literals_have_no_slash()
    ensures { (l : List ℕ) → IsLiteral l → AllByRecursion (λ b. b ≢ 47) l }
{}

/// A fault is at the end of the longest prefix that begins a template.
pub fn fault_ends_longest_prefix()
    ensures { (text : List ℕ) (offset n : ℕ) → IsSyntaxFault text offset → n ≤ length text → BeginsTemplate (take n text) → n ≤ offset }
{}

/// A literal takes one segment of the path, equal byte for byte.
pub fn literal_takes_its_bytes()
    ensures { (t : Template) (path : List ℕ) (spans : List (ℕ × ℕ)) (m : Matches t path spans) (i : ℕ) (l : List ℕ)
        → slice_get t.segments i ≡ Some (Literal l) → slice_get m.taken i ≡ Some (l ∷ []) }
{}

/// A template without wildcards fits its own text and no other path.
pub fn literals_fit_their_text()
    ensures { (t : Template) (path : List ℕ) → t.segments ≢ [] → AreLiterals t.segments → IsPath path
        → Fits t path ↔ (path ≡ slashed_segments t.segments ++ verb_text t.verb) }
{}

/// A template fits a path in one way: with one list of spans.
pub fn fits_in_one_way()
    ensures { (t : Template) (path : List ℕ) (a b : List (ℕ × ℕ)) → IsTemplate t → Matches t path a → Matches t path b → a ≡ b }
{}

/// The spans of a template that fits a path are one for each variable, and lie inside the path.
pub fn spans_lie_inside()
    ensures { (t : Template) (path : List ℕ) (spans : List (ℕ × ℕ)) → Matches t path spans → AreSpansOf t path spans }
{}

/// A text without `%2F` and `%2f` is decoded whole, also where a variable takes several segments.
pub fn without_escaped_slashes()
    ensures decoded { (text : List ℕ) → HasNoSlashEscape text → decode_but_slashes text ≡ percent_decode text }
    ensures captured { (t : Template) (index : ℕ) (text : List ℕ) → HasNoSlashEscape text → captured t index text ≡ percent_decode text }
{}

/// Decoding but for slashes and decoding whole differ at escaped slashes alone: they are made of the
/// same parts, and where one keeps the three bytes of such an escape the other has a slash.
pub fn decodings_differ_at_slashes()
    ensures escaped { (text : List ℕ) → decode_but_slashes text ≡ flat_map part_escaped (decoded_parts text) }
    ensures whole { (text : List ℕ) → percent_decode text ≡ flat_map part_whole (decoded_parts text) }
{}

/// What a variable takes is decoded to at most as many bytes.
pub fn decoding_does_not_lengthen()
    ensures { (t : Template) (index : ℕ) (text : List ℕ) → length (captured t index text) ≤ length text }
{}

/// GET, PUT, POST, DELETE and PATCH are tokens of at most 32 bytes.
pub fn named_methods_are_tokens()
    ensures { NamedMethodsAreTokens }
{}

/// GET, PUT, POST, DELETE and PATCH are methods of a binding.
pub fn named_methods_are_kinds()
    ensures { NamedMethodsAreKinds }
{}

/// The test whether two bindings are one route is true exactly where they are.
pub fn same_route_is_tested()
    ensures { (a b : Binding) → IsTrue (is_same_route a b) ↔ IsSameRoute a b }
{}

/// No two bindings are one route exactly where none repeats an earlier one.
pub fn routes_apart_repeat_none()
    ensures { (bindings : List Binding) → AreRoutesApart bindings ↔ (repeated_routes bindings ≡ []) }
{}
