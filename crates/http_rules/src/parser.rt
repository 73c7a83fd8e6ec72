//! Reading a template (google/api/http.proto, path template syntax).
ghost use Rattle.std.specs.Prelude.{◌≡◌, ℕ, ◌↔◌, MatchOption, IfOk};
ghost use Rattle.http_rules.specs.Template.{IsTemplateText, IsWithinLimits, IsTemplate};
ghost use Rattle.http_rules.specs.TemplatePrefix.{IsSomeTemplate, IsSyntaxFault};
ghost use Rattle.http_rules.specs.TemplateLimits.{RefusesOver};
ghost use Rattle.http_rules.specs.TemplateFaults.{IsTooMany, IsUnlessNoMemory};
ghost use Rattle.http_rules.specs.TemplateReading.{reading};

use crate::fault::TemplateFault;
use crate::parts::Parts;
use crate::state::{State, class_of, is_final, turn};
use crate::template::Template;
use std::alloc::Global;

/// The offset of the syntax fault, if there is one.
fn syntax_fault(text: &[u8]) -> Option<usize>
    ensures { MatchOption result (IsSomeTemplate text.now) (IsSyntaxFault text.now) }
{
    let mut state = State::Start;
    for (i, byte) in text.iter().enumerate() {
        match turn(state, class_of(*byte)) {
            Some((next, _)) => state = next,
            None => return Some(i),
        }
    }
    if is_final(state) {
        None
    } else {
        Some(text.len())
    }
}

/// The template of a text without a syntax fault.
fn build(alloc: Global, text: &[u8]) -> Result<Template, TemplateFault>
    requires { IsSomeTemplate text.now }
    ensures means { IfOk result (IsTemplateText text.now) }
    ensures few { IfOk result IsWithinLimits }
    ensures over { RefusesOver result (IsTooMany text.now) }
{
    let mut parts = Parts::new(alloc);
    let mut state = State::Start;
    for byte in text {
        match turn(state, class_of(*byte)) {
            Some((next, act)) => {
                parts.take(alloc, act, *byte)?;
                state = next;
            }
            None => unreachable!(),
        }
    }
    parts.finish(alloc, state)
}

/// The template of the bytes of a text.
fn read(alloc: Global, text: &[u8]) -> Result<Template, TemplateFault>
    ensures means { IfOk result (IsTemplateText text.now) }
    ensures template { IfOk result IsTemplate }
    ensures read { (t : Template) → IsTemplateText text.now t → IsWithinLimits t → IsUnlessNoMemory result (Ok t) }
    ensures many { IsTooMany text.now → IsUnlessNoMemory result (Err TemplateFault.TooMany) }
    ensures only_many { result ≡ Err TemplateFault.TooMany → IsTooMany text.now }
    ensures syntax { (offset : ℕ) → (result ≡ Err (TemplateFault.Syntax offset)) ↔ IsSyntaxFault text.now offset }
{
    match syntax_fault(text) {
        Some(offset) => Err(TemplateFault::Syntax(offset as u64)),
        None => build(alloc, text),
    }
}

/// Reads a template. Whether its text is a template is told without memory; a text that is one is
/// refused past 64 segments or 16 variables.
pub fn parse_template(alloc: Global, text: &str) -> Result<Template, TemplateFault>
    // What is read is what the text means, within the limits.
    ensures means { IfOk result (IsTemplateText text.now) }
    ensures template { IfOk result IsTemplate }

    // What is meant is read, and what is past the limits is refused so, unless memory runs out.
    ensures read { (t : Template) → IsTemplateText text.now t → IsWithinLimits t → IsUnlessNoMemory result (Ok t) }
    ensures many { IsTooMany text.now → IsUnlessNoMemory result (Err TemplateFault.TooMany) }
    ensures only_many { result ≡ Err TemplateFault.TooMany → IsTooMany text.now }

    // A text that is no template is refused at its fault, and no other text is.
    ensures syntax { (offset : ℕ) → (result ≡ Err (TemplateFault.Syntax offset)) ↔ IsSyntaxFault text.now offset }

    // All of it at once: the answer is what is read of the text, but for out of memory.
    ensures reads { IsUnlessNoMemory result (reading text.now) }
{
    read(alloc, text.as_bytes())
}
