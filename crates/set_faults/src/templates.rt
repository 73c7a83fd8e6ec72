//! The path templates of rules (google/api/http.proto, path template syntax).
ghost use Rattle.std.specs.Prelude.{◌≡◌, ◌∷◌, decimal, List, Result, Err, IfOk, Ok};
ghost use Rattle.http_rules.specs.TemplateFaults.{IsUnlessNoMemory};
ghost use Rattle.http_rules.specs.TemplateReading.{reading};
ghost use Rattle.http_rules.specs.declared.fault.TemplateFault.{TemplateFault as Reason};
ghost use Rattle.http_rules.specs.declared.template.Template.{Template as Read};
ghost use Rattle.set_faults.specs.LinkFaults.{IsFirst, IsFirstOf};
ghost use Rattle.set_faults.specs.MethodFaults.{pattern_text, reading_faults, template_faults};
ghost use Rattle.set_faults.specs.ToldNames.{told};

use crate::fault::{LinkFault, LinkKind};
use crate::told_name::{ToldName, fault_of};
use descriptor_pool::MethodPath;
use descriptors::PatternInfo;
use http_rules::{Template, TemplateFault, parse_template};
use std::alloc::Global;

/// The text of the path template of a pattern.
pub(crate) fn pattern_text(pattern: &PatternInfo) -> &str
    ensures { result.now ≡ pattern_text pattern.now }
{
    match pattern {
        PatternInfo::Get(text) => text.as_str(),
        PatternInfo::Put(text) => text.as_str(),
        PatternInfo::Post(text) => text.as_str(),
        PatternInfo::Delete(text) => text.as_str(),
        PatternInfo::Patch(text) => text.as_str(),
        PatternInfo::Custom(_, text) => text.as_str(),
    }
}

/// The fault of a text that goes wrong at this offset.
fn fault_at_offset(alloc: Global, path: ToldName<'_>, offset: u64) -> LinkFault
    ensures { (rest : List LinkFault)
        → IsFirst result (LinkFault.At LinkKind.TemplateAt (told path.entry) (decimal offset) ∷ rest) }
{
    match format!(in alloc; "{offset}") {
        Ok(text) => {
            let place = ToldName::Plain(text.as_str());
            fault_of(alloc, LinkKind::TemplateAt, path, place)
        }
        Err(_) => LinkFault::NoMemory,
    }
}

/// The fault of a template that is refused.
fn template_fault(alloc: Global, path: ToldName<'_>, reason: TemplateFault) -> LinkFault
    ensures { (read : Result Read Reason) → IsUnlessNoMemory (Err reason) read
        → IsFirst result (reading_faults (told path.entry) read) }
{
    match reason {
        TemplateFault::Syntax(offset) => fault_at_offset(alloc, path, offset),
        TemplateFault::TooMany => {
            fault_of(alloc, LinkKind::TemplateAt, path, ToldName::Plain("many"))
        }
        TemplateFault::NoMemory => LinkFault::NoMemory,
    }
}

/// Reads the path template of a text, or refuses it.
pub(crate) fn read_template(
    alloc: Global,
    path: &MethodPath<'_>,
    text: &str,
) -> Result<Template, LinkFault>
    ensures first { IsFirstOf result (template_faults path.now text.now) }
    ensures read { IfOk result (λ template. reading text.now ≡ Ok template) }
{
    match parse_template(alloc, text) {
        Ok(template) => Ok(template),
        Err(reason) => Err(template_fault(alloc, ToldName::Path(path), reason)),
    }
}
