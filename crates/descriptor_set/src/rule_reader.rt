//! Rules of google/api/http.proto, by their values.
ghost use Rattle.std.specs.Prelude.{◌≡◌, map, option_and_then, option_map, IfOk};
ghost use Rattle.descriptor_set.specs.DescriptorFields.{custom_pattern, no_rule as says_nothing, pattern_info, rule_by, rule_info};
ghost use Rattle.std.specs.Option.{option_copied};
ghost use Rattle.descriptor_set.specs.FieldContents.{message_at};

use crate::field_contents::{message, messages, text, text_or_empty};
use base::{List, NoMemory, Text};
use descriptors::descriptor_numbers::HTTP_RULE;
use descriptors::{HttpInfo, PatternInfo};
use schema::{MAX_LEVELS, Value};
use std::alloc::Global;

/// CustomHttpPattern.
fn read_custom(alloc: Global, value: &Value) -> Result<PatternInfo, NoMemory>
    ensures { IfOk result (λ read. read ≡ custom_pattern value.now) }
{
    Ok(PatternInfo::Custom(
        text_or_empty(alloc, value, 1)?,
        text_or_empty(alloc, value, 2)?,
    ))
}

/// The pattern of a rule: the member of its oneof that stands.
fn read_pattern(alloc: Global, rule: &Value) -> Result<Option<PatternInfo>, NoMemory>
    ensures { IfOk result (λ read. read ≡ pattern_info rule.now) }
{
    if let Some(path) = text(alloc, rule, 2)? {
        return Ok(Some(PatternInfo::Get(path)));
    }
    if let Some(path) = text(alloc, rule, 3)? {
        return Ok(Some(PatternInfo::Put(path)));
    }
    if let Some(path) = text(alloc, rule, 4)? {
        return Ok(Some(PatternInfo::Post(path)));
    }
    if let Some(path) = text(alloc, rule, 5)? {
        return Ok(Some(PatternInfo::Delete(path)));
    }
    if let Some(path) = text(alloc, rule, 6)? {
        return Ok(Some(PatternInfo::Patch(path)));
    }
    match message(rule, 8) {
        Some(custom) => Ok(Some(read_custom(alloc, custom)?)),
        None => Ok(None),
    }
}

/// A rule that says nothing.
fn no_rule(alloc: Global) -> HttpInfo
    ensures { result ≡ says_nothing }
{
    HttpInfo {
        pattern: None,
        body: Text::new(alloc),
        additional_bindings: List::new(alloc),
        response_body: Text::new(alloc),
    }
}

/// HttpRule, with so many levels of rules in it.
#[cycle(rule)]
fn read_parts(alloc: Global, rule: &Value, levels: u32) -> Result<HttpInfo, NoMemory>
    ensures { IfOk result (λ read. read ≡ rule_by (rule_info levels) rule.now) }
{
    let additional = messages(alloc, rule, 11)?;
    Ok(HttpInfo {
        pattern: read_pattern(alloc, rule)?,
        body: text_or_empty(alloc, rule, 7)?,
        additional_bindings: read_rules(alloc, additional.as_slice(), levels)?,
        response_body: text_or_empty(alloc, rule, 12)?,
    })
}

/// HttpRule, with so many levels of rules, this one included.
#[cycle(rule)]
#[tactic(auto, using(crate::proofs::LevelLemmas::rule_none, crate::proofs::LevelLemmas::rule_opens))]
fn read_rule(alloc: Global, rule: &Value, levels: u32) -> Result<HttpInfo, NoMemory>
    ensures { IfOk result (λ read. read ≡ rule_info levels rule.now) }
{
    if levels == 0 {
        return Ok(no_rule(alloc));
    }
    read_parts(alloc, rule, levels - 1)
}

/// The additional bindings of a rule.
#[cycle(rule)]
fn read_rules(alloc: Global, rules: &[&Value], levels: u32) -> Result<List<HttpInfo>, NoMemory>
    ensures { IfOk result (λ read. read ≡ map (rule_info levels) (map (λ v. v.now) rules.now)) }
{
    let mut read = List::new(alloc);
    for rule in rules {
        read.push(read_rule(alloc, rule, levels)?)?;
    }
    Ok(read)
}

/// The annotation google.api.http of a method (MethodOptions).
fn rule_of(method: &Value) -> Option<&Value>
    ensures { option_copied result ≡ option_and_then (λ options. message_at options 72295728) (message_at method.now 4) }
{
    match message(method, 4) {
        Some(options) => message(options, HTTP_RULE),
        None => None,
    }
}

/// The rule of a method, where it has one.
pub(crate) fn read_http(alloc: Global, method: &Value) -> Result<Option<HttpInfo>, NoMemory>
    ensures { IfOk result (λ read. read ≡ option_map (rule_info 100) (option_and_then (λ options. message_at options 72295728) (message_at method.now 4))) }
{
    match rule_of(method) {
        Some(rule) => Ok(Some(read_rule(alloc, rule, MAX_LEVELS)?)),
        None => Ok(None),
    }
}
