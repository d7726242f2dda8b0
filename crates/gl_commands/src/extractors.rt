// Extractors, read.
ghost use Rattle.std.specs.Prelude.{◌≡◌, codes};
ghost use Rattle.serde_json.specs.View.{view};
ghost use Rattle.gl_commands.specs.Texts.{extractor_data};
ghost use Rattle.gl_commands.specs.CommandReading.{at, list_at, extractor_in, extractor_kind_in, extractor_kinds, of_kind, regex_in, substring_in, split_in, unless_target, grok_kind_in, condition_in, condition_keys, width, Reads};

use crate::keys::{bool_at, key_count, number_at, str_at, text_at, values_at};
use crate::lists::converters_at;
use crate::unread::Unread;
use gl_base::{Items, Text};
use gl_extract::{Condition, ExtractorKind, ExtractorParts};
use serde_json::Value;
use std::alloc::Global;

pub fn extractors_at(alloc: Global, value: &Value) -> Result<Items<ExtractorParts>, Unread>
    ensures { Reads result (list_at extractor_in (codes "extractors") (view value.now)) }
{
    let values = values_at(value, "extractors")?;
    let mut extractors = Items::new(alloc);
    for value in values {
        extractors.push(extractor_from(alloc, value)?)?;
    }
    Ok(extractors)
}

#[tactic(auto, unfolding(crate::specs::CommandReading::extractor_in))]
fn extractor_from(alloc: Global, value: &Value) -> Result<ExtractorParts, Unread>
    ensures { Reads result (extractor_in (view value.now)) }
{
    let extractor = ExtractorParts {
        kind: kind_from(alloc, value)?,
        source: text_at(alloc, value, "source")?,
        cut: bool_at(value, "cut")?,
        condition: condition_at(alloc, value)?,
        converters: converters_at(alloc, value, "converters")?,
    };
    if key_count(value) != extractor_keys(&extractor) {
        return Err(Unread::Other);
    }
    Ok(extractor)
}

/// How many keys the object of an extractor has.
fn extractor_keys(extractor: &ExtractorParts) -> usize
    ensures { result ≡ width (extractor_data extractor.now) }
{
    match extractor.kind {
        ExtractorKind::Substring { .. } | ExtractorKind::Split { .. } => 8,
        ExtractorKind::Regex { .. } | ExtractorKind::Grok { .. } => 7,
        ExtractorKind::Json => 6,
    }
}

#[tactic(auto, unfolding(crate::specs::CommandReading::extractor_kind_in))]
fn kind_from(alloc: Global, value: &Value) -> Result<ExtractorKind, Unread>
    ensures { Reads result (extractor_kind_in (view value.now)) }
{
    match str_at(value, "kind").ok_or(Unread::Other)? {
        "regex" => regex_from(alloc, value),
        "substring" => substring_from(alloc, value),
        "split" => split_from(alloc, value),
        "grok" => grok_from(alloc, value),
        "json" => unless_target(value, ExtractorKind::Json),
        _ => Err(Unread::Other),
    }
}

#[tactic(auto, unfolding(crate::specs::CommandReading::regex_in))]
fn regex_from(alloc: Global, value: &Value) -> Result<ExtractorKind, Unread>
    ensures { Reads result (regex_in (view value.now)) }
{
    let pattern = text_at(alloc, value, "pattern")?;
    let target = text_at(alloc, value, "target")?;
    Ok(ExtractorKind::Regex { pattern, target })
}

#[tactic(auto, unfolding(crate::specs::CommandReading::substring_in))]
fn substring_from(alloc: Global, value: &Value) -> Result<ExtractorKind, Unread>
    ensures { Reads result (substring_in (view value.now)) }
{
    let begin = number_at(value, "begin")?;
    let end = number_at(value, "end")?;
    let target = text_at(alloc, value, "target")?;
    Ok(ExtractorKind::Substring { begin, end, target })
}

#[tactic(auto, unfolding(crate::specs::CommandReading::split_in))]
fn split_from(alloc: Global, value: &Value) -> Result<ExtractorKind, Unread>
    ensures { Reads result (split_in (view value.now)) }
{
    let by = text_at(alloc, value, "by")?;
    let index = number_at(value, "index")?;
    let target = text_at(alloc, value, "target")?;
    Ok(ExtractorKind::Split { by, index, target })
}

#[tactic(auto, unfolding(crate::specs::CommandReading::grok_kind_in))]
fn grok_from(alloc: Global, value: &Value) -> Result<ExtractorKind, Unread>
    ensures { Reads result (grok_kind_in (view value.now)) }
{
    let pattern = text_at(alloc, value, "pattern")?;
    unless_target(value, ExtractorKind::Grok { pattern })
}

/// The kind, where the value tells no target.
#[tactic(auto, unfolding(crate::specs::CommandReading::unless_target))]
fn unless_target(value: &Value, kind: ExtractorKind) -> Result<ExtractorKind, Unread>
    ensures { Reads result (unless_target (view value.now) kind) }
{
    let target = str_at(value, "target").ok_or(Unread::Other)?;
    if !target.is_empty() {
        return Err(Unread::Other);
    }
    Ok(kind)
}

fn condition_at(alloc: Global, value: &Value) -> Result<Condition, Unread>
    ensures { Reads result (at condition_in (codes "condition") (view value.now)) }
{
    match value.get("condition") {
        Some(condition) => condition_from(alloc, condition),
        None => Err(Unread::Other),
    }
}

#[tactic(auto, unfolding(crate::specs::CommandReading::condition_in))]
fn condition_from(alloc: Global, value: &Value) -> Result<Condition, Unread>
    ensures { Reads result (condition_in (view value.now)) }
{
    if value.is_null() {
        return Ok(Condition::None);
    }
    if key_count(value) != 1 {
        return Err(Unread::Other);
    }
    condition_keys(alloc, value)
}

#[tactic(auto, unfolding(crate::specs::CommandReading::condition_keys))]
fn condition_keys(alloc: Global, value: &Value) -> Result<Condition, Unread>
    ensures { Reads result (condition_keys (view value.now)) }
{
    match str_at(value, "contains") {
        Some(part) => Ok(Condition::Contains(Text::from_str(alloc, part)?)),
        None => Ok(Condition::Regex(text_at(alloc, value, "regex")?)),
    }
}
