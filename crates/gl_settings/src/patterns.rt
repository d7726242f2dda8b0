// The patterns of a configuration.
ghost use Rattle.std.specs.Prelude.{◌≡◌, ◌+◌, ◌++◌, List, ℕ, length, sum_by, option_to_list, option_copied, flat_map, IfOk, IfSome, OnOk};
ghost use Rattle.gl_grok.specs.Tables.{table_of};
ghost use Rattle.gl_grok.specs.Expansion.{expansion};
ghost use Rattle.gl_streams.specs.Matching.{pattern_of};
ghost use Rattle.gl_check.specs.Checking.{pattern_texts};
ghost use Rattle.gl_settings.specs.Patterns.{kind_pattern, condition_pattern, stream_patterns, extractor_patterns, input_patterns};

use crate::Input;
use gl_base::{Items, Text};
use gl_check::Checked;
use gl_extract::{Condition, Extractor, ExtractorKind};
use gl_grok::{GrokRefusal, expand};
use gl_streams::{Stream, StreamRule, Test};
use std::alloc::{AllocError, Global};
use std::collections::BTreeMap;

fn pattern_of(test: &Test) -> Option<&Text>
    ensures { option_copied result ≡ pattern_of test.now }
{
    match test {
        Test::Regex(pattern) => Some(pattern),
        Test::Exact(_)
        | Test::Greater(_)
        | Test::Smaller(_)
        | Test::Presence
        | Test::Contains(_)
        | Test::Always => None,
    }
}

fn push_rules(texts: &mut Items<Text>, rules: &[StreamRule]) -> Result<(), AllocError>
    ensures { OnOk result (texts.new ≡ texts.old ++ flat_map (λ rule. option_to_list (pattern_of rule.test)) rules.now) }
{
    for rule in rules {
        if let Some(pattern) = pattern_of(&rule.test) {
            texts.push(pattern.copy()?)?;
        }
    }
    Ok(())
}

/// The patterns of these streams, at the end of these texts.
pub fn push_streams(texts: &mut Items<Text>, streams: &[Stream]) -> Result<(), AllocError>
    ensures { OnOk result (texts.new ≡ texts.old ++ flat_map stream_patterns streams.now) }
{
    for stream in streams {
        push_rules(texts, stream.rules.as_slice())?;
    }
    Ok(())
}

/// What a pattern of grok becomes; one that becomes nothing isn't asked for.
fn expanded(
    alloc: Global,
    groks: &BTreeMap<String, String>,
    pattern: &Text,
) -> Result<Text, AllocError>
    ensures { IfOk result (λ text. text ≡ (expansion (table_of groks.now) pattern.now).text) }
{
    match expand(alloc, pattern.as_str(), groks) {
        Ok(expanded) => Ok(expanded.text),
        Err(_) => Err(AllocError),
    }
}

fn kind_pattern(
    alloc: Global,
    groks: &BTreeMap<String, String>,
    kind: &ExtractorKind,
) -> Result<Option<Text>, AllocError>
    ensures { IfOk result (λ text. text ≡ kind_pattern (table_of groks.now) kind.now) }
{
    match kind {
        ExtractorKind::Regex { pattern, .. } => Ok(Some(pattern.copy()?)),
        ExtractorKind::Grok { pattern } => Ok(Some(expanded(alloc, groks, pattern)?)),
        ExtractorKind::Substring { .. } | ExtractorKind::Split { .. } | ExtractorKind::Json => {
            Ok(None)
        }
    }
}

fn condition_pattern(condition: &Condition) -> Result<Option<Text>, AllocError>
    ensures { IfOk result (λ text. text ≡ condition_pattern condition.now) }
{
    match condition {
        Condition::Regex(pattern) => Ok(Some(pattern.copy()?)),
        Condition::None | Condition::Contains(_) => Ok(None),
    }
}

fn push_some(texts: &mut Items<Text>, text: Option<Text>) -> Result<(), AllocError>
    ensures { OnOk result (texts.new ≡ texts.old ++ option_to_list text) }
{
    match text {
        Some(text) => texts.push(text),
        None => Ok(()),
    }
}

fn push_extractor(
    alloc: Global,
    groks: &BTreeMap<String, String>,
    texts: &mut Items<Text>,
    extractor: &Extractor,
) -> Result<(), AllocError>
    ensures { OnOk result (texts.new ≡ texts.old ++ extractor_patterns (table_of groks.now) extractor.now) }
{
    let parts = extractor.parts();
    let pattern = kind_pattern(alloc, groks, &parts.kind)?;
    let condition = condition_pattern(&parts.condition)?;
    push_some(texts, pattern)?;
    push_some(texts, condition)?;
    Ok(())
}

fn push_extractors(
    alloc: Global,
    groks: &BTreeMap<String, String>,
    texts: &mut Items<Text>,
    extractors: &[Extractor],
) -> Result<(), AllocError>
    ensures { OnOk result (texts.new ≡ texts.old ++ flat_map (extractor_patterns (table_of groks.now)) extractors.now) }
{
    for extractor in extractors {
        push_extractor(alloc, groks, texts, extractor)?;
    }
    Ok(())
}

/// The patterns of the extractors of these inputs, at the end of these texts.
pub fn push_inputs(
    alloc: Global,
    groks: &BTreeMap<String, String>,
    texts: &mut Items<Text>,
    inputs: &[Input],
) -> Result<(), AllocError>
    ensures { OnOk result (texts.new ≡ texts.old ++ flat_map (input_patterns (table_of groks.now)) inputs.now) }
{
    for input in inputs {
        push_extractors(alloc, groks, texts, input.extractors.as_slice())?;
    }
    Ok(())
}

fn push_all(texts: &mut Items<Text>, more: &[Text]) -> Result<(), AllocError>
    ensures { OnOk result (texts.new ≡ texts.old ++ more.now) }
{
    for text in more {
        texts.push(text.copy()?)?;
    }
    Ok(())
}

/// The patterns of these rules, at the end of these texts.
pub fn push_checked(
    alloc: Global,
    texts: &mut Items<Text>,
    rules: &[Checked],
) -> Result<(), AllocError>
    ensures { OnOk result (texts.new ≡ texts.old ++ flat_map pattern_texts rules.now) }
{
    for rule in rules {
        let patterns = rule.pattern_texts(alloc)?;
        push_all(texts, patterns.as_slice())?;
    }
    Ok(())
}

/// How many bytes these texts have; `None` past 64 bits, which no memory holds.
pub fn bytes_of(texts: &[Text]) -> Option<u64>
    ensures { IfSome result (λ sum. sum ≡ sum_by length texts.now) }
{
    let mut sum: u64 = 0;
    for text in texts {
        sum = sum.checked_add(text.len() as u64)?;
    }
    Some(sum)
}
