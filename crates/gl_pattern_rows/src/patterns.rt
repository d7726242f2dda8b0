// The patterns that extractors and the rules of streams are lent, built by `regex`.
ghost use Rattle.std.specs.Prelude.{◌≡◌, map, IfOk};
ghost use Rattle.gl_extract.specs.Extraction.{Fits, condition_of};
ghost use Rattle.gl_extract.specs.Extraction as extraction;
ghost use Rattle.gl_streams.specs.Matching.{pattern_of, patterns_of};
ghost use Rattle.gl_streams.specs.Matching as matching;

use gl_extract::{Built, Condition, ExtractorKind, ExtractorParts};
use gl_grok::Expanded;
use gl_outside::Outside;
use gl_patterns::{Pattern, PatternShop, RegexShop};
use gl_streams::{Stream, StreamPatterns, StreamRule, Test};
use std::alloc::Global;

/// The pattern of an extractor's kind; that of a Grok is expanded to this text.
fn of_kind(
    shop: &mut RegexShop,
    kind: &ExtractorKind,
    expanded: &str,
) -> Result<Option<Pattern>, Outside>
    ensures { IfOk result (λ p. p ≡ extraction.pattern_of (λ _. expanded.now) kind.now) }
{
    match kind {
        ExtractorKind::Regex { pattern, .. } => Ok(Some(shop.build(pattern.as_str())?)),
        ExtractorKind::Grok { .. } => Ok(Some(shop.build(expanded)?)),
        ExtractorKind::Substring { .. } => Ok(None),
        ExtractorKind::Split { .. } => Ok(None),
        ExtractorKind::Json => Ok(None),
    }
}

fn of_condition(shop: &mut RegexShop, condition: &Condition) -> Result<Option<Pattern>, Outside>
    ensures { IfOk result (λ p. p ≡ condition_of condition.now) }
{
    match condition {
        Condition::None => Ok(None),
        Condition::Contains(_) => Ok(None),
        Condition::Regex(pattern) => Ok(Some(shop.build(pattern.as_str())?)),
    }
}

/// What an extractor of these parts is lent, with the text of a Grok and the fields of its groups.
pub fn built_for(
    alloc: Global,
    parts: &ExtractorParts,
    expanded: Expanded,
) -> Result<Built, Outside>
    ensures { IfOk result (λ b. Fits parts.now b) }
{
    let mut shop = RegexShop::new(alloc);
    let pattern = of_kind(&mut shop, &parts.kind, expanded.text.as_str())?;
    let condition = of_condition(&mut shop, &parts.condition)?;
    Ok(Built::new(pattern, condition, expanded.fields))
}

/// The pattern of a rule's test.
pub fn of_test(shop: &mut RegexShop, test: &Test) -> Result<Option<Pattern>, Outside>
    ensures { IfOk result (λ p. p ≡ pattern_of test.now) }
{
    match test {
        Test::Regex(text) => Ok(Some(shop.build(text.as_str())?)),
        Test::Exact(_) => Ok(None),
        Test::Greater(_) => Ok(None),
        Test::Smaller(_) => Ok(None),
        Test::Presence => Ok(None),
        Test::Contains(_) => Ok(None),
        Test::Always => Ok(None),
    }
}

fn of_rules(
    alloc: Global,
    shop: &mut RegexShop,
    rules: &[StreamRule],
) -> Result<Vec<Option<Pattern>>, Outside>
    ensures { IfOk result (λ own. own.items ≡ patterns_of rules.now) }
{
    let mut own = Vec::new(alloc);
    for rule in rules {
        own.push(of_test(shop, &rule.test)?)?;
    }
    Ok(own)
}

/// The patterns of the rules of streams.
pub fn of_streams(alloc: Global, streams: &[Stream]) -> Result<StreamPatterns, Outside>
    ensures { IfOk result (λ patterns. matching.Fits streams.now patterns) }
{
    let mut shop = RegexShop::new(alloc);
    let mut all = Vec::new(alloc);
    for stream in streams {
        all.push(of_rules(alloc, &mut shop, stream.rules.as_slice())?)?;
    }
    Ok(StreamPatterns::new(all))
}
