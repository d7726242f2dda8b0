// What is built for an extractor.
ghost use Rattle.std.specs.Prelude.{◌≡◌, IfOk, IsOk, option_copied};
ghost use Rattle.gl_grok.specs.Tables.{table_of};
ghost use Rattle.gl_grok.specs.Answers.{answer};
ghost use Rattle.gl_grok.specs.Expansion.{expansion};
ghost use Rattle.gl_settings.specs.Patterns.{kind_pattern, condition_pattern, group_names, built_of, extractor_patterns};
ghost use Rattle.gl_building.specs.Building.{Builds};
ghost use Rattle.gl_building.specs.Places.{Expands};

use crate::StageFault;
use crate::building::build_some;
use gl_base::{Items, Text};
use gl_extract::{Built, Condition, Extractor, ExtractorKind};
use gl_grok::{Expanded, GrokRefusal, expand};
use gl_patterns::PatternShop;
use std::alloc::{AllocError, Global};
use std::collections::BTreeMap;

// What a pattern of grok becomes.
fn expanded(
    alloc: Global,
    groks: &BTreeMap<String, String>,
    pattern: &Text,
) -> Result<Expanded, AllocError>
    requires { IsOk (answer (table_of groks.now) pattern.now) }
    ensures { IfOk result (λ expanded. expanded ≡ expansion (table_of groks.now) pattern.now) }
{
    match expand(alloc, pattern.as_str(), groks) {
        Ok(expanded) => Ok(expanded),
        Err(GrokRefusal::OutOfMemory) => Err(AllocError),
        Err(GrokRefusal::UnknownPattern { .. }) => unreachable!(),
        Err(GrokRefusal::Circular { .. }) => unreachable!(),
        Err(GrokRefusal::TooLong) => unreachable!(),
    }
}

// The text of an extractor's pattern, and the names of its groups.
fn pattern_and_names(
    alloc: Global,
    groks: &BTreeMap<String, String>,
    kind: &ExtractorKind,
) -> Result<(Option<Text>, Items<Text>), AllocError>
    requires { Expands (table_of groks.now) kind.now }
    ensures { IfOk result (λ both. both ≡ (kind_pattern (table_of groks.now) kind.now, group_names (table_of groks.now) kind.now)) }
{
    match kind {
        ExtractorKind::Regex { pattern, .. } => Ok((Some(pattern.copy()?), Items::new(alloc))),
        ExtractorKind::Grok { pattern } => {
            let expanded = expanded(alloc, groks, pattern)?;
            Ok((Some(expanded.text), expanded.fields))
        }
        ExtractorKind::Substring { .. } | ExtractorKind::Split { .. } | ExtractorKind::Json => {
            Ok((None, Items::new(alloc)))
        }
    }
}

fn condition_pattern(condition: &Condition) -> Option<&Text>
    ensures { option_copied result ≡ condition_pattern condition.now }
{
    match condition {
        Condition::Regex(pattern) => Some(pattern),
        Condition::None | Condition::Contains(_) => None,
    }
}

/// What is built for an extractor.
pub fn build_extractor<P: PatternShop>(
    alloc: Global,
    shop: &mut P,
    groks: &BTreeMap<String, String>,
    extractor: &Extractor,
) -> Result<Built, StageFault>
    requires { Expands (table_of groks.now) extractor.now.kind }
    ensures value { IfOk result (λ built. built ≡ built_of (table_of groks.now) extractor.now) }
    ensures builds { Builds (extractor_patterns (table_of groks.now) extractor.now) (P.faults shop.old) (P.faults shop.new) (P.refused shop.old) (P.refused shop.new) result }
{
    let parts = extractor.parts();
    let (text, names) = pattern_and_names(alloc, groks, &parts.kind)?;
    let pattern = build_some(shop, text.as_ref())?;
    let condition = build_some(shop, condition_pattern(&parts.condition))?;
    Ok(Built::new(pattern, condition, names))
}
