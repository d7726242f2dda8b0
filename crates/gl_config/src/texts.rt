// What the texts of a command are read as, and why they are refused.
ghost use Rattle.std.specs.Prelude.{◌≡◌, None, Ok, map, IfOk, IfErr, OnOk};
ghost use Rattle.gl_rulelang.specs.Tree.{rule_of};
ghost use Rattle.gl_rulelang.specs.Rules.{rule_text};
ghost use Rattle.gl_rulelang.specs.Pipelines.{pipeline_text};
ghost use Rattle.gl_check.specs.Checking.{first_fault};
ghost use Rattle.gl_grok.specs.Tables.{table_of};
ghost use Rattle.gl_lookup.specs.Rows.{rows_of};
ghost use Rattle.gl_lookup.specs.Tables as lookup;
ghost use Rattle.gl_settings.specs.Limits.{Refuses};
ghost use Rattle.gl_config.specs.Applying.{first_of, grok_cause, kind_cause, extractor_cause, text_cause, check_cause, csv_cause, groks_cause, kinds_cause, inputs_cause};
ghost use Rattle.gl_config.specs.Refusals.{refused_text, refused_rule, refused_table, refused_pattern};

use gl_base::{Items, Text};
use gl_check::{CheckRefusal, Checked, check};
use gl_extract::{Extractor, ExtractorKind, ExtractorParts};
use gl_grok::{GrokRefusal, expand};
use gl_lookup::{LookupRefusal, LookupTable};
use gl_rulelang::{Pipeline, Rule, TextRefusal, read_pipeline, read_rule};
use gl_settings::{ConfigRefusal, Input, Text as BadText};
use std::alloc::Global;
use std::collections::BTreeMap;

/// Whether a pattern of grok is expanded by this table.
pub fn check_pattern(
    alloc: Global,
    groks: &BTreeMap<String, String>,
    pattern: &str,
) -> Result<(), ConfigRefusal>
    ensures ok { OnOk result (grok_cause (table_of groks.now) pattern.now ≡ None) }
    ensures err { IfErr result (Refuses (grok_cause (table_of groks.now) pattern.now)) }
{
    match expand(alloc, pattern, groks) {
        Ok(_) => Ok(()),
        Err(refusal) => Err(refused_pattern(refusal)),
    }
}

/// The refusal of a pattern, unless it is that of memory.
fn refused_pattern(refusal: GrokRefusal) -> ConfigRefusal
    ensures { result ≡ refused_pattern refusal }
{
    match refusal {
        GrokRefusal::OutOfMemory => ConfigRefusal::OutOfMemory,
        GrokRefusal::UnknownPattern { name } => {
            ConfigRefusal::BadText(BadText::Grok(GrokRefusal::UnknownPattern { name }))
        }
        GrokRefusal::Circular { name } => {
            ConfigRefusal::BadText(BadText::Grok(GrokRefusal::Circular { name }))
        }
        GrokRefusal::TooLong => ConfigRefusal::BadText(BadText::Grok(GrokRefusal::TooLong)),
    }
}

/// Whether the pattern of an extractor, where it is one of grok, is expanded by this table.
fn check_kind(
    alloc: Global,
    groks: &BTreeMap<String, String>,
    kind: &ExtractorKind,
) -> Result<(), ConfigRefusal>
    ensures ok { OnOk result (kind_cause (table_of groks.now) kind.now ≡ None) }
    ensures err { IfErr result (Refuses (kind_cause (table_of groks.now) kind.now)) }
{
    match kind {
        ExtractorKind::Grok { pattern } => check_pattern(alloc, groks, pattern.as_str()),
        ExtractorKind::Regex { .. }
        | ExtractorKind::Substring { .. }
        | ExtractorKind::Split { .. }
        | ExtractorKind::Json => Ok(()),
    }
}

#[tactic(auto, using(crate::proofs::Refusing::refuses_first, crate::proofs::Refusing::refuses_later, crate::proofs::Refusing::none_both))]
fn extractor_of(
    alloc: Global,
    groks: &BTreeMap<String, String>,
    parts: &ExtractorParts,
) -> Result<Extractor, ConfigRefusal>
    ensures ok { IfOk result (λ made. (extractor_cause (table_of groks.now) parts.now ≡ None) × (made ≡ parts.now)) }
    ensures err { IfErr result (Refuses (extractor_cause (table_of groks.now) parts.now)) }
{
    let made = match Extractor::new(parts.copy()?) {
        Ok(made) => made,
        Err(refusal) => return Err(ConfigRefusal::BadText(BadText::Extract(refusal))),
    };
    check_kind(alloc, groks, &parts.kind)?;
    Ok(made)
}

/// The extractors of these parts, unless one is refused: then the first.
pub fn extractors_of(
    alloc: Global,
    groks: &BTreeMap<String, String>,
    extractors: &[ExtractorParts],
) -> Result<Items<Extractor>, ConfigRefusal>
    ensures ok { IfOk result (λ made. (first_of (map (extractor_cause (table_of groks.now)) extractors.now) ≡ None) × (made ≡ extractors.now)) }
    ensures err { IfErr result (Refuses (first_of (map (extractor_cause (table_of groks.now)) extractors.now))) }
{
    let mut made = Items::new(alloc);
    for parts in extractors {
        made.push(extractor_of(alloc, groks, parts)?)?;
    }
    Ok(made)
}

/// Whether each named pattern is expanded by the table: else the first by name that isn't is the cause.
pub fn check_named(alloc: Global, groks: &BTreeMap<String, String>) -> Result<(), ConfigRefusal>
    ensures ok { OnOk result (groks_cause (table_of groks.now) ≡ None) }
    ensures err { IfErr result (Refuses (groks_cause (table_of groks.now))) }
{
    for (name, pattern) in groks {
        check_pattern(alloc, groks, pattern.as_str())?;
    }
    Ok(())
}

fn check_extractors(
    alloc: Global,
    groks: &BTreeMap<String, String>,
    extractors: &[Extractor],
) -> Result<(), ConfigRefusal>
    ensures ok { OnOk result (kinds_cause (table_of groks.now) extractors.now ≡ None) }
    ensures err { IfErr result (Refuses (kinds_cause (table_of groks.now) extractors.now)) }
{
    for extractor in extractors {
        check_kind(alloc, groks, &extractor.parts().kind)?;
    }
    Ok(())
}

/// Whether the patterns of grok of all extractors are expanded by this table: else the first, by input and place, that isn't is
/// the cause.
pub fn check_inputs(
    alloc: Global,
    groks: &BTreeMap<String, String>,
    inputs: &[Input],
) -> Result<(), ConfigRefusal>
    ensures ok { OnOk result (inputs_cause (table_of groks.now) inputs.now ≡ None) }
    ensures err { IfErr result (Refuses (inputs_cause (table_of groks.now) inputs.now)) }
{
    for input in inputs {
        check_extractors(alloc, groks, input.extractors.as_slice())?;
    }
    Ok(())
}

/// A rule of this source, which wasn't looked into yet.
pub fn rule_in(alloc: Global, source: &Text) -> Result<Rule, ConfigRefusal>
    ensures ok { IfOk result (λ rule. rule_text source.now ≡ Ok (rule_of rule)) }
    ensures err { IfErr result (Refuses (text_cause (rule_text source.now))) }
{
    match read_rule(alloc, source.as_str()) {
        Ok(rule) => Ok(rule),
        Err(refusal) => Err(refused_text(refusal)),
    }
}

pub fn pipeline_in(alloc: Global, source: &Text) -> Result<Pipeline, ConfigRefusal>
    ensures ok { IfOk result (λ pipeline. pipeline_text source.now ≡ Ok pipeline) }
    ensures err { IfErr result (Refuses (text_cause (pipeline_text source.now))) }
{
    match read_pipeline(alloc, source.as_str()) {
        Ok(pipeline) => Ok(pipeline),
        Err(refusal) => Err(refused_text(refusal)),
    }
}

/// The refusal of a source, unless it is that of memory.
fn refused_text(refusal: TextRefusal) -> ConfigRefusal
    ensures { result ≡ refused_text refusal }
{
    match refusal {
        TextRefusal::BadToken { at } => {
            ConfigRefusal::BadText(BadText::Rule(TextRefusal::BadToken { at }))
        }
        TextRefusal::Unexpected { at } => {
            ConfigRefusal::BadText(BadText::Rule(TextRefusal::Unexpected { at }))
        }
        TextRefusal::TooDeep => ConfigRefusal::BadText(BadText::Rule(TextRefusal::TooDeep)),
        TextRefusal::OutOfMemory => ConfigRefusal::OutOfMemory,
    }
}

/// The rule, unless it has a fault.
pub fn check_rule(alloc: Global, rule: Rule) -> Result<Checked, ConfigRefusal>
    ensures ok { IfOk result (λ checked. (check_cause (rule_of rule) ≡ None) × (checked ≡ rule_of rule)) }
    ensures err { IfErr result (Refuses (check_cause (rule_of rule))) }
{
    match check(alloc, rule) {
        Ok(checked) => Ok(checked),
        Err(refusal) => Err(refused_rule(refusal)),
    }
}

/// The refusal of a rule, unless it is that of memory.
fn refused_rule(refusal: CheckRefusal) -> ConfigRefusal
    ensures { result ≡ refused_rule refusal }
{
    match refusal {
        CheckRefusal::OutOfMemory => ConfigRefusal::OutOfMemory,
        CheckRefusal::UnknownFunction { at } => {
            ConfigRefusal::BadText(BadText::Check(CheckRefusal::UnknownFunction { at }))
        }
        CheckRefusal::BadArguments { at } => {
            ConfigRefusal::BadText(BadText::Check(CheckRefusal::BadArguments { at }))
        }
        CheckRefusal::WrongType { at } => {
            ConfigRefusal::BadText(BadText::Check(CheckRefusal::WrongType { at }))
        }
        CheckRefusal::UnknownVariable { at } => {
            ConfigRefusal::BadText(BadText::Check(CheckRefusal::UnknownVariable { at }))
        }
    }
}

/// The lookup table of a text.
pub fn table_in(
    alloc: Global,
    csv: &Text,
    key: &Text,
    value: &Text,
) -> Result<LookupTable, ConfigRefusal>
    ensures ok { IfOk result (λ table. lookup.table_of key.now value.now (rows_of csv.now) ≡ Ok table) }
    ensures err { IfErr result (Refuses (csv_cause csv.now key.now value.now)) }
{
    match LookupTable::from_csv(alloc, csv.as_str(), key.as_str(), value.as_str()) {
        Ok(table) => Ok(table),
        Err(refusal) => Err(refused_table(refusal)),
    }
}

/// The refusal of a table, unless it is that of memory.
fn refused_table(refusal: LookupRefusal) -> ConfigRefusal
    ensures { result ≡ refused_table refusal }
{
    match refusal {
        LookupRefusal::OutOfMemory => ConfigRefusal::OutOfMemory,
        LookupRefusal::BadCsv { row } => {
            ConfigRefusal::BadText(BadText::Csv(LookupRefusal::BadCsv { row }))
        }
        LookupRefusal::NoColumn => ConfigRefusal::BadText(BadText::Csv(LookupRefusal::NoColumn)),
        LookupRefusal::TooManyRows => {
            ConfigRefusal::BadText(BadText::Csv(LookupRefusal::TooManyRows))
        }
    }
}
