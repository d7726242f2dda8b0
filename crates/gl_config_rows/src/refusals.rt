// How refusals are told.

use gl_check::CheckRefusal;
use gl_config::{Bound, ConfigRefusal, Text};
use gl_extract::ExtractRefusal;
use gl_grok::GrokRefusal;
use gl_lookup::LookupRefusal;
use gl_rows::{push_bytes, push_word};
use gl_rulelang::TextRefusal;
use std::alloc::AllocError;
use std::fmt::Write;

pub fn push_refusal(out: &mut String, refusal: &ConfigRefusal) -> Result<(), AllocError> {
    match refusal {
        ConfigRefusal::VersionConflict { present } => push_word(out, "VersionConflict", *present),
        ConfigRefusal::NameTaken => out.push_str("NameTaken"),
        ConfigRefusal::UnknownName => out.push_str("UnknownName"),
        ConfigRefusal::BadName => out.push_str("BadName"),
        ConfigRefusal::BadText(text) => push_text(out, text),
        ConfigRefusal::PatternRefused => out.push_str("PatternRefused"),
        ConfigRefusal::Limit { which, limit } => {
            out.push_str("Limit ")?;
            push_word(out, bound_word(*which), *limit)
        }
        ConfigRefusal::Budget { sum, limit } => write!(out, "Budget {sum} {limit}"),
        ConfigRefusal::OutOfMemory => Err(AllocError),
    }
}

fn bound_word(bound: Bound) -> &'static str {
    match bound {
        Bound::Inputs => "Inputs",
        Bound::IndexSets => "IndexSets",
        Bound::Streams => "Streams",
        Bound::StreamRules => "StreamRules",
        Bound::Rules => "Rules",
        Bound::Pipelines => "Pipelines",
        Bound::Lookups => "Lookups",
        Bound::Groks => "Groks",
        Bound::Users => "Users",
        Bound::Extractors => "Extractors",
        Bound::Patterns => "Patterns",
        Bound::Connected => "Connected",
    }
}

/// A text that can't be: which it is, and the refusal of what reads it.
fn push_text(out: &mut String, text: &Text) -> Result<(), AllocError> {
    out.push_str(text_word(text))?;
    match text {
        Text::Rule(refusal) => push_source(out, *refusal),
        Text::Check(refusal) => push_check(out, *refusal),
        Text::Grok(refusal) => push_grok(out, refusal),
        Text::Csv(refusal) => push_csv(out, *refusal),
        Text::Extract(refusal) => push_extract(out, *refusal),
        Text::Number | Text::Hash => Ok(()),
    }
}

fn text_word(text: &Text) -> &'static str {
    match text {
        Text::Rule(_) => "BadText Rule ",
        Text::Check(_) => "BadText Check ",
        Text::Grok(_) => "BadText Grok ",
        Text::Csv(_) => "BadText Csv ",
        Text::Extract(_) => "BadText Extract ",
        Text::Number => "BadText Number",
        Text::Hash => "BadText Hash",
    }
}

fn push_source(out: &mut String, refusal: TextRefusal) -> Result<(), AllocError> {
    match refusal {
        TextRefusal::BadToken { at } => push_word(out, "BadToken", at),
        TextRefusal::Unexpected { at } => push_word(out, "Unexpected", at),
        TextRefusal::TooDeep => out.push_str("TooDeep"),
        TextRefusal::OutOfMemory => Err(AllocError),
    }
}

fn push_check(out: &mut String, refusal: CheckRefusal) -> Result<(), AllocError> {
    match refusal {
        CheckRefusal::UnknownFunction { at } => push_word(out, "UnknownFunction", at),
        CheckRefusal::BadArguments { at } => push_word(out, "BadArguments", at),
        CheckRefusal::WrongType { at } => push_word(out, "WrongType", at),
        CheckRefusal::UnknownVariable { at } => push_word(out, "UnknownVariable", at),
        CheckRefusal::OutOfMemory => Err(AllocError),
    }
}

fn push_grok(out: &mut String, refusal: &GrokRefusal) -> Result<(), AllocError> {
    match refusal {
        GrokRefusal::UnknownPattern { name } => {
            out.push_str("UnknownPattern ")?;
            push_bytes(out, name.as_str().as_bytes())
        }
        GrokRefusal::Circular { name } => {
            out.push_str("Circular ")?;
            push_bytes(out, name.as_str().as_bytes())
        }
        GrokRefusal::TooLong => out.push_str("TooLong"),
        GrokRefusal::OutOfMemory => Err(AllocError),
    }
}

fn push_csv(out: &mut String, refusal: LookupRefusal) -> Result<(), AllocError> {
    match refusal {
        LookupRefusal::BadCsv { row } => push_word(out, "BadCsv", row),
        LookupRefusal::NoColumn => out.push_str("NoColumn"),
        LookupRefusal::TooManyRows => out.push_str("TooManyRows"),
        LookupRefusal::OutOfMemory => Err(AllocError),
    }
}

fn push_extract(out: &mut String, refusal: ExtractRefusal) -> Result<(), AllocError> {
    match refusal {
        ExtractRefusal::BadName => out.push_str("BadName"),
        ExtractRefusal::CutNotAllowed => out.push_str("CutNotAllowed"),
        ExtractRefusal::BadRange => out.push_str("BadRange"),
    }
}
