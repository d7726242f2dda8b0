// How extractors are shown, each a line.

use gl_extract::{Condition, Converter, Extractor, ExtractorKind};
use gl_rows::push_bytes;
use std::alloc::AllocError;
use std::fmt::Write;

pub fn push_all(out: &mut String, extractors: &[Extractor]) -> Result<(), AllocError> {
    if extractors.is_empty() {
        return out.push_str("no extractors\n");
    }
    for extractor in extractors {
        push_extractor(out, extractor)?;
        out.push('\n')?;
    }
    Ok(())
}

fn push_extractor(out: &mut String, extractor: &Extractor) -> Result<(), AllocError> {
    let parts = extractor.parts();
    push_bytes(out, parts.source.as_str().as_bytes())?;
    push_kind(out, &parts.kind)?;
    if parts.cut {
        out.push_str(" cut")?;
    }
    push_condition(out, &parts.condition)?;
    for converter in parts.converters.as_slice() {
        out.push_str(converter_word(*converter))?;
    }
    Ok(())
}

fn push_target(out: &mut String, target: &str) -> Result<(), AllocError> {
    out.push_str(" to ")?;
    push_bytes(out, target.as_bytes())
}

fn push_kind(out: &mut String, kind: &ExtractorKind) -> Result<(), AllocError> {
    match kind {
        ExtractorKind::Regex { pattern, target } => {
            out.push_str(" regex ")?;
            push_bytes(out, pattern.as_str().as_bytes())?;
            push_target(out, target.as_str())
        }
        ExtractorKind::Substring { begin, end, target } => {
            write!(out, " substring {begin} {end}")?;
            push_target(out, target.as_str())
        }
        ExtractorKind::Split { by, index, target } => {
            out.push_str(" split ")?;
            push_bytes(out, by.as_str().as_bytes())?;
            write!(out, " {index}")?;
            push_target(out, target.as_str())
        }
        ExtractorKind::Grok { pattern } => {
            out.push_str(" grok ")?;
            push_bytes(out, pattern.as_str().as_bytes())
        }
        ExtractorKind::Json => out.push_str(" json"),
    }
}

fn push_condition(out: &mut String, condition: &Condition) -> Result<(), AllocError> {
    match condition {
        Condition::None => Ok(()),
        Condition::Contains(part) => {
            out.push_str(" contains ")?;
            push_bytes(out, part.as_str().as_bytes())
        }
        Condition::Regex(pattern) => {
            out.push_str(" matches ")?;
            push_bytes(out, pattern.as_str().as_bytes())
        }
    }
}

fn converter_word(converter: Converter) -> &'static str {
    match converter {
        Converter::Numeric => " numeric",
        Converter::Lowercase => " lowercase",
        Converter::Uppercase => " uppercase",
        Converter::SyslogLevel => " syslog_level",
        Converter::SyslogFacility => " syslog_facility",
    }
}
