// Extractors: which parts make one, what it makes of fields, and which are the same.

use crate::desk::Desk;
use crate::{patterns, streams};
use gl_base::{Items, Text};
use gl_extract::{
    Condition, Converter, ExtractRefusal, Extractor, ExtractorKind, ExtractorParts, apply,
};
use gl_fields::FieldMap;
use gl_grok::{Expanded, expand, initial_patterns};
use gl_rows::{Row, fields_of, push_fields, push_named};
use std::alloc::{AllocError, Global};
use std::fmt::Write;

pub fn answer(
    alloc: Global,
    row: &Row,
    desk: &mut Desk,
    out: &mut String,
) -> Result<(), AllocError> {
    match row.text(0) {
        "fields" => {
            desk.fields = fields_of(alloc, row, out)?;
            Ok(())
        }
        "get" => push_named(out, row, &desk.fields),
        "extract" => extract(alloc, row, &desk.fields, out),
        "take" => take(alloc, row, desk, out),
        "extractor" => keep(alloc, row, &mut desk.extractors, out),
        "same" => same(desk.extractors.as_slice(), out),
        "rule" => streams::rule(alloc, row, &desk.fields, out),
        _ => out.push_str("no such subject"),
    }
}

/// The condition that a word writes: `any`, `contains TEXT` or `matches PATTERN`.
fn condition_of(alloc: Global, word: &str) -> Result<Condition, AllocError> {
    if let Some(part) = word.strip_prefix("contains ") {
        return Ok(Condition::Contains(Text::from_str(alloc, part)?));
    }
    match word.strip_prefix("matches ") {
        Some(pattern) => Ok(Condition::Regex(Text::from_str(alloc, pattern)?)),
        None => Ok(Condition::None),
    }
}

/// The converters of a word, parted by spaces.
fn converters_of(alloc: Global, word: &str) -> Result<Items<Converter>, AllocError> {
    let mut converters = Items::new(alloc);
    for name in word.split(' ') {
        match name {
            "numeric" => converters.push(Converter::Numeric)?,
            "lowercase" => converters.push(Converter::Lowercase)?,
            "uppercase" => converters.push(Converter::Uppercase)?,
            "syslog-level" => converters.push(Converter::SyslogLevel)?,
            "syslog-facility" => converters.push(Converter::SyslogFacility)?,
            _ => {}
        }
    }
    Ok(converters)
}

/// The kind that a row writes, with its texts and numbers behind it.
fn kind_of(alloc: Global, row: &Row) -> Result<ExtractorKind, AllocError> {
    match row.text(5) {
        "regex" => Ok(ExtractorKind::Regex {
            pattern: Text::from_str(alloc, row.text(6))?,
            target: Text::from_str(alloc, row.text(7))?,
        }),
        "substring" => Ok(ExtractorKind::Substring {
            begin: row.number(6),
            end: row.number(7),
            target: Text::from_str(alloc, row.text(8))?,
        }),
        "split" => Ok(ExtractorKind::Split {
            by: Text::from_str(alloc, row.text(6))?,
            index: row.number(7),
            target: Text::from_str(alloc, row.text(8))?,
        }),
        "json" => Ok(ExtractorKind::Json),
        _ => Ok(ExtractorKind::Grok {
            pattern: Text::from_str(alloc, row.text(6))?,
        }),
    }
}

fn parts_of(alloc: Global, row: &Row) -> Result<ExtractorParts, AllocError> {
    Ok(ExtractorParts {
        kind: kind_of(alloc, row)?,
        source: Text::from_str(alloc, row.text(1))?,
        cut: row.text(2) == "cut",
        condition: condition_of(alloc, row.text(3))?,
        converters: converters_of(alloc, row.text(4))?,
    })
}

/// The text of a pattern that is expanded already, and the names of its groups.
fn groups_of(alloc: Global, row: &Row) -> Result<Expanded, AllocError> {
    let mut fields = Items::new(alloc);
    for index in 7..row.len() {
        fields.push(Text::from_str(alloc, row.text(index))?)?;
    }
    let text = Text::from_str(alloc, row.text(6))?;
    Ok(Expanded { text, fields })
}

/// What a grok pattern becomes by the initial patterns, or nothing where it is refused.
fn expanded_of(alloc: Global, row: &Row) -> Result<Option<Expanded>, AllocError> {
    if row.text(5) == "grok" {
        let table = initial_patterns(alloc)?;
        return Ok(expand(alloc, row.text(6), &table).ok());
    }
    Ok(Some(groups_of(alloc, row)?))
}

fn push_refusal(out: &mut String, refusal: ExtractRefusal) -> Result<(), AllocError> {
    match refusal {
        ExtractRefusal::BadName => out.push_str("bad-name"),
        ExtractRefusal::CutNotAllowed => out.push_str("cut-not-allowed"),
        ExtractRefusal::BadRange => out.push_str("bad-range"),
    }
}

/// Applies an extractor to fields, and says whether its patterns are.
fn is_applied(
    alloc: Global,
    row: &Row,
    extractor: &Extractor,
    fields: &mut FieldMap,
) -> Result<bool, AllocError> {
    let Some(expanded) = expanded_of(alloc, row)? else {
        return Ok(false);
    };
    match patterns::built_for(alloc, extractor.parts(), expanded) {
        Ok(built) => {
            let mut built = built;
            apply(alloc, extractor, &mut built, fields)?;
            Ok(true)
        }
        Err(_) => Ok(false),
    }
}

/// The fields after the extractor that a row writes, or why there are none.
fn extracted(
    alloc: Global,
    row: &Row,
    fields: &mut FieldMap,
    out: &mut String,
) -> Result<(), AllocError> {
    match Extractor::new(parts_of(alloc, row)?) {
        Ok(extractor) => {
            if !is_applied(alloc, row, &extractor, fields)? {
                out.push_str("no pattern, ")?;
            }
            push_fields(out, fields)
        }
        Err(refusal) => push_refusal(out, refusal),
    }
}

fn extract(
    alloc: Global,
    row: &Row,
    fields: &FieldMap,
    out: &mut String,
) -> Result<(), AllocError> {
    let mut copy = fields.copy()?;
    extracted(alloc, row, &mut copy, out)
}

/// The same, and the fields are put down.
fn take(alloc: Global, row: &Row, desk: &mut Desk, out: &mut String) -> Result<(), AllocError> {
    extracted(alloc, row, &mut desk.fields, out)
}

/// Keeps the extractor that a row writes.
fn keep(
    alloc: Global,
    row: &Row,
    kept: &mut Vec<Extractor>,
    out: &mut String,
) -> Result<(), AllocError> {
    match Extractor::new(parts_of(alloc, row)?) {
        Ok(extractor) => {
            kept.push(extractor)?;
            Ok(())
        }
        Err(refusal) => push_refusal(out, refusal),
    }
}

/// Which of the kept extractors are the same as which, and as its copy.
fn same(kept: &[Extractor], out: &mut String) -> Result<(), AllocError> {
    for (i, one) in kept.iter().enumerate() {
        let copy = one.copy()?;
        for (j, other) in kept.iter().enumerate() {
            if one.same(other) {
                write!(out, "{i}={j}")?;
            }
            if copy.same(other) {
                out.push_str(" and its copy\n")?;
            }
        }
    }
    Ok(())
}
