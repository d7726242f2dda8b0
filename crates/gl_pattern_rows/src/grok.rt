// Grok: the tables of named patterns, and what patterns become by them.

use crate::desk::Desk;
use gl_grok::{Expanded, GrokRefusal, expand, initial_patterns, name_pattern};
use gl_rows::{Row, push_bytes};
use std::alloc::{AllocError, Global};
use std::collections::BTreeMap;

pub fn answer(
    alloc: Global,
    row: &Row,
    desk: &mut Desk,
    out: &mut String,
) -> Result<(), AllocError> {
    match row.text(0) {
        "initial" => {
            desk.patterns = initial_patterns(alloc)?;
            Ok(())
        }
        "none" => {
            desk.patterns = BTreeMap::new(alloc);
            Ok(())
        }
        "name" => name(alloc, row, &mut desk.patterns),
        "expand" => expanded(alloc, row.text(1), &desk.patterns, out),
        _ => out.push_str("no such subject"),
    }
}

/// Names the patterns of a row, which are written `NAME=PATTERN`.
fn name(alloc: Global, row: &Row, table: &mut BTreeMap<String, String>) -> Result<(), AllocError> {
    for index in 1..row.len() {
        if let Some((name, pattern)) = row.text(index).split_once('=') {
            name_pattern(alloc, table, name, pattern)?;
        }
    }
    Ok(())
}

/// What a pattern becomes, and the fields of its groups.
fn expanded(
    alloc: Global,
    pattern: &str,
    table: &BTreeMap<String, String>,
    out: &mut String,
) -> Result<(), AllocError> {
    match expand(alloc, pattern, table) {
        Ok(expanded) => push_expanded(out, &expanded),
        Err(refusal) => push_refusal(out, refusal),
    }
}

fn push_expanded(out: &mut String, expanded: &Expanded) -> Result<(), AllocError> {
    out.push_str("becomes ")?;
    push_bytes(out, expanded.text.as_str().as_bytes())?;
    if !expanded.fields.is_empty() {
        out.push_str("\nfields")?;
    }
    for field in expanded.fields.as_slice() {
        out.push(' ')?;
        push_bytes(out, field.as_str().as_bytes())?;
    }
    Ok(())
}

fn push_refusal(out: &mut String, refusal: GrokRefusal) -> Result<(), AllocError> {
    match refusal {
        GrokRefusal::UnknownPattern { name } => {
            out.push_str("unknown ")?;
            push_bytes(out, name.as_str().as_bytes())
        }
        GrokRefusal::Circular { name } => {
            out.push_str("circular ")?;
            push_bytes(out, name.as_str().as_bytes())
        }
        GrokRefusal::TooLong => out.push_str("too-long"),
        GrokRefusal::OutOfMemory => Err(AllocError),
    }
}
