// Rules and pipelines: how their texts print, or where they are refused.

use gl_rows::{Row, push_word};
use gl_rulelang::{TextRefusal, print_pipeline, print_rule, read_pipeline, read_rule};
use std::alloc::{AllocError, Global};

/// What stands around the condition of a rule without actions, where it is printed.
const BEFORE: &str = "rule \"r\"\nwhen\n  ";

const BEHIND: &str = "\nthen\nend\n";

pub fn answer(alloc: Global, row: &Row, out: &mut String) -> Result<(), AllocError> {
    match row.text(0) {
        "rule" => rule(alloc, row.text(1), out),
        "condition" => condition(alloc, row.text(1), out),
        "pipeline" => pipeline(alloc, row.text(1), out),
        _ => out.push_str("no such subject"),
    }
}

fn refusal_text(alloc: Global, refusal: TextRefusal) -> Result<String, AllocError> {
    let mut text = String::new(alloc);
    match refusal {
        TextRefusal::BadToken { at } => push_word(&mut text, "bad-token", at)?,
        TextRefusal::Unexpected { at } => push_word(&mut text, "unexpected", at)?,
        TextRefusal::TooDeep => text.push_str("too-deep")?,
        TextRefusal::OutOfMemory => return Err(AllocError),
    }
    Ok(text)
}

/// The printed text of a rule, or its refusal.
fn printed_rule(alloc: Global, text: &str) -> Result<String, AllocError> {
    match read_rule(alloc, text) {
        Ok(rule) => String::from_str(alloc, print_rule(alloc, &rule)?.as_str()),
        Err(refusal) => refusal_text(alloc, refusal),
    }
}

/// The printed text of a pipeline, or its refusal.
fn printed_pipeline(alloc: Global, text: &str) -> Result<String, AllocError> {
    match read_pipeline(alloc, text) {
        Ok(pipeline) => String::from_str(alloc, print_pipeline(alloc, &pipeline)?.as_str()),
        Err(refusal) => refusal_text(alloc, refusal),
    }
}

/// Tells where a printed text doesn't print as itself. Each ends in a line feed, as no refusal does.
fn push_again(out: &mut String, first: &str, again: &str) -> Result<(), AllocError> {
    if first.ends_with('\n') && again != first {
        out.push_str("read again:\n")?;
        out.push_str(again)?;
    }
    Ok(())
}

fn rule(alloc: Global, text: &str, out: &mut String) -> Result<(), AllocError> {
    let first = printed_rule(alloc, text)?;
    let again = printed_rule(alloc, first.as_str())?;
    out.push_str(first.as_str())?;
    push_again(out, first.as_str(), again.as_str())
}

fn pipeline(alloc: Global, text: &str, out: &mut String) -> Result<(), AllocError> {
    let first = printed_pipeline(alloc, text)?;
    let again = printed_pipeline(alloc, first.as_str())?;
    out.push_str(first.as_str())?;
    push_again(out, first.as_str(), again.as_str())
}

/// How the condition of a rule prints.
fn condition(alloc: Global, text: &str, out: &mut String) -> Result<(), AllocError> {
    let mut whole = String::from_str(alloc, "rule \"r\" when ")?;
    whole.push_str(text)?;
    whole.push_str(" then end")?;
    let printed = printed_rule(alloc, whole.as_str())?;
    out.push_str(condition_in(printed.as_str()))
}

/// The condition in a printed rule; any other text as it stands.
fn condition_in(printed: &str) -> &str {
    match printed.strip_prefix(BEFORE) {
        Some(rest) => match rest.strip_suffix(BEHIND) {
            Some(condition) => condition,
            None => printed,
        },
        None => printed,
    }
}
