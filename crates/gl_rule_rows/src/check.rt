// Checking: the patterns of a lawful rule, or which node is at fault.

use gl_base::{Items, Text};
use gl_check::{CheckRefusal, Checked, check};
use gl_rows::{Row, push_bytes, push_word};
use gl_rulelang::read_rule;
use std::alloc::{AllocError, Global};

/// The rule `x` with this text behind its name.
fn rule_text(alloc: Global, rest: &str) -> Result<String, AllocError> {
    let mut text = String::from_str(alloc, "rule \"x\" ")?;
    text.push_str(rest)?;
    Ok(text)
}

pub fn answer(alloc: Global, row: &Row, out: &mut String) -> Result<(), AllocError> {
    let text = rule_text(alloc, row.text(1))?;
    match read_rule(alloc, text.as_str()) {
        Ok(rule) => match check(alloc, rule) {
            Ok(checked) => lawful(alloc, &checked, out),
            Err(refusal) => refused(out, refusal),
        },
        Err(_) => out.push_str("no rule"),
    }
}

fn lawful(alloc: Global, checked: &Checked, out: &mut String) -> Result<(), AllocError> {
    out.push_str("lawful")?;
    push_patterns(out, &checked.pattern_texts(alloc)?)
}

fn push_patterns(out: &mut String, texts: &Items<Text>) -> Result<(), AllocError> {
    for text in texts.as_slice() {
        out.push_str(" \"")?;
        push_bytes(out, text.as_str().as_bytes())?;
        out.push_str("\"")?;
    }
    Ok(())
}

fn refused(out: &mut String, refusal: CheckRefusal) -> Result<(), AllocError> {
    match refusal {
        CheckRefusal::UnknownFunction { at } => push_word(out, "unknown-function", at),
        CheckRefusal::BadArguments { at } => push_word(out, "bad-arguments", at),
        CheckRefusal::WrongType { at } => push_word(out, "wrong-type", at),
        CheckRefusal::UnknownVariable { at } => push_word(out, "unknown-variable", at),
        CheckRefusal::OutOfMemory => Err(AllocError),
    }
}
