// How streams are shown: each a line, and its rules a line each behind it.

use gl_rows::push_bytes;
use gl_streams::{Stream, StreamRule, Test};
use std::alloc::AllocError;
use std::fmt::Write;

pub fn push_all(out: &mut String, streams: &[Stream]) -> Result<(), AllocError> {
    for stream in streams {
        push_stream(out, stream)?;
        for rule in stream.rules.as_slice() {
            push_rule(out, rule)?;
        }
    }
    Ok(())
}

fn push_stream(out: &mut String, stream: &Stream) -> Result<(), AllocError> {
    let id = stream.id;
    write!(out, "stream {id} ")?;
    push_bytes(out, stream.name.as_str().as_bytes())?;
    out.push_str(" in ")?;
    push_bytes(out, stream.index_set.as_str().as_bytes())?;
    push_word_if(out, stream.any, " any")?;
    push_word_if(out, stream.remove_from_default, " remove_from_default")?;
    push_word_if(out, stream.paused, " paused")?;
    out.push('\n')
}

fn push_word_if(out: &mut String, truth: bool, word: &str) -> Result<(), AllocError> {
    if truth {
        return out.push_str(word);
    }
    Ok(())
}

fn push_rule(out: &mut String, rule: &StreamRule) -> Result<(), AllocError> {
    out.push_str("rule ")?;
    push_bytes(out, rule.field.as_str().as_bytes())?;
    push_test(out, &rule.test)?;
    push_word_if(out, rule.inverted, " inverted")?;
    out.push('\n')
}

fn push_test(out: &mut String, test: &Test) -> Result<(), AllocError> {
    match test {
        Test::Exact(text) => push_text(out, " exact ", text.as_str()),
        Test::Regex(pattern) => push_text(out, " regex ", pattern.as_str()),
        Test::Greater(number) => write!(out, " greater {number}"),
        Test::Smaller(number) => write!(out, " smaller {number}"),
        Test::Presence => out.push_str(" presence"),
        Test::Contains(part) => push_text(out, " contains ", part.as_str()),
        Test::Always => out.push_str(" always"),
    }
}

fn push_text(out: &mut String, word: &str, text: &str) -> Result<(), AllocError> {
    out.push_str(word)?;
    push_bytes(out, text.as_bytes())
}
