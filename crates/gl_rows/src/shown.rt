// How answers are written: printable ASCII stands for itself, and every other byte is escaped.

use gl_base::Fed;
use gl_fields::Value;
use percent_encoding::{AsciiSet, CONTROLS, percent_encode};
use std::alloc::AllocError;
use std::fmt::Write;

/// A longer text is shown by its first bytes and its length.
const LONGEST: usize = 220;

/// How many bytes are shown of a longer text.
const FRONT: usize = 20;

/// Puts bytes behind a text, those of the set escaped.
fn push_escaped(out: &mut String, bytes: &[u8], set: AsciiSet) -> Result<(), AllocError> {
    if bytes.len() <= LONGEST {
        return percent_encode(bytes, set).append_to(out);
    }
    percent_encode(&bytes[..FRONT], set).append_to(out)?;
    let len = bytes.len();
    write!(out, "..({len} bytes)")
}

/// Puts bytes behind a text. Spaces are escaped where the last byte is one, which would not be seen.
pub fn push_bytes(out: &mut String, bytes: &[u8]) -> Result<(), AllocError> {
    if bytes.is_empty() {
        return out.push_str("(empty)");
    }
    if bytes.ends_with(b" ") {
        return push_escaped(out, bytes, CONTROLS.add(b'%').add(b' '));
    }
    push_escaped(out, bytes, CONTROLS.add(b'%'))
}

/// Puts a word and the text of a whole number behind a text.
pub fn push_word(out: &mut String, word: &str, number: u64) -> Result<(), AllocError> {
    write!(out, "{word} {number}")
}

/// Puts a field behind a text, as a line of `list` has it.
pub fn push_field(out: &mut String, name: &str, value: &Value) -> Result<(), AllocError> {
    push_escaped(out, name.as_bytes(), CONTROLS.add(b'%'))?;
    match value {
        Value::Text(text) => {
            out.push('=')?;
            let set = CONTROLS.add(b'%').add(b'&').add(b' ');
            push_escaped(out, text.as_str().as_bytes(), set)
        }
        Value::Whole(number) => write!(out, ":{number}"),
    }
}

/// Puts `yes` or `no` behind a text.
pub fn push_truth(out: &mut String, truth: bool) -> Result<(), AllocError> {
    out.push_str(if truth { "yes" } else { "no" })
}

/// Puts a place or `none` behind a text.
pub fn push_span(out: &mut String, span: Option<(usize, usize)>) -> Result<(), AllocError> {
    match span {
        Some((from, to)) => write!(out, "{from} {to}"),
        None => out.push_str("none"),
    }
}

/// What a reader of frames answers.
pub fn push_fed(out: &mut String, taken: usize, fed: Fed) -> Result<(), AllocError> {
    match fed {
        Fed::Nothing => write!(out, "{taken} nothing"),
        Fed::Whole => write!(out, "{taken} whole "),
        Fed::TooLong => write!(out, "{taken} too-long"),
        Fed::Closed => write!(out, "{taken} closed"),
    }
}
