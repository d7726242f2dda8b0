// Objects, strings and fields of RFC 8259.

use gl_fields::Value;
use gl_json::{JsonRefusal, flatten, read_object, unescape};
use gl_rows::{Row, push_bytes, push_field, push_word};
use std::alloc::{AllocError, Global};
use std::fmt::Write;

/// More fields are told by their number and the first one.
const MOST: usize = 16;

pub fn answer(alloc: Global, row: &Row, out: &mut String) -> Result<(), AllocError> {
    match row.text(0) {
        "object" => object(alloc, row.bytes(1), out),
        "spoilt" => spoilt(alloc, row.bytes(1), out),
        "inside" => inside(alloc, row.bytes(1), out),
        "flatten" => flattened(alloc, row.bytes(1), out),
        _ => out.push_str("no such subject"),
    }
}

fn push_refusal(out: &mut String, refusal: JsonRefusal) -> Result<(), AllocError> {
    match refusal {
        JsonRefusal::NotJson { at } => push_word(out, "not-json", at),
        JsonRefusal::TooDeep => out.push_str("too-deep"),
        JsonRefusal::OutOfMemory => Err(AllocError),
    }
}

/// How many members an object has.
fn object(alloc: Global, text: &[u8], out: &mut String) -> Result<(), AllocError> {
    match read_object(alloc, text) {
        Ok(members) => push_word(out, "members", members.len() as u64),
        Err(refusal) => push_refusal(out, refusal),
    }
}

/// What a string says whose inside this is.
fn inside(alloc: Global, raw: &[u8], out: &mut String) -> Result<(), AllocError> {
    match unescape(alloc, raw) {
        Ok(text) => {
            out.push_str("says ")?;
            push_bytes(out, text.as_bytes())
        }
        Err(refusal) => push_refusal(out, refusal),
    }
}

/// Whether a text is refused at the byte that is spoilt.
fn is_refused_there(alloc: Global, text: &[u8], at: usize) -> Result<bool, AllocError> {
    let mut other = Vec::from_slice(alloc, text)?;
    if let Some(byte) = other.get_mut(at) {
        *byte = 0xff;
    }
    let is_there = match read_object(alloc, other.as_slice()) {
        Err(JsonRefusal::NotJson { at: place }) => place == at as u64,
        _ => false,
    };
    Ok(is_there)
}

/// At how many of its bytes an object is refused there where a byte that UTF-8 doesn't have is put in its place.
fn spoilt(alloc: Global, text: &[u8], out: &mut String) -> Result<(), AllocError> {
    let mut count = 0u64;
    for at in 0..text.len() {
        if is_refused_there(alloc, text, at)? {
            count = count.saturating_add(1);
        }
    }
    let len = text.len();
    write!(out, "refused at {count} of {len}")
}

/// The fields of an object and of those that nest in it.
fn flattened(alloc: Global, text: &[u8], out: &mut String) -> Result<(), AllocError> {
    match flatten(alloc, text) {
        Ok(fields) => push_fields(out, fields.as_slice()),
        Err(refusal) => push_refusal(out, refusal),
    }
}

fn push_fields(out: &mut String, fields: &[(String, Value)]) -> Result<(), AllocError> {
    push_word(out, "fields", fields.len() as u64)?;
    let shown = if fields.len() > MOST { 1 } else { MOST };
    for field in fields.iter().take(shown) {
        out.push(' ')?;
        push_field(out, field.0.as_str(), &field.1)?;
    }
    Ok(())
}
