// Maps of fields in rows: how their fields are written, set and shown.

use crate::notation;
use crate::row::Row;
use crate::shown::{push_bytes, push_field, push_word};
use gl_base::Text;
use gl_fields::{FieldMap, FieldRefusal, Value};
use std::alloc::{AllocError, Global};

/// More fields are told by their number alone.
const MOST: usize = 16;

/// The name and the value of a field that is written `name=TEXT` or `name:NUMBER`.
pub fn named_value(alloc: Global, word: &str) -> Result<(&str, Value), AllocError> {
    if let Some((name, text)) = word.split_once('=') {
        if !name.contains(':') {
            return Ok((name, Value::Text(Text::from_str(alloc, text)?)));
        }
    }
    match word.split_once(':') {
        Some((name, number)) => Ok((name, Value::Whole(notation::whole(number)))),
        None => Ok((word, Value::Whole(0))),
    }
}

/// Puts the refusal of a field behind a text, as a line.
pub fn push_refusal(out: &mut String, refusal: FieldRefusal) -> Result<(), AllocError> {
    match refusal {
        FieldRefusal::BadFieldName => out.push_str("bad-field-name\n"),
        FieldRefusal::TooManyFields => out.push_str("too-many-fields\n"),
        FieldRefusal::TooLarge => out.push_str("too-large\n"),
        FieldRefusal::Reserved => out.push_str("reserved\n"),
        FieldRefusal::OutOfMemory => Err(AllocError),
    }
}

/// Sets the fields that a row's words from this one on write, in turn, and tells each answer.
pub fn set_words(
    alloc: Global,
    row: &Row,
    from: usize,
    fields: &mut FieldMap,
    out: &mut String,
) -> Result<(), AllocError> {
    for index in from..row.len() {
        let (name, value) = named_value(alloc, row.text(index))?;
        match fields.set(name, value) {
            Ok(()) => out.push_str("set\n")?,
            Err(refusal) => push_refusal(out, refusal)?,
        }
    }
    Ok(())
}

/// A new map in which the fields of a row are set.
pub fn fields_of(alloc: Global, row: &Row, out: &mut String) -> Result<FieldMap, AllocError> {
    let mut fields = FieldMap::new(alloc);
    set_words(alloc, row, 1, &mut fields, out)?;
    Ok(fields)
}

/// Puts the fields of a map behind a text.
pub fn push_fields(out: &mut String, fields: &FieldMap) -> Result<(), AllocError> {
    if fields.len() > MOST || fields.is_empty() {
        return push_word(out, "fields", fields.len() as u64);
    }
    for (i, field) in fields.as_slice().iter().enumerate() {
        if i > 0 {
            out.push('&')?;
        }
        push_field(out, field.name.as_str(), &field.value)?;
    }
    Ok(())
}

/// Tells what the fields hold that a row names.
pub fn push_named(out: &mut String, row: &Row, fields: &FieldMap) -> Result<(), AllocError> {
    for index in 1..row.len() {
        let name = row.text(index);
        match fields.get(name) {
            Some(value) => push_field(out, name, value)?,
            None => {
                push_bytes(out, name.as_bytes())?;
                out.push_str(" not-there")?;
            }
        }
        out.push('\n')?;
    }
    Ok(())
}
