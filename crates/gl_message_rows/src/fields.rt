// Maps of fields: what is set, taken away and named anew.

use crate::desk::Desk;
use gl_fields::{FieldMap, FieldRefusal, is_field_name};
use gl_rows::{
    Row, fields_of, named_value, push_bytes, push_fields, push_named, push_refusal, push_truth,
    set_words,
};
use std::alloc::{AllocError, Global};

pub fn answer(
    alloc: Global,
    row: &Row,
    desk: &mut Desk,
    out: &mut String,
) -> Result<(), AllocError> {
    match row.text(0) {
        "fields" => {
            desk.fields = fields_of(alloc, row, out)?;
            Ok(())
        }
        "get" => push_named(out, row, &desk.fields),
        "set" => set(alloc, row, &desk.fields, out),
        "remove" => remove(row, &desk.fields, out),
        "rename" => rename(row, &desk.fields, out),
        "value" => value_text(alloc, row.text(1), out),
        "field-name" => push_truth(out, is_field_name(row.text(1))),
        _ => out.push_str("no such subject"),
    }
}

/// Sets fields in a copy of the map.
fn set(alloc: Global, row: &Row, fields: &FieldMap, out: &mut String) -> Result<(), AllocError> {
    let mut copy = fields.copy()?;
    set_words(alloc, row, 1, &mut copy, out)?;
    push_fields(out, &copy)
}

fn push_change(out: &mut String, change: Result<bool, FieldRefusal>) -> Result<(), AllocError> {
    match change {
        Ok(true) => out.push_str("done\n"),
        Ok(false) => out.push_str("not-there\n"),
        Err(refusal) => push_refusal(out, refusal),
    }
}

/// Takes fields of a copy of the map away, by their names.
fn remove(row: &Row, fields: &FieldMap, out: &mut String) -> Result<(), AllocError> {
    let mut copy = fields.copy()?;
    for index in 1..row.len() {
        let change = copy.remove(row.text(index));
        push_change(out, change)?;
    }
    push_fields(out, &copy)
}

/// Gives fields of a copy of the map other names: the first word's field gets the second as its name, that one the third.
fn rename(row: &Row, fields: &FieldMap, out: &mut String) -> Result<(), AllocError> {
    let mut copy = fields.copy()?;
    for index in 2..row.len() {
        let change = copy.rename(row.text(index - 1), row.text(index));
        push_change(out, change)?;
    }
    push_fields(out, &copy)
}

/// The text of a value.
fn value_text(alloc: Global, word: &str, out: &mut String) -> Result<(), AllocError> {
    let (_, value) = named_value(alloc, word)?;
    let text = value.to_text(alloc)?;
    push_bytes(out, text.as_str().as_bytes())
}
