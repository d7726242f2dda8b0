// Queries: how they print, and what they hold of.

use crate::desk::Desk;
use gl_fields::FieldMap;
use gl_query::{QueryRefusal, matches, print_query, read_query};
use gl_rows::{Row, fields_of, push_bytes, push_truth, push_word};
use std::alloc::{AllocError, Global};

pub fn answer(
    alloc: Global,
    row: &Row,
    desk: &mut Desk,
    out: &mut String,
) -> Result<(), AllocError> {
    match row.text(0) {
        "fields" => {
            desk.fields = fields_of(alloc, row, out)?;
            Ok(())
        }
        "query" => query(alloc, row.text(1), out),
        "holds" => holds(alloc, row.text(1), &desk.fields, out),
        _ => out.push_str("no such subject"),
    }
}

/// The printed text of a query, or its refusal.
fn printed(alloc: Global, text: &str) -> Result<String, AllocError> {
    match read_query(alloc, text) {
        Ok(query) => print_query(alloc, &query),
        Err(refusal) => refusal_text(alloc, refusal),
    }
}

fn refusal_text(alloc: Global, refusal: QueryRefusal) -> Result<String, AllocError> {
    let mut text = String::new(alloc);
    match refusal {
        QueryRefusal::BadQuery { at } => push_word(&mut text, "bad-query", at)?,
        QueryRefusal::OutOfMemory => return Err(AllocError),
    }
    Ok(text)
}

/// How a query prints, and how that prints where it doesn't print as itself.
fn query(alloc: Global, text: &str, out: &mut String) -> Result<(), AllocError> {
    let first = printed(alloc, text)?;
    push_bytes(out, first.as_bytes())?;
    if first.as_str().starts_with("bad-query") {
        return Ok(());
    }
    let again = printed(alloc, first.as_str())?;
    if again.as_str() != first.as_str() {
        out.push_str("\nread again: ")?;
        push_bytes(out, again.as_bytes())?;
    }
    Ok(())
}

/// Whether a query holds of the fields.
fn holds(alloc: Global, text: &str, fields: &FieldMap, out: &mut String) -> Result<(), AllocError> {
    match read_query(alloc, text) {
        Ok(query) => push_truth(out, matches(&query, fields)),
        Err(refusal) => out.push_str(refusal_text(alloc, refusal)?.as_str()),
    }
}
