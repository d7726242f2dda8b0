// Parts, pieces, characters and numbers of texts.

use gl_rows::{Row, push_span, push_truth};
use gl_text::{Decimal, characters, contains, piece, whole_number};
use std::alloc::AllocError;
use std::fmt::Write;

pub fn answer(row: &Row, out: &mut String) -> Result<(), AllocError> {
    let text = row.text(1);
    match row.text(0) {
        "contains" => push_truth(out, contains(text, row.text(2))),
        "piece" => push_span(out, piece(text, row.text(2), row.number(3))),
        "characters" => push_span(out, characters(text, row.number(2), row.number(3))),
        "whole-number" => push_whole(out, whole_number(text)),
        "decimal" => out.push_str(Decimal::new(row.whole(1)).as_str()),
        _ => out.push_str("no such subject"),
    }
}

fn push_whole(out: &mut String, number: Option<i64>) -> Result<(), AllocError> {
    match number {
        Some(number) => write!(out, "{number}"),
        None => out.push_str("none"),
    }
}
