use crate::{http, lookup, query, rules, text};
use gl_fields::FieldMap;
use gl_rows::{Answering, Row};
use std::alloc::{AllocError, Global};

/// What the rows of a file put down for those behind them.
#[derive(Drop)]
pub struct Desk {
    pub fields: FieldMap,
}

impl Desk {
    pub fn new(alloc: Global) -> Desk {
        Desk {
            fields: FieldMap::new(alloc),
        }
    }
}

impl Answering for Desk {
    fn answer(
        &mut self,
        alloc: Global,
        file: &str,
        row: &Row,
        out: &mut String,
    ) -> Result<(), AllocError> {
        match file {
            "http.rows" => http::answer(alloc, row, out),
            "lookup.rows" => lookup::answer(alloc, row, out),
            "query.rows" => query::answer(alloc, row, self, out),
            "rules.rows" => rules::answer(alloc, row, out),
            "text.rows" => text::answer(row, out),
            _ => out.push_str("no such file"),
        }
    }
}
