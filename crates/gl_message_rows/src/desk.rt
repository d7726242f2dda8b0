use crate::{entries, fields, gelf, json, syslog};
use gl_fields::FieldMap;
use gl_gelf::Chunks;
use gl_rows::{Answering, Row};
use std::alloc::{AllocError, Global};

/// What the rows of a file put down for those behind them.
#[derive(Drop)]
pub struct Desk {
    pub fields: FieldMap,
    pub chunks: Chunks,
}

impl Desk {
    pub fn new(alloc: Global) -> Desk {
        Desk {
            fields: FieldMap::new(alloc),
            chunks: Chunks::new(alloc),
        }
    }
}

impl Answering for Desk {
    fn answer(
        &mut self,
        alloc: Global,
        file: &str,
        row: &Row,
        out: &mut String,
    ) -> Result<(), AllocError> {
        match file {
            "entries.rows" => entries::answer(alloc, row, out),
            "fields.rows" => fields::answer(alloc, row, self, out),
            "gelf.rows" => gelf::answer(alloc, row, self, out),
            "json.rows" => json::answer(alloc, row, out),
            "syslog.rows" => syslog::answer(alloc, row, out),
            _ => out.push_str("no such file"),
        }
    }
}
