use crate::{extract, grok, streams};
use gl_extract::Extractor;
use gl_fields::FieldMap;
use gl_rows::{Answering, Row};
use gl_streams::Stream;
use std::alloc::{AllocError, Global};
use std::collections::BTreeMap;

/// What the rows of a file put down for those behind them.
#[derive(Drop)]
pub struct Desk {
    pub fields: FieldMap,
    pub patterns: BTreeMap<String, String>,
    pub extractors: Vec<Extractor>,
    pub streams: Vec<Stream>,
}

impl Desk {
    pub fn new(alloc: Global) -> Desk {
        Desk {
            fields: FieldMap::new(alloc),
            patterns: BTreeMap::new(alloc),
            extractors: Vec::new(alloc),
            streams: Vec::new(alloc),
        }
    }
}

impl Answering for Desk {
    fn answer(
        &mut self,
        alloc: Global,
        file: &str,
        row: &Row,
        out: &mut String,
    ) -> Result<(), AllocError> {
        match file {
            "extract.rows" => extract::answer(alloc, row, self, out),
            "grok.rows" => grok::answer(alloc, row, self, out),
            "streams.rows" => streams::answer(alloc, row, self, out),
            _ => out.push_str("no such file"),
        }
    }
}
