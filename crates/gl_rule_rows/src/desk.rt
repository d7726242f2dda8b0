use crate::stages::Pipelines;
use crate::{acts, check, stages};
use gl_fields::FieldMap;
use gl_rows::{Answering, Row};
use std::alloc::{AllocError, Global};

/// What the rows of a file put down for those behind them: the fields of a message, and pipelines.
#[derive(Drop)]
pub struct Desk {
    pub fields: FieldMap,
    pub pipelines: Pipelines,
}

impl Desk {
    pub fn new(alloc: Global) -> Desk {
        Desk {
            fields: FieldMap::new(alloc),
            pipelines: Pipelines::new(alloc),
        }
    }
}

impl Answering for Desk {
    fn answer(
        &mut self,
        alloc: Global,
        file: &str,
        row: &Row,
        out: &mut String,
    ) -> Result<(), AllocError> {
        match file {
            "check.rows" => check::answer(alloc, row, out),
            "acts.rows" => acts::answer(alloc, row, self, out),
            "stages.rows" => stages::answer(alloc, row, self, out),
            _ => out.push_str("no such file"),
        }
    }
}
