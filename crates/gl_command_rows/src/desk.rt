use crate::{texts, values};
use gl_rows::{Answering, Row};
use std::alloc::{AllocError, Global};

/// What answers the rows. None of them puts anything down for those behind it.
#[derive(Drop)]
pub struct Desk;

impl Answering for Desk {
    fn answer(
        &mut self,
        alloc: Global,
        file: &str,
        row: &Row,
        out: &mut String,
    ) -> Result<(), AllocError> {
        match file {
            "texts.rows" => texts::answer(alloc, row, out),
            "values.rows" => values::answer(alloc, row, out),
            _ => out.push_str("no such file"),
        }
    }
}
