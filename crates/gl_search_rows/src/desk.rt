use crate::shelf::Shelf;
use gl_base::{Items, Text};
use gl_fields::{FieldMap, SetRule};
use gl_postings::{Ask, Page};
use gl_query::{QueryRefusal, read_query};
use gl_rows::{Answering, Row, named_value, push_refusal, push_word};
use std::alloc::{AllocError, Global};
use std::fmt::Write;

/// The index sets that the rows of a file fill.
#[derive(Drop)]
pub struct Desk {
    shelf: Shelf,
}

impl Desk {
    pub fn new(alloc: Global) -> Desk {
        Desk {
            shelf: Shelf::new(alloc),
        }
    }
}

impl Answering for Desk {
    fn answer(
        &mut self,
        alloc: Global,
        _file: &str,
        row: &Row,
        out: &mut String,
    ) -> Result<(), AllocError> {
        match row.text(0) {
            "set" => add_set(alloc, &mut self.shelf, row, out),
            "store" => store(alloc, &mut self.shelf, row, out),
            "search" => search(alloc, &self.shelf, row, out),
            "indexes" => indexes(&self.shelf, out),
            _ => out.push_str("no such subject"),
        }
    }
}

/// set NAME ROWS MILLISECONDS KEEP: a set whose indexes have so many rows and span so much time, of which it keeps so many.
fn add_set(
    alloc: Global,
    shelf: &mut Shelf,
    row: &Row,
    out: &mut String,
) -> Result<(), AllocError> {
    let rule = SetRule {
        name: Text::from_str(alloc, row.text(1))?,
        max_docs: row.number(2),
        max_ms: row.number(3),
        keep: row.number(4),
    };
    out.push_str(if shelf.add_set(rule)? {
        "set"
    } else {
        "no set"
    })
}

/// store COUNT MOMENT SETS STREAMS FIELD..: so many rows with these fields.
fn store(alloc: Global, shelf: &mut Shelf, row: &Row, out: &mut String) -> Result<(), AllocError> {
    for _ in 0..row.number(1) {
        let streams = numbers(alloc, row.text(4))?;
        let fields = fields_of(alloc, row, out)?;
        shelf.store(row.number(2), row.text(3), streams, fields)?;
    }
    Ok(())
}

fn fields_of(alloc: Global, row: &Row, out: &mut String) -> Result<FieldMap, AllocError> {
    let mut fields = FieldMap::new(alloc);
    for index in 5..row.len() {
        let (name, value) = named_value(alloc, row.text(index))?;
        if let Err(refusal) = fields.set(name, value) {
            push_refusal(out, refusal)?;
        }
    }
    Ok(fields)
}

/// The numbers that stand between commas.
fn numbers(alloc: Global, text: &str) -> Result<Items<u64>, AllocError> {
    let mut numbers = Items::new(alloc);
    for number in text.split(',') {
        numbers.push(number.parse::<u64>().unwrap_or(0))?;
    }
    Ok(numbers)
}

/// search QUERY STREAMS FROM TO OFFSET LIMIT: how many rows are found, and the positions of the page.
fn search(alloc: Global, shelf: &Shelf, row: &Row, out: &mut String) -> Result<(), AllocError> {
    match read_query(alloc, row.text(1)) {
        Ok(query) => {
            let ask = Ask {
                query,
                chosen: numbers(alloc, row.text(2))?,
                from: row.number(3),
                to: row.number(4),
                offset: row.number(5),
                limit: row.number(6),
            };
            let page = shelf.search(&ask)?;
            push_page(out, &page)
        }
        Err(QueryRefusal::BadQuery { at }) => push_word(out, "bad-query", at),
        Err(QueryRefusal::OutOfMemory) => Err(AllocError),
    }
}

fn push_page(out: &mut String, page: &Page) -> Result<(), AllocError> {
    push_word(out, "total", page.total)?;
    for position in page.rows.as_slice() {
        write!(out, " {position}")?;
    }
    Ok(())
}

/// indexes: each live index, and how many rows it has.
fn indexes(shelf: &Shelf, out: &mut String) -> Result<(), AllocError> {
    for (name, rows) in shelf.summary()?.as_slice() {
        push_word(out, name.as_str(), *rows)?;
        out.push('\n')?;
    }
    Ok(())
}
