// Lookup tables of comma-separated records.

use gl_lookup::{LookupRefusal, LookupTable};
use gl_rows::{Row, push_bytes, push_truth, push_word};
use std::alloc::{AllocError, Global};

pub fn answer(alloc: Global, row: &Row, out: &mut String) -> Result<(), AllocError> {
    match row.text(0) {
        "lookup" => lookup(alloc, row, out),
        "same" => same(alloc, row, out),
        _ => out.push_str("no such subject"),
    }
}

fn push_refusal(out: &mut String, refusal: LookupRefusal) -> Result<(), AllocError> {
    match refusal {
        LookupRefusal::BadCsv { row } => push_word(out, "bad-csv", row),
        LookupRefusal::NoColumn => out.push_str("no-column"),
        LookupRefusal::TooManyRows => out.push_str("too-many-rows"),
        LookupRefusal::OutOfMemory => Err(AllocError),
    }
}

fn push_value(out: &mut String, value: Option<&str>) -> Result<(), AllocError> {
    match value {
        Some(text) => {
            out.push_str("is ")?;
            push_bytes(out, text.as_bytes())
        }
        None => out.push_str("none"),
    }
}

/// What keys stand for in a text's table, whose columns are named, and in the table's copy.
fn lookup(alloc: Global, row: &Row, out: &mut String) -> Result<(), AllocError> {
    match LookupTable::from_csv(alloc, row.text(3), row.text(1), row.text(2)) {
        Ok(table) => {
            let copy = table.copy()?;
            for index in 4..row.len() {
                let key = row.text(index);
                push_value(out, table.value(key))?;
                if copy.value(key) != table.value(key) {
                    out.push_str(" and its copy not")?;
                }
                out.push('\n')?;
            }
            out.push_str("a table")
        }
        Err(refusal) => push_refusal(out, refusal),
    }
}

/// Whether two texts with the columns `k` and `v` have one table.
fn same(alloc: Global, row: &Row, out: &mut String) -> Result<(), AllocError> {
    let Ok(one) = LookupTable::from_csv(alloc, row.text(1), "k", "v") else {
        return out.push_str("no table");
    };
    let Ok(other) = LookupTable::from_csv(alloc, row.text(2), "k", "v") else {
        return out.push_str("no table");
    };
    push_truth(out, one.same(&other))
}
