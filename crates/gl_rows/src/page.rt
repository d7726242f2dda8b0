use crate::row::Row;
use std::alloc::{AllocError, Global};
use std::fmt::Write;

/// What answers the rows of files, with what the rows of one file put down for those behind them.
pub trait Answering {
    /// Puts the answer of a row of this file behind a text.
    fn answer(
        &mut self,
        alloc: Global,
        file: &str,
        row: &Row,
        out: &mut String,
    ) -> Result<(), AllocError>;
}

/// The rows of a file with their answers. An empty line, and one that begins with `#`, is none.
pub fn told<D: Answering>(
    alloc: Global,
    path: &str,
    rows: &str,
    desk: &mut D,
) -> Result<String, AllocError> {
    let file = name_of(path);
    let mut out = String::new(alloc);
    write!(out, "== {file}\n")?;
    for line in rows.split('\n') {
        if !line.is_empty() && !line.starts_with('#') {
            write!(out, "{line}\n")?;
            push_answer(alloc, &mut out, file, line, desk)?;
        }
    }
    Ok(out)
}

/// A file's name, without the folders before it.
fn name_of(path: &str) -> &str {
    match path.rsplit_once('/') {
        Some((_, name)) => name,
        None => path,
    }
}

/// Puts the answer of a row behind a text.
fn push_answer<D: Answering>(
    alloc: Global,
    out: &mut String,
    file: &str,
    line: &str,
    desk: &mut D,
) -> Result<(), AllocError> {
    let row = Row::read(alloc, line)?;
    let mut answer = String::new(alloc);
    desk.answer(alloc, file, &row, &mut answer)?;
    push_lines(out, answer.as_str())
}

/// Puts the lines of an answer behind a text, each indented. Equal lines in a row stand there once, with their number.
fn push_lines(out: &mut String, answer: &str) -> Result<(), AllocError> {
    let mut last = "";
    let mut times = 0u64;
    for line in answer.split('\n') {
        if times > 0 && line != last {
            push_times(out, last, times)?;
            times = 0;
        }
        last = line;
        times = times.saturating_add(1);
    }
    push_times(out, last, times)
}

fn push_times(out: &mut String, line: &str, times: u64) -> Result<(), AllocError> {
    if line.is_empty() {
        return Ok(());
    }
    if times == 1 {
        write!(out, "  {line}\n")
    } else {
        write!(out, "  {line} *{times}\n")
    }
}
