// Requests as clients send them, and what they are replied.

use crate::asked;
use crate::desk::{Desk, Kept};
use crate::refusals::refusal_of;
use crate::serving::serve;
use crate::shown::push_reply;
use gl_api::{
    Reply, config_reply, empty_body_reply, journal_full_reply, journalled_reply, stopped_reply,
    version_reply,
};
use gl_base::{Items, Text};
use gl_check::check;
use gl_fields::FieldMap;
use gl_rows::{Row, number, set_words};
use gl_rulelang::{read_pipeline, read_rule};
use std::alloc::{AllocError, Global};

pub fn answer(
    alloc: Global,
    row: &Row,
    desk: &mut Desk,
    out: &mut String,
) -> Result<(), AllocError> {
    match row.text(0) {
        "stream" => desk.add_stream(alloc, row),
        "user" => desk.add_user(alloc, row),
        "message" => message(alloc, row, desk),
        "forget" => {
            desk.live = Vec::new(alloc);
            Ok(())
        }
        "rule" => rule(alloc, row.text(1), desk, out),
        "pipeline" => pipeline(alloc, row.text(1), desk, out),
        "counts" => counts(alloc, row, desk),
        "get" => serve(alloc, desk, asked::get(alloc, row)?.as_slice(), out),
        "post" => serve(alloc, desk, asked::post(alloc, row)?.as_slice(), out),
        "send" => serve(alloc, desk, row.bytes(1), out),
        "asks" => asked::asks(alloc, row, desk, out),
        "refused" => push_reply(out, &config_reply(alloc, &refusal_of(alloc, row)?)?),
        "told" => push_reply(out, &told(alloc, row)?),
        _ => out.push_str("no such subject"),
    }
}

/// Puts a live message behind the others: `message IDS FIELD..`, with ids parted by commas.
fn message(alloc: Global, row: &Row, desk: &mut Desk) -> Result<(), AllocError> {
    let mut streams = Items::new(alloc);
    for id in row.text(1).split(',') {
        streams.push(number(id))?;
    }
    let mut told = String::new(alloc);
    let mut fields = FieldMap::new(alloc);
    set_words(alloc, row, 2, &mut fields, &mut told)?;
    desk.live.push(Kept { streams, fields })?;
    Ok(())
}

/// Puts a rule behind the others.
fn rule(alloc: Global, text: &str, desk: &mut Desk, out: &mut String) -> Result<(), AllocError> {
    let Ok(rule) = read_rule(alloc, text) else {
        return out.push_str("no rule");
    };
    match check(alloc, rule) {
        Ok(checked) => {
            desk.rules.push(checked)?;
            Ok(())
        }
        Err(_) => out.push_str("no lawful rule"),
    }
}

/// Puts a pipeline behind the others.
fn pipeline(
    alloc: Global,
    text: &str,
    desk: &mut Desk,
    out: &mut String,
) -> Result<(), AllocError> {
    match read_pipeline(alloc, text) {
        Ok(pipeline) => {
            desk.pipelines.push(pipeline)?;
            Ok(())
        }
        Err(_) => out.push_str("no pipeline"),
    }
}

/// What the server counts: `counts COMMITTED JOURNAL VERSION`, and a name and a number of rows for each live index.
fn counts(alloc: Global, row: &Row, desk: &mut Desk) -> Result<(), AllocError> {
    let mut indexes = Vec::new(alloc);
    for index in 4..row.len() {
        let (name, rows) = match row.text(index).split_once(':') {
            Some((name, rows)) => (name, number(rows)),
            None => (row.text(index), 0),
        };
        indexes.push((Text::from_str(alloc, name)?, rows))?;
    }
    desk.counts.committed = row.number(1);
    desk.counts.journal = row.number(2);
    desk.counts.version = row.number(3);
    desk.counts.indexes = indexes;
    Ok(())
}

/// A reply that a row names with its numbers.
fn told(alloc: Global, row: &Row) -> Result<Reply, AllocError> {
    match row.text(1) {
        "EmptyBody" => empty_body_reply(alloc),
        "version" => version_reply(alloc, row.number(2)),
        "JournalFull" => journal_full_reply(alloc, row.number(2), row.number(3)),
        "Stopped" => stopped_reply(alloc, row.number(2)),
        _ => Ok(journalled_reply(alloc)),
    }
}
