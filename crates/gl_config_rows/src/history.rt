// What is remembered of a journal whose entries are commands and messages.

use crate::apply::next_config;
use crate::desk::Desk;
use crate::shown;
use gl_history::History;
use gl_rows::{Row, push_word};
use std::alloc::{AllocError, Global};
use std::fmt::Write;

pub fn answer(
    alloc: Global,
    row: &Row,
    desk: &mut Desk,
    out: &mut String,
) -> Result<(), AllocError> {
    match row.text(0) {
        "commands" => commands(alloc, row, desk, out),
        "messages" => {
            desk.entries = desk.entries.saturating_add(row.number(1));
            Ok(())
        }
        "version-of" => push_word(out, "version", desk.history.version_of(row.number(1))),
        "next-from" => push_next(out, desk.history.next_command_from(row.number(1))),
        "streams-at" => push_streams(out, &desk.history, row.number(1)),
        "config" => push_config(alloc, row, &desk.history, out),
        "present" => shown::push_parts(alloc, row, 1, desk.history.present(), out),
        "forget-below" => forget_below(&mut desk.history, row.number(1), out),
        "remembered" => {
            let (first, last) = (desk.history.first_version(), desk.history.last_version());
            write!(out, "{first} to {last}")
        }
        _ => out.push_str("no such subject"),
    }
}

/// Puts the commands of a row's words behind the journal, each where it is taken: its version and its position.
fn commands(alloc: Global, row: &Row, desk: &mut Desk, out: &mut String) -> Result<(), AllocError> {
    for index in 1..row.len() {
        if let Some(next) = next_config(alloc, desk.history.present(), row.bytes(index), out)? {
            let (version, position) = (next.version(), desk.entries);
            desk.history.reserve()?;
            desk.history.push(next, position);
            desk.entries = position.saturating_add(1);
            write!(out, "version {version} at {position}\n")?;
        }
    }
    Ok(())
}

fn push_next(out: &mut String, position: Option<u64>) -> Result<(), AllocError> {
    match position {
        Some(position) => push_word(out, "command at", position),
        None => out.push_str("none"),
    }
}

fn push_streams(out: &mut String, history: &History, version: u64) -> Result<(), AllocError> {
    if version > history.last_version() {
        return out.push_str("no such version");
    }
    push_word(out, "streams", history.streams_at(version))
}

/// The parts that a row names of the configuration of its version.
fn push_config(
    alloc: Global,
    row: &Row,
    history: &History,
    out: &mut String,
) -> Result<(), AllocError> {
    let version = row.number(1);
    if version < history.first_version() || version > history.last_version() {
        return out.push_str("not remembered");
    }
    shown::push_parts(alloc, row, 2, history.config(version), out)
}

fn forget_below(history: &mut History, version: u64, out: &mut String) -> Result<(), AllocError> {
    if version > history.last_version() {
        return out.push_str("no such version");
    }
    history.forget_below(version);
    Ok(())
}
