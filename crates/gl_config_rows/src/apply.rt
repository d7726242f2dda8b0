// Commands one after another: the next configuration, or why there is none, and what a configuration shows.

use crate::desk::Desk;
use crate::refusals::push_refusal;
use crate::{extractors, shown};
use gl_config::{Command, Config, command_from};
use gl_fields::InputKind;
use gl_rows::{Row, push_bytes, push_word};
use serde_json::Value;
use std::alloc::{AllocError, Global};

pub fn answer(
    alloc: Global,
    row: &Row,
    desk: &mut Desk,
    out: &mut String,
) -> Result<(), AllocError> {
    match row.text(0) {
        "apply" => apply(alloc, row, desk, out),
        "show" => shown::push_parts(alloc, row, 1, &desk.config, out),
        "kind" => kind(&desk.config, row.text(1), out),
        "extractors" => extractors::push_all(out, desk.config.extractors(row.text(1))),
        "value" => value(&desk.config, row, out),
        "copy" => {
            desk.config = desk.config.copy()?;
            Ok(())
        }
        _ => out.push_str("no such subject"),
    }
}

/// The command that a JSON text is, if it is one.
pub fn command_in(alloc: Global, text: &[u8]) -> Result<Option<Command>, AllocError> {
    match Value::from_slice(alloc, text) {
        Ok(value) => command_from(alloc, &value),
        Err(_) => Ok(None),
    }
}

/// The configuration behind the command of a text; where there is none, why is put behind `out`.
pub fn next_config(
    alloc: Global,
    config: &Config,
    text: &[u8],
    out: &mut String,
) -> Result<Option<Config>, AllocError> {
    if config.version() == u64::MAX {
        out.push_str("no version left\n")?;
        return Ok(None);
    }
    let Some(command) = command_in(alloc, text)? else {
        out.push_str("no command\n")?;
        return Ok(None);
    };
    match config.apply(alloc, &command) {
        Ok(next) => Ok(Some(next)),
        Err(refusal) => {
            push_refusal(out, &refusal)?;
            out.push('\n')?;
            Ok(None)
        }
    }
}

/// Applies the commands of a row's words in turn: each refusal, and then the version where one was taken.
fn apply(alloc: Global, row: &Row, desk: &mut Desk, out: &mut String) -> Result<(), AllocError> {
    let before = desk.config.version();
    for index in 1..row.len() {
        if let Some(next) = next_config(alloc, &desk.config, row.bytes(index), out)? {
            desk.config = next;
        }
    }
    if desk.config.version() == before {
        return Ok(());
    }
    push_word(out, "version", desk.config.version())
}

/// What decodes the payloads of an input.
fn kind(config: &Config, name: &str, out: &mut String) -> Result<(), AllocError> {
    match config.input_kind(name) {
        Some(kind) => out.push_str(kind_word(kind)),
        None => out.push_str("none"),
    }
}

pub fn kind_word(kind: InputKind) -> &'static str {
    match kind {
        InputKind::Raw => "raw",
        InputKind::Gelf => "gelf",
        InputKind::Syslog => "syslog",
    }
}

/// What the key of a row is in the table of the row.
fn value(config: &Config, row: &Row, out: &mut String) -> Result<(), AllocError> {
    let Some(table) = config.lookups().get(row.text(1)) else {
        return out.push_str("no table");
    };
    match table.value(row.text(2)) {
        Some(value) => push_bytes(out, value.as_bytes()),
        None => out.push_str("none"),
    }
}
