// Values: the kept text of the command that a JSON value is.

use gl_commands::{command_from, encode_command};
use gl_rows::{Row, push_bytes};
use serde_json::Value;
use std::alloc::{AllocError, Global};

pub fn answer(alloc: Global, row: &Row, out: &mut String) -> Result<(), AllocError> {
    match Value::from_slice(alloc, row.bytes(1)) {
        Ok(value) => push_command(alloc, &value, out),
        Err(_) => out.push_str("no JSON"),
    }
}

fn push_command(alloc: Global, value: &Value, out: &mut String) -> Result<(), AllocError> {
    match command_from(alloc, value)? {
        Some(command) => push_bytes(out, encode_command(alloc, &command)?.as_slice()),
        None => out.push_str("none"),
    }
}
