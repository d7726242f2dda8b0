// Texts: whether a text is kept for a command, whose own text is then the same.

use gl_commands::{Command, decode_command, encode_command};
use gl_rows::Row;
use std::alloc::{AllocError, Global};

pub fn answer(alloc: Global, row: &Row, out: &mut String) -> Result<(), AllocError> {
    match decode_command(alloc, row.bytes(1))? {
        Some(command) => push_kept(alloc, &command, row.bytes(1), out),
        None => out.push_str("none"),
    }
}

fn push_kept(
    alloc: Global,
    command: &Command,
    text: &[u8],
    out: &mut String,
) -> Result<(), AllocError> {
    let own = encode_command(alloc, command)?;
    if own.as_slice() == text {
        out.push_str("kept")
    } else {
        out.push_str("another text")
    }
}
