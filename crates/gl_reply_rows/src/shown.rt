// How replies are shown.

use gl_api::Reply;
use gl_rows::push_bytes;
use std::alloc::AllocError;
use std::fmt::Write;

/// A longer body stands in lines of its own.
const LONGEST: usize = 200;

/// How many bytes of a longer body stand in a line.
const LINE: usize = 120;

/// Puts the status of a reply and its body behind a text.
pub fn push_reply(out: &mut String, reply: &Reply) -> Result<(), AllocError> {
    let status = reply.status;
    write!(out, "{status} ")?;
    push_body(out, reply.body.as_slice())
}

fn push_body(out: &mut String, body: &[u8]) -> Result<(), AllocError> {
    if body.len() <= LONGEST {
        return push_bytes(out, body);
    }
    let bytes = body.len();
    write!(out, "({bytes} bytes)")?;
    for line in body.chunks(LINE) {
        out.push('\n')?;
        push_bytes(out, line)?;
    }
    Ok(())
}
