// Whose a token is, and what it may see and do.

use crate::desk::Desk;
use gl_access::{Denial, Doing, may, permitted, permitted_of, token_hash, user_of};
use gl_rows::{Row, push_bytes, push_truth};
use gl_settings::Parts;
use std::alloc::{AllocError, Global};
use std::fmt::Write;

pub fn answer(
    alloc: Global,
    row: &Row,
    desk: &mut Desk,
    out: &mut String,
) -> Result<(), AllocError> {
    match row.text(0) {
        "stream" => desk.add_stream(alloc, row),
        "user" => desk.add_user(alloc, row),
        "hash" => push_bytes(out, &token_hash(row.text(1))),
        "whose" => whose(&desk.config, row.text(1), out),
        "may" => push_judged(out, may(&desk.config, row.text(1), doing_of(row))),
        "sees" => sees(&desk.config, row, out),
        "permitted" => permitted_ids(alloc, &desk.config, row, out),
        _ => out.push_str("no such subject"),
    }
}

/// What a row asks for behind its token: `administer`, or `search ID`.
fn doing_of(row: &Row) -> Doing {
    match row.text(2) {
        "administer" => Doing::Administer,
        _ => Doing::Search(row.number(3)),
    }
}

/// The name of the user with this token.
fn whose(config: &Parts, token: &str, out: &mut String) -> Result<(), AllocError> {
    match user_of(config, token) {
        Some(user) => push_bytes(out, user.name.as_str().as_bytes()),
        None => out.push_str("nobody"),
    }
}

fn push_judged(out: &mut String, judged: Result<(), Denial>) -> Result<(), AllocError> {
    match judged {
        Ok(()) => out.push_str("yes"),
        Err(Denial::UnknownToken) => out.push_str("UnknownToken"),
        Err(Denial::AdminOnly) => out.push_str("AdminOnly"),
        Err(Denial::StreamNotPermitted) => out.push_str("StreamNotPermitted"),
    }
}

/// Whether the user of a token is permitted a stream.
fn sees(config: &Parts, row: &Row, out: &mut String) -> Result<(), AllocError> {
    match user_of(config, row.text(1)) {
        Some(user) => push_truth(out, permitted(config, user, row.number(2))),
        None => out.push_str("nobody"),
    }
}

/// The ids that a request with the token of a row may see; a row without one is a request without one.
fn permitted_ids(
    alloc: Global,
    config: &Parts,
    row: &Row,
    out: &mut String,
) -> Result<(), AllocError> {
    let token = if row.len() > 1 {
        Some(row.text(1))
    } else {
        None
    };
    match permitted_of(alloc, config, token)? {
        Some(ids) => push_ids(out, ids.as_slice()),
        None => out.push_str("nobody"),
    }
}

fn push_ids(out: &mut String, ids: &[u64]) -> Result<(), AllocError> {
    if ids.is_empty() {
        return out.push_str("none");
    }
    for (i, id) in ids.iter().enumerate() {
        if i > 0 {
            out.push(' ')?;
        }
        write!(out, "{id}")?;
    }
    Ok(())
}
