// Requests that rows write by their parts, and what a search asks for.

use crate::desk::Desk;
use crate::shown::push_reply;
use gl_access::permitted_of;
use gl_api::{Ask, Searching, search_request};
use gl_query::print_query;
use gl_rows::{Row, push_bytes, push_word};
use std::alloc::{AllocError, Global};
use std::fmt::Write;

/// `get TARGET TOKEN`, with no token where it is empty.
pub fn get(alloc: Global, row: &Row) -> Result<Vec<u8>, AllocError> {
    let mut head = String::new(alloc);
    let target = row.text(1);
    write!(head, "GET {target} HTTP/1.1\r\n")?;
    push_token(&mut head, row.text(2))?;
    head.push_str("\r\n")?;
    Ok(head.into_bytes())
}

/// `post TARGET TOKEN BODY`.
pub fn post(alloc: Global, row: &Row) -> Result<Vec<u8>, AllocError> {
    let mut head = String::new(alloc);
    let target = row.text(1);
    write!(head, "POST {target} HTTP/1.1\r\n")?;
    push_token(&mut head, row.text(2))?;
    let body = row.bytes(3);
    let length = body.len();
    write!(head, "Content-Length: {length}\r\n\r\n")?;
    let mut bytes = head.into_bytes();
    bytes.extend_from_slice(body)?;
    Ok(bytes)
}

fn push_token(head: &mut String, token: &str) -> Result<(), AllocError> {
    if token.is_empty() {
        return Ok(());
    }
    write!(head, "Authorization: Bearer {token}\r\n")
}

/// What the text behind a `?` asks for: `asks TEXT TOKEN`.
pub fn asks(alloc: Global, row: &Row, desk: &Desk, out: &mut String) -> Result<(), AllocError> {
    let permitted = permitted_of(alloc, &desk.config, Some(row.text(2)))?;
    let ids = match &permitted {
        Some(ids) => Some(ids.as_slice()),
        None => None,
    };
    match search_request(alloc, ids, row.text(1))? {
        Searching::Asked(ask) => push_ask(alloc, &ask, out),
        Searching::Answered(reply) => push_reply(out, &reply),
    }
}

fn push_ask(alloc: Global, ask: &Ask, out: &mut String) -> Result<(), AllocError> {
    push_bytes(out, print_query(alloc, &ask.query)?.as_str().as_bytes())?;
    push_word(out, "|from", ask.from)?;
    push_word(out, "|to", ask.to)?;
    push_word(out, "|offset", ask.offset)?;
    push_word(out, "|limit", ask.limit)?;
    out.push_str("|streams")?;
    for id in ask.chosen.as_slice() {
        push_word(out, "", *id)?;
    }
    Ok(())
}
