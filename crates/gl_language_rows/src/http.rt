// HTTP: heads of requests, and the bytes of replies.
ghost use Rattle.gl_http.specs.ReplyBytes.{HasPhrase};

use gl_base::Items;
use gl_http::{
    Exchange, Head, HeadAnswer, Refusal, Reply, Route, memory_reply, read_exchange, read_head,
    write_reply,
};
use gl_rows::{Row, push_bytes};
use std::alloc::{AllocError, Global};
use std::fmt::Write;

pub fn answer(alloc: Global, row: &Row, out: &mut String) -> Result<(), AllocError> {
    match row.text(0) {
        "head" => head(alloc, row.bytes(1), out),
        "fronts" => fronts(alloc, row.bytes(1), out),
        "exchange" => exchange(alloc, row.bytes(1), out),
        "exchanges" => exchanges(alloc, row.bytes(1), out),
        "reply" => reply(alloc, row, out),
        "memory-reply" => push_bytes(out, memory_reply()),
        _ => out.push_str("no such subject"),
    }
}

/// What is answered to bytes from a client.
fn head(alloc: Global, bytes: &[u8], out: &mut String) -> Result<(), AllocError> {
    match read_head(alloc, bytes)? {
        HeadAnswer::More => out.push_str("more"),
        HeadAnswer::Refused(refusal) => push_refusal(out, refusal),
        HeadAnswer::Head(head) => push_head(out, &head),
    }
}

fn push_refusal(out: &mut String, refusal: Refusal) -> Result<(), AllocError> {
    let status = refusal.status();
    let name = refusal.name();
    write!(out, "{status} {name}")
}

/// Puts the route, the token, the length of the body and that of the head behind a text.
fn push_head(out: &mut String, head: &Head) -> Result<(), AllocError> {
    push_route(out, &head.route)?;
    out.push('|')?;
    match &head.token {
        Some(token) => push_bytes(out, token.as_str().as_bytes())?,
        None => out.push_str("none")?,
    }
    let length = head.length;
    let bytes = head.bytes;
    write!(out, "|{length}|{bytes}")
}

fn push_named(out: &mut String, route: &str, name: &str) -> Result<(), AllocError> {
    out.push_str(route)?;
    push_bytes(out, name.as_bytes())
}

fn push_route(out: &mut String, route: &Route) -> Result<(), AllocError> {
    match route {
        Route::Gelf => out.push_str("gelf"),
        Route::Commands => out.push_str("commands"),
        Route::Search(query) => push_named(out, "search ", query.as_str()),
        Route::Streams => out.push_str("streams"),
        Route::System => out.push_str("system"),
        Route::Rule(name) => push_named(out, "rule ", name.as_str()),
        Route::Pipeline(name) => push_named(out, "pipeline ", name.as_str()),
    }
}

/// What is answered to each front of the bytes from a client, and to all of them.
fn fronts(alloc: Global, bytes: &[u8], out: &mut String) -> Result<(), AllocError> {
    for len in 0..bytes.len() {
        head(alloc, &bytes[..len], out)?;
        out.push('\n')?;
    }
    head(alloc, bytes, out)
}

/// What is answered to all that a client sent which has ended.
fn exchange(alloc: Global, bytes: &[u8], out: &mut String) -> Result<(), AllocError> {
    match read_exchange(alloc, bytes)? {
        Exchange::Asked(head) => push_head(out, &head),
        Exchange::Refused(refusal) => push_refusal(out, refusal),
    }
}

/// What is answered to a client that ends behind each front of the bytes, and behind all of them.
fn exchanges(alloc: Global, bytes: &[u8], out: &mut String) -> Result<(), AllocError> {
    for len in 0..bytes.len() {
        exchange(alloc, &bytes[..len], out)?;
        out.push('\n')?;
    }
    exchange(alloc, bytes, out)
}

/// The bytes of a reply, behind what was sent before.
fn reply(alloc: Global, row: &Row, out: &mut String) -> Result<(), AllocError> {
    let body = row.bytes(2);
    match row.number(1) {
        202 => sent(alloc, 202, body, out),
        422 => sent(alloc, 422, body, out),
        500 => sent(alloc, 500, body, out),
        _ => out.push_str("no such status"),
    }
}

fn sent(alloc: Global, status: u16, body: &[u8], out: &mut String) -> Result<(), AllocError>
    requires { HasPhrase status }
{
    let reply = Reply {
        status,
        body: Items::from_slice(alloc, body)?,
    };
    let mut bytes = Vec::from_slice(alloc, b"before|")?;
    write_reply(&reply, &mut bytes)?;
    push_bytes(out, bytes.as_slice())
}
