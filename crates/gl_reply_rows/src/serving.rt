// What a server without a journal replies to all that a client sent.

use crate::desk::{Desk, Kept};
use crate::shown::push_reply;
use gl_access::{caller_of, permitted_of};
use gl_api::{
    Commanding, Live, Reply, Wanted, commanding_of, empty_body_reply, journalled_reply,
    pipeline_reply, rule_reply, search_reply, streams_reply, system_reply,
};
use gl_base::Items;
use gl_commands::encode_command;
use gl_http::{Exchange, Head, Route, read_exchange};
use gl_rows::push_bytes;
use gl_settings::User;
use std::alloc::{AllocError, Global};
use std::fmt::Write;

/// Puts the reply to these bytes behind a text.
pub fn serve(alloc: Global, desk: &Desk, bytes: &[u8], out: &mut String) -> Result<(), AllocError> {
    match read_exchange(alloc, bytes)? {
        Exchange::Refused(refusal) => push_reply(out, &refusal.reply(alloc)?),
        Exchange::Asked(head) => {
            let body = body_of(&head, bytes);
            match &head.route {
                Route::Commands => command(alloc, caller(desk, &head), body, out),
                Route::Gelf => push_reply(out, &gelf(alloc, body)?),
                _ => push_reply(out, &asked(alloc, desk, &head)?),
            }
        }
    }
}

/// The bytes of a body behind its head.
fn body_of<'b>(head: &Head, bytes: &'b [u8]) -> &'b [u8] {
    match bytes.get(head.bytes..) {
        Some(behind) => behind.get(..head.length as usize).unwrap_or(&[]),
        None => &[],
    }
}

fn token_of(head: &Head) -> Option<&str> {
    match &head.token {
        Some(token) => Some(token.as_str()),
        None => None,
    }
}

fn caller<'d>(desk: &'d Desk, head: &Head) -> Option<&'d User> {
    caller_of(&desk.config, token_of(head))
}

fn gelf(alloc: Global, body: &[u8]) -> Result<Reply, AllocError> {
    if body.is_empty() {
        return empty_body_reply(alloc);
    }
    Ok(journalled_reply(alloc))
}

/// What a caller of `/api/commands` asks for: the version and the command's kept text.
fn command(
    alloc: Global,
    caller: Option<&User>,
    body: &[u8],
    out: &mut String,
) -> Result<(), AllocError> {
    match commanding_of(alloc, caller, body)? {
        Commanding::Answered(reply) => push_reply(out, &reply),
        Commanding::Asked(wanted) => push_wanted(alloc, &wanted, out),
    }
}

fn push_wanted(alloc: Global, wanted: &Wanted, out: &mut String) -> Result<(), AllocError> {
    let version = wanted.version;
    write!(out, "at {version}: ")?;
    push_bytes(out, encode_command(alloc, &wanted.command)?.as_slice())
}

/// The reply to a request of GET.
fn asked(alloc: Global, desk: &Desk, head: &Head) -> Result<Reply, AllocError> {
    match &head.route {
        Route::Search(text) => searched(alloc, desk, head, text.as_str()),
        Route::Rule(name) => {
            rule_reply(
                alloc,
                caller(desk, head),
                desk.rules.as_slice(),
                name.as_str(),
            )
        }
        Route::Pipeline(name) => pipeline_reply(
            alloc,
            caller(desk, head),
            desk.pipelines.as_slice(),
            name.as_str(),
        ),
        Route::System => system(alloc, desk, head),
        _ => streams(alloc, desk, head),
    }
}

fn ids_in(permitted: &Option<Items<u64>>) -> Option<&[u64]> {
    match permitted {
        Some(ids) => Some(ids.as_slice()),
        None => None,
    }
}

fn streams(alloc: Global, desk: &Desk, head: &Head) -> Result<Reply, AllocError> {
    let permitted = permitted_of(alloc, &desk.config, token_of(head))?;
    streams_reply(alloc, ids_in(&permitted), desk.config.streams())
}

fn system(alloc: Global, desk: &Desk, head: &Head) -> Result<Reply, AllocError> {
    let counts = &desk.counts;
    system_reply(
        alloc,
        caller(desk, head),
        counts.committed,
        counts.indexes.as_slice(),
        counts.journal,
        counts.version,
    )
}

fn searched(alloc: Global, desk: &Desk, head: &Head, text: &str) -> Result<Reply, AllocError> {
    let permitted = permitted_of(alloc, &desk.config, token_of(head))?;
    let live = live_of(alloc, desk.live.as_slice())?;
    search_reply(alloc, ids_in(&permitted), live.as_slice(), text)
}

fn live_of(alloc: Global, kept: &[Kept]) -> Result<Vec<Live<'_>>, AllocError> {
    let mut live = Vec::with_capacity(alloc, kept.len())?;
    for message in kept {
        live.push(Live {
            streams: message.streams.as_slice(),
            fields: &message.fields,
        })?;
    }
    Ok(live)
}
