// The page of a search.
ghost use Rattle.std.specs.Prelude.{◌≡◌, ◌∷◌, map, filter, IfOk, OnOk};
ghost use Rattle.json.specs.Token.{key};
ghost use Rattle.json.specs.Tree.{json_tokens};
ghost use Rattle.serde_json.specs.Written.{outline};
ghost use Rattle.gl_pages.specs.Pages.{is_chosen};
ghost use Rattle.gl_sight.specs.Finding.{live_of, seen_of};
ghost use Rattle.gl_sight.specs.Sight.{shown};
ghost use Rattle.gl_bodies.specs.Json.{list_of};
ghost use Rattle.gl_bodies.specs.Pages.{fields_data, id_data, message_data, messages_at, page_reply, value_data};
ghost use Rattle.gl_bodies.specs.Writing.{Adds, AddsData, AddsMember};

use crate::object::{begin, finish, put_number};
use gl_fields::{Field, Value};
use gl_http::Reply;
use gl_sight::{Live, is_permitted};
use gl_text::id_text;
use json::Writer;
use std::alloc::{AllocError, Global};

/// 200: these messages, of so many that were found. Of each message those of its streams are told that are permitted.
pub fn page_reply(
    alloc: Global,
    permitted: &[u64],
    messages: &[Live<'_>],
    total: u64,
) -> Result<Reply, AllocError>
    ensures { IfOk result (λ r. r ≡ page_reply (map (shown permitted.now) (live_of messages.now)) total) }
{
    let mut body = begin(alloc)?;
    put_messages(alloc, &mut body, permitted, messages)?;
    put_number(&mut body, "total", total)?;
    finish(body, 200)
}

fn put_messages(
    alloc: Global,
    body: &mut Writer,
    permitted: &[u64],
    messages: &[Live<'_>],
) -> Result<(), AllocError>
    ensures { AddsMember result body.old body.new (messages_at (map (shown permitted.now) (live_of messages.now))) }
{
    body.key("messages")?;
    write_messages(alloc, body, permitted, messages)?;
    Ok(())
}

fn write_messages(
    alloc: Global,
    body: &mut Writer,
    permitted: &[u64],
    messages: &[Live<'_>],
) -> Result<(), AllocError>
    ensures { AddsData result body.old body.new (list_of message_data (map (shown permitted.now) (live_of messages.now))) }
{
    body.begin_array()?;
    for message in messages {
        write_message(alloc, body, permitted, message)?;
    }
    body.end_array()?;
    Ok(())
}

fn write_message(
    alloc: Global,
    body: &mut Writer,
    permitted: &[u64],
    message: &Live<'_>,
) -> Result<(), AllocError>
    ensures { AddsData result body.old body.new (message_data (shown permitted.now (seen_of message.now))) }
{
    body.begin_object()?;
    body.key("fields")?;
    write_fields(body, message.fields.as_slice())?;
    body.key("streams")?;
    write_ids(alloc, body, permitted, message.streams)?;
    body.end_object()?;
    Ok(())
}

fn write_fields(body: &mut Writer, fields: &[Field]) -> Result<(), AllocError>
    ensures { AddsData result body.old body.new (fields_data fields.now) }
{
    body.begin_object()?;
    for field in fields {
        write_field(body, field)?;
    }
    body.end_object()?;
    Ok(())
}

fn write_field(body: &mut Writer, field: &Field) -> Result<(), AllocError>
    ensures { OnOk result (Adds body.old body.new (key field.now.name ∷ json_tokens (outline (value_data field.now.value)))) }
{
    body.key(field.name.as_str())?;
    write_value(body, &field.value)?;
    Ok(())
}

fn write_value(body: &mut Writer, value: &Value) -> Result<(), AllocError>
    ensures { AddsData result body.old body.new (value_data value.now) }
{
    match value {
        Value::Text(text) => body.string(text.as_str()),
        Value::Whole(number) => body.i64(*number),
    }
}

// The ids that are permitted.
fn write_ids(
    alloc: Global,
    body: &mut Writer,
    permitted: &[u64],
    ids: &[u64],
) -> Result<(), AllocError>
    ensures { AddsData result body.old body.new (list_of id_data (filter (is_chosen permitted.now) ids.now)) }
{
    body.begin_array()?;
    for id in ids {
        if is_permitted(permitted, *id) {
            write_id(alloc, body, *id)?;
        }
    }
    body.end_array()?;
    Ok(())
}

pub fn write_id(alloc: Global, body: &mut Writer, id: u64) -> Result<(), AllocError>
    ensures { AddsData result body.old body.new (id_data id) }
{
    let text = id_text(alloc, id)?;
    body.string(text.as_str())?;
    Ok(())
}
