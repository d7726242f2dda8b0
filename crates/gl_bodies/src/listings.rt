// What a caller is told of the streams, of the server, and of a rule or a pipeline.
ghost use Rattle.std.specs.Prelude.{◌≡◌, IfOk};
ghost use Rattle.gl_bodies.specs.Json.{list_of};
ghost use Rattle.gl_bodies.specs.Listings.{index_data, indexes_at, permitted_streams, source_reply, stream_data, streams_at, streams_reply, system_reply};
ghost use Rattle.gl_bodies.specs.Writing.{AddsData, AddsMember};

use crate::object::{begin, finish, put_number, put_text};
use crate::page::write_id;
use gl_base::Text;
use gl_http::Reply;
use gl_sight::is_permitted;
use gl_streams::Stream;
use json::Writer;
use std::alloc::{AllocError, Global};

/// 200: those of the streams that are permitted, as they stand.
pub fn streams_reply(
    alloc: Global,
    permitted: &[u64],
    streams: &[Stream],
) -> Result<Reply, AllocError>
    ensures { IfOk result (λ r. r ≡ streams_reply permitted.now streams.now) }
{
    let mut body = begin(alloc)?;
    put_streams(alloc, &mut body, permitted, streams)?;
    finish(body, 200)
}

fn put_streams(
    alloc: Global,
    body: &mut Writer,
    permitted: &[u64],
    streams: &[Stream],
) -> Result<(), AllocError>
    ensures { AddsMember result body.old body.new (streams_at permitted.now streams.now) }
{
    body.key("streams")?;
    write_streams(alloc, body, permitted, streams)?;
    Ok(())
}

fn write_streams(
    alloc: Global,
    body: &mut Writer,
    permitted: &[u64],
    streams: &[Stream],
) -> Result<(), AllocError>
    ensures { AddsData result body.old body.new (list_of stream_data (permitted_streams permitted.now streams.now)) }
{
    body.begin_array()?;
    for stream in streams {
        if is_permitted(permitted, stream.id) {
            write_stream(alloc, body, stream)?;
        }
    }
    body.end_array()?;
    Ok(())
}

fn write_stream(alloc: Global, body: &mut Writer, stream: &Stream) -> Result<(), AllocError>
    ensures { AddsData result body.old body.new (stream_data stream.now) }
{
    body.begin_object()?;
    body.key("id")?;
    write_id(alloc, body, stream.id)?;
    body.key("name")?;
    body.string(stream.name.as_str())?;
    body.end_object()?;
    Ok(())
}

/// 200: how many outcomes are committed, the live indexes with how many rows each has, how many entries the journal has, and
/// the configuration's version.
pub fn system_reply(
    alloc: Global,
    committed: u64,
    indexes: &[(Text, u64)],
    journal: u64,
    version: u64,
) -> Result<Reply, AllocError>
    ensures { IfOk result (λ r. r ≡ system_reply committed indexes.now journal version) }
{
    let mut body = begin(alloc)?;
    put_number(&mut body, "committed", committed)?;
    put_indexes(&mut body, indexes)?;
    put_number(&mut body, "journal", journal)?;
    put_number(&mut body, "version", version)?;
    finish(body, 200)
}

fn put_indexes(body: &mut Writer, indexes: &[(Text, u64)]) -> Result<(), AllocError>
    ensures { AddsMember result body.old body.new (indexes_at indexes.now) }
{
    body.key("indexes")?;
    write_indexes(body, indexes)?;
    Ok(())
}

fn write_indexes(body: &mut Writer, indexes: &[(Text, u64)]) -> Result<(), AllocError>
    ensures { AddsData result body.old body.new (list_of index_data indexes.now) }
{
    body.begin_array()?;
    for index in indexes {
        write_index(body, index)?;
    }
    body.end_array()?;
    Ok(())
}

fn write_index(body: &mut Writer, index: &(Text, u64)) -> Result<(), AllocError>
    ensures { AddsData result body.old body.new (index_data index.now) }
{
    let (name, rows) = index;
    body.begin_object()?;
    body.key("name")?;
    body.string(name.as_str())?;
    body.key("rows")?;
    body.u64(*rows)?;
    body.end_object()?;
    Ok(())
}

/// 200: a rule or a pipeline, printed.
pub fn source_reply(alloc: Global, source: &str) -> Result<Reply, AllocError>
    ensures { IfOk result (λ r. r ≡ source_reply source.now) }
{
    let mut body = begin(alloc)?;
    put_text(&mut body, "source", source)?;
    finish(body, 200)
}
