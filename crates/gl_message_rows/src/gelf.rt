// GELF: payloads, chunks and frames.

use crate::desk::Desk;
use crate::entries::push_decoded;
use gl_gelf::{Chunked, Chunks, Fed, ZeroFrames, chunk_head, decode_gelf};
use gl_rows::{Row, push_bytes, push_fed};
use std::alloc::{AllocError, Global};
use std::fmt::Write;

/// When each payload comes in, and from where.
const MOMENT: u64 = 1_735_689_610_000;

const PEER: &str = "10.0.0.7";

/// The longest payload, in bytes.
const LONGEST: usize = 1_048_576;

pub fn answer(
    alloc: Global,
    row: &Row,
    desk: &mut Desk,
    out: &mut String,
) -> Result<(), AllocError> {
    match row.text(0) {
        "payload" => payload(alloc, row.bytes(1), out),
        "head" => head(row.bytes(1), out),
        "frame" => frame(alloc, row.bytes(1), out),
        "new-table" => {
            desk.chunks = Chunks::new(alloc);
            Ok(())
        }
        "chunk" => chunks(row, &mut desk.chunks, out),
        _ => out.push_str("no such subject"),
    }
}

fn payload(alloc: Global, bytes: &[u8], out: &mut String) -> Result<(), AllocError> {
    if bytes.len() > LONGEST {
        return out.push_str("too long");
    }
    push_decoded(out, decode_gelf(alloc, MOMENT, PEER, bytes)?)
}

/// The id, the number and the count of a chunk.
fn head(bytes: &[u8], out: &mut String) -> Result<(), AllocError> {
    match chunk_head(bytes) {
        Some((id, number, count)) => write!(out, "{id} {number} {count}"),
        None => out.push_str("none"),
    }
}

/// What a new reader takes of bytes, and the frame that ends there.
fn frame(alloc: Global, bytes: &[u8], out: &mut String) -> Result<(), AllocError> {
    let mut frames = ZeroFrames::new(alloc)?;
    let (taken, fed) = frames.take(bytes);
    push_fed(out, taken, fed)?;
    if let Fed::Whole = fed {
        push_bytes(out, frames.frame())?;
    }
    Ok(())
}

/// The answers to the datagrams of a row, which come at one moment.
fn chunks(row: &Row, chunks: &mut Chunks, out: &mut String) -> Result<(), AllocError> {
    let moment = row.number(1);
    for index in 2..row.len() {
        let answer = chunks.datagram(moment, row.bytes(index))?;
        push_chunked(out, &answer)?;
    }
    Ok(())
}

fn push_chunked(out: &mut String, answer: &Chunked) -> Result<(), AllocError> {
    match answer {
        Chunked::Plain => out.push_str("plain\n"),
        Chunked::Whole(bytes) => {
            out.push_str("whole ")?;
            push_bytes(out, bytes.as_slice())?;
            out.push('\n')
        }
        Chunked::Held => out.push_str("held\n"),
        Chunked::Repeat => out.push_str("repeat\n"),
        Chunked::BadChunk => out.push_str("bad-chunk\n"),
        Chunked::CountMismatch { kept, given } => write!(out, "count-mismatch {kept} {given}\n"),
        Chunked::ChunkTableFull => out.push_str("chunk-table-full\n"),
        Chunked::TooLong => out.push_str("too-long\n"),
    }
}
