// Scripts: all that a session writes, how it ends, and what stands on the disk.

use gl_base::Text;
use gl_cli::{Status, run_command};
use gl_node::Log;
use gl_outside::{MemoryDisk, MemorySink, MemorySource};
use gl_patterns::ListShop;
use gl_rows::{Row, push_bytes, push_word};
use std::alloc::{AllocError, Global};
use std::fmt::Write;

/// A script of one datagram, for rows that are about the words.
const ONE_DATAGRAM: &str = "at 1000\nudp raw 10.0.0.7 hello\n";

/// The most bytes of a script that is also given byte by byte.
const SHORT: usize = 262_144;

pub fn answer(alloc: Global, row: &Row, out: &mut String) -> Result<(), AllocError> {
    match row.text(0) {
        "script" => script(alloc, row, out),
        "bytes" => cut(alloc, row.bytes(1), out),
        "store" => store(alloc, row.bytes(1), out),
        "words" => words(alloc, row, out),
        _ => out.push_str("no such subject"),
    }
}

/// How a run ended, what it wrote, and what stands in the first two areas.
#[derive(Drop)]
struct Ended {
    status: Status,
    written: Vec<u8>,
    journal: Vec<u8>,
    index: Vec<u8>,
}

/// Runs words over a script that comes in pieces of so many bytes.
fn run(alloc: Global, words: &[Text], script: &[u8], piece: usize) -> Result<Ended, AllocError> {
    let mut disk = MemoryDisk::new(alloc, Vec::new(alloc))?;
    let mut shop = ListShop::new(alloc, Vec::new(alloc));
    let mut source = MemorySource::new(script, piece, &[]);
    let mut sink = MemorySink::new(alloc, piece, Vec::new(alloc));
    let status = run_command(alloc, words, &mut disk, &mut shop, &mut source, &mut sink);
    Ok(Ended {
        status,
        written: Vec::from_slice(alloc, sink.bytes())?,
        journal: Vec::from_slice(alloc, disk.bytes(0))?,
        index: Vec::from_slice(alloc, disk.bytes(1))?,
    })
}

fn session(alloc: Global, script: &[u8], piece: usize) -> Result<Ended, AllocError> {
    let words = [
        Text::from_str(alloc, "session")?,
        Text::from_str(alloc, "x")?,
    ];
    run(alloc, words.as_slice(), script, piece)
}

fn push_log(out: &mut String, log: Log) -> Result<(), AllocError> {
    match log {
        Log::Journal => out.push_str("Damaged journal"),
        Log::Index => out.push_str("Damaged index"),
    }
}

/// Puts a status that isn't `Done` behind a text.
fn push_status(out: &mut String, status: Status) -> Result<(), AllocError> {
    match status {
        Status::Done => Ok(()),
        Status::Usage => out.push_str("Usage"),
        Status::SourceFault => out.push_str("SourceFault"),
        Status::SinkFault => out.push_str("SinkFault"),
        Status::DiskFault => out.push_str("DiskFault"),
        Status::BadScript { line } => push_word(out, "BadScript", line),
        Status::Damaged { log, area, at } => {
            push_log(out, log)?;
            write!(out, " {area} {at}")
        }
        Status::OutOfMemory => Err(AllocError),
        Status::PatternFault => out.push_str("PatternFault"),
        Status::ScriptTooLong => out.push_str("ScriptTooLong"),
    }
}

/// Puts what a run wrote, and its status, behind a text.
fn push_ended(out: &mut String, ended: &Ended) -> Result<(), AllocError> {
    out.push_str(str::from_utf8(ended.written.as_slice()).unwrap_or("?"))?;
    push_status(out, ended.status)
}

/// Runs a script again in other pieces, and tells where something else becomes of it.
fn again(
    alloc: Global,
    script: &[u8],
    piece: usize,
    first: &str,
    out: &mut String,
) -> Result<(), AllocError> {
    let ended = session(alloc, script, piece)?;
    let mut text = String::new(alloc);
    push_ended(&mut text, &ended)?;
    if text.as_str() != first {
        write!(out, "\nin pieces of {piece}:\n")?;
        out.push_str(text.as_str())?;
    }
    Ok(())
}

/// What becomes of a script, however it is cut into pieces.
fn cut(alloc: Global, script: &[u8], out: &mut String) -> Result<(), AllocError> {
    let ended = session(alloc, script, 65_536)?;
    let mut first = String::new(alloc);
    push_ended(&mut first, &ended)?;
    out.push_str(first.as_str())?;
    again(alloc, script, 4096, first.as_str(), out)?;
    if script.len() <= SHORT {
        again(alloc, script, 1, first.as_str(), out)?;
        again(alloc, script, 7, first.as_str(), out)?;
    }
    Ok(())
}

/// What becomes of a script whose lines are the words of a row.
fn script(alloc: Global, row: &Row, out: &mut String) -> Result<(), AllocError> {
    let mut script = Vec::new(alloc);
    for index in 1..row.len() {
        script.extend_from_slice(row.bytes(index))?;
        script.push(b'\n')?;
    }
    cut(alloc, script.as_slice(), out)
}

fn push_areas(out: &mut String, ended: &Ended) -> Result<(), AllocError> {
    out.push_str("\narea 0 ")?;
    push_bytes(out, ended.journal.as_slice())?;
    out.push_str("\narea 1 ")?;
    push_bytes(out, ended.index.as_slice())
}

/// The same of a script's bytes, and what stands on the disk behind it.
fn store(alloc: Global, script: &[u8], out: &mut String) -> Result<(), AllocError> {
    let ended = session(alloc, script, 4096)?;
    push_ended(out, &ended)?;
    push_areas(out, &ended)
}

/// How words end that may be no command.
fn words(alloc: Global, row: &Row, out: &mut String) -> Result<(), AllocError> {
    let mut texts = Vec::new(alloc);
    for index in 1..row.len() {
        texts.push(Text::from_str(alloc, row.text(index))?)?;
    }
    let ended = run(alloc, texts.as_slice(), ONE_DATAGRAM.as_bytes(), 4096)?;
    push_ended(out, &ended)?;
    push_areas(out, &ended)
}
