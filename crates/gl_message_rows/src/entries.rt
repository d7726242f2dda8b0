// The bytes of entries and outcomes, written and read.
ghost use Rattle.std.specs.Prelude.{◌<◌, ◌^◌, IfOk, IfSome};
ghost use Rattle.gl_fields.specs.Bounds.{IsEntry};

use gl_base::{Items, Joint, Text};
use gl_fields::{
    Cause, Entry, EntryRefusal, FieldMap, InputKind, Message, Origin, Outcome, decode_entry,
    decode_outcome, encode_entry, encode_outcome, split_peer,
};
use gl_rows::{Row, push_bytes, push_fields, push_word, set_words};
use std::alloc::{AllocError, Global};
use std::fmt::Write;

pub fn answer(alloc: Global, row: &Row, out: &mut String) -> Result<(), AllocError> {
    match row.text(0) {
        "entry" => entry(alloc, row.bytes(1), out),
        "entry-fronts" => entry_fronts(alloc, row.bytes(1), out),
        "message" => message(alloc, row, out),
        "peer" => peer(row.text(1), out),
        "outcome" => outcome(alloc, row.bytes(1), out),
        "outcome-fronts" => outcome_fronts(alloc, row.bytes(1), out),
        "stored" => stored(alloc, row, out),
        "other" => other(alloc, row, out),
        _ => out.push_str("no such subject"),
    }
}

fn push_refusal(out: &mut String, refusal: EntryRefusal) -> Result<(), AllocError> {
    match refusal {
        EntryRefusal::NotAnEntry { at } => push_word(out, "not-an-entry", at),
        EntryRefusal::OutOfMemory => Err(AllocError),
    }
}

fn push_entry(out: &mut String, entry: &Entry) -> Result<(), AllocError> {
    match entry {
        Entry::Admin(command) => {
            out.push_str("command ")?;
            push_bytes(out, command.as_slice())
        }
        Entry::Message(message) => push_message(out, message),
    }
}

fn push_message(out: &mut String, message: &Message) -> Result<(), AllocError> {
    let input = message.input.as_str();
    let peer = message.peer.as_str();
    let moment = message.moment;
    let version = message.version;
    write!(out, "message {input} {peer} {moment} {version} ")?;
    push_bytes(out, message.bytes.as_slice())?;
    match &message.origin {
        Some(origin) => push_origin(out, origin),
        None => Ok(()),
    }
}

/// Puts where a message came from behind a text, as a line.
fn push_origin(out: &mut String, origin: &Origin) -> Result<(), AllocError> {
    let kind = match origin.kind {
        InputKind::Raw => "raw",
        InputKind::Gelf => "gelf",
        InputKind::Syslog => "syslog",
    };
    let port = origin.port;
    write!(out, "\norigin {kind} {port}")
}

/// The origin that two words of a row write, if they do.
fn origin_of(row: &Row) -> Option<Origin>
    ensures { IfSome result (λ origin. origin.port < 2 ^ 16) }
{
    let port = u16::try_from(row.number(6)).unwrap_or(0);
    match row.text(5) {
        "raw" => Some(Origin {
            kind: InputKind::Raw,
            port,
        }),
        "gelf" => Some(Origin {
            kind: InputKind::Gelf,
            port,
        }),
        "syslog" => Some(Origin {
            kind: InputKind::Syslog,
            port,
        }),
        _ => None,
    }
}

/// The host and the port of a peer.
fn peer(text: &str, out: &mut String) -> Result<(), AllocError> {
    let (host, port) = split_peer(text);
    push_word(out, host, u64::from(port))
}

/// Tells where the bytes of what was read aren't those that were given.
fn push_again(out: &mut String, bytes: &[u8], again: &[u8]) -> Result<(), AllocError> {
    if bytes != again {
        out.push_str("\nwritten ")?;
        push_bytes(out, again)?;
    }
    Ok(())
}

/// The entry of these bytes. Its copy has to have the same bytes.
fn entry(alloc: Global, bytes: &[u8], out: &mut String) -> Result<(), AllocError> {
    match decode_entry(alloc, bytes) {
        Ok(entry) => {
            push_entry(out, &entry)?;
            let copy = entry.copy()?;
            let again = encode_entry(alloc, &copy)?;
            push_again(out, bytes, again.as_slice())
        }
        Err(refusal) => push_refusal(out, refusal),
    }
}

/// What is answered to each front of these bytes that isn't the whole.
fn entry_fronts(alloc: Global, bytes: &[u8], out: &mut String) -> Result<(), AllocError> {
    for len in 0..bytes.len() {
        entry(alloc, &bytes[..len], out)?;
        out.push('\n')?;
    }
    Ok(())
}

/// The entry of a message, or nothing where its parts aren't lawful.
fn entry_of(alloc: Global, row: &Row) -> Result<Option<Entry>, AllocError>
    ensures { IfOk result (λ entry. IfSome entry IsEntry) }
{
    let input = row.text(1);
    let peer = row.text(2);
    let moment = row.number(3);
    let bytes = row.bytes(4);
    if input.is_empty() || input.len() > 64 || peer.is_empty() || peer.len() > 255 {
        return Ok(None);
    }
    if moment > 253_402_300_799_999 || bytes.is_empty() || bytes.len() > 1_048_576 {
        return Ok(None);
    }
    Ok(Some(Entry::Message(Message {
        input: Text::from_str(alloc, input)?,
        peer: Text::from_str(alloc, peer)?,
        moment,
        version: 0,
        origin: origin_of(row),
        bytes: Items::from_slice(alloc, bytes)?,
    })))
}

/// The bytes of a message's entry.
fn message(alloc: Global, row: &Row, out: &mut String) -> Result<(), AllocError> {
    match entry_of(alloc, row)? {
        Some(entry) => {
            let bytes = encode_entry(alloc, &entry)?;
            push_bytes(out, bytes.as_slice())
        }
        None => out.push_str("unlawful"),
    }
}

fn push_cause(out: &mut String, cause: Cause) -> Result<(), AllocError> {
    match cause {
        Cause::NotJson { at } => push_word(out, "not-json", u64::from(at)),
        Cause::TooDeep => out.push_str("too-deep"),
        Cause::Compressed => out.push_str("compressed"),
        Cause::NoShortMessage => out.push_str("no-short-message"),
        Cause::TooManyFields => out.push_str("too-many-fields"),
        Cause::TooLarge => out.push_str("too-large"),
    }
}

/// Puts the fields of a payload, or the cause that it has none, behind a text.
pub fn push_decoded(out: &mut String, decoded: Result<FieldMap, Cause>) -> Result<(), AllocError> {
    match decoded {
        Ok(fields) => push_fields(out, &fields),
        Err(cause) => push_cause(out, cause),
    }
}

fn push_streams(out: &mut String, streams: &[u64]) -> Result<(), AllocError> {
    out.push_str("stored")?;
    for id in streams {
        write!(out, " {id}")?;
    }
    out.push(' ')
}

fn push_outcome(out: &mut String, outcome: &Outcome) -> Result<(), AllocError> {
    match outcome {
        Outcome::Applied => out.push_str("applied"),
        Outcome::Stored { streams, fields } => {
            push_streams(out, streams.get().as_slice())?;
            push_fields(out, fields.get())
        }
        Outcome::Dropped => out.push_str("dropped"),
        Outcome::Undecodable(cause) => {
            out.push_str("undecodable ")?;
            push_cause(out, *cause)
        }
    }
}

/// The outcome of these bytes, which has to have them again.
fn outcome(alloc: Global, bytes: &[u8], out: &mut String) -> Result<(), AllocError> {
    match decode_outcome(alloc, bytes) {
        Ok(outcome) => {
            push_outcome(out, &outcome)?;
            let again = encode_outcome(alloc, &outcome)?;
            push_again(out, bytes, again.as_slice())
        }
        Err(refusal) => push_refusal(out, refusal),
    }
}

/// What is answered to each front of these bytes that isn't the whole.
fn outcome_fronts(alloc: Global, bytes: &[u8], out: &mut String) -> Result<(), AllocError> {
    for len in 0..bytes.len() {
        outcome(alloc, &bytes[..len], out)?;
        out.push('\n')?;
    }
    Ok(())
}

/// The bytes of a message that was stored in one stream, with the fields of a row.
fn stored(alloc: Global, row: &Row, out: &mut String) -> Result<(), AllocError> {
    let mut fields = FieldMap::new(alloc);
    let mut answers = String::new(alloc);
    set_words(alloc, row, 2, &mut fields, &mut answers)?;
    let bytes = stored_bytes(alloc, row.number(1), fields)?;
    push_bytes(out, bytes.as_slice())
}

fn stored_bytes(alloc: Global, stream: u64, fields: FieldMap) -> Result<Vec<u8>, AllocError> {
    let _count = fields.len();
    let mut ids = Items::new(alloc);
    ids.push(stream)?;
    let streams = Joint::new(alloc, ids)?;
    let fields = Joint::new(alloc, fields)?;
    encode_outcome(alloc, &Outcome::Stored { streams, fields })
}

/// The bytes of another outcome.
fn other(alloc: Global, row: &Row, out: &mut String) -> Result<(), AllocError> {
    let bytes = match row.text(1) {
        "applied" => encode_outcome(alloc, &Outcome::Applied)?,
        "dropped" => encode_outcome(alloc, &Outcome::Dropped)?,
        "not-json" => {
            let at = u32::try_from(row.number(2)).unwrap_or(0);
            encode_outcome(alloc, &Outcome::Undecodable(Cause::NotJson { at }))?
        }
        "too-large" => encode_outcome(alloc, &Outcome::Undecodable(Cause::TooLarge))?,
        _ => Vec::new(alloc),
    };
    push_bytes(out, bytes.as_slice())
}
