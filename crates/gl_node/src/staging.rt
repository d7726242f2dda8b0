// What becomes of an entry, under a configuration.
ghost use Rattle.std.specs.Prelude.{◌≡◌, ◌≤◌, IfOk, map};
ghost use Rattle.std.specs.List.{All};
ghost use Rattle.gl_fields.specs.Bounds.{IsOutcome};
ghost use Rattle.gl_fields.specs.Putting.{map_with, IsDecoded};
ghost use Rattle.gl_node.specs.Decoding.{decoded_as, outcome_under, raw_fields};

use crate::config::Config;
use gl_base::{Items, Joint, Text};
use gl_fields::{
    Cause, DecodeFault, Entry, FieldMap, InputKind, LAST_MOMENT, MAX_PAYLOAD, Message, Outcome,
    Value,
};
use gl_gelf::decode_gelf;
use gl_syslog::decode_syslog;
use std::alloc::{AllocError, Global};

const DEFAULT_STREAM: u64 = 1;

// The outcomes of entries, one after another.
pub fn stage_entries(
    alloc: Global,
    config: &Config,
    entries: &[Entry],
) -> Result<Items<Outcome>, AllocError>
    ensures value { IfOk result (λ outcomes. outcomes ≡ map (outcome_under config.now) entries.now) }
    ensures bounded { IfOk result (λ outcomes. All IsOutcome outcomes) }
{
    let mut outcomes = Items::with_capacity(alloc, entries.len())?;
    for entry in entries {
        outcomes.push(stage_entry(alloc, config, entry)?)?;
    }
    Ok(outcomes)
}

// The outcome of one entry.
fn stage_entry(alloc: Global, config: &Config, entry: &Entry) -> Result<Outcome, AllocError>
    ensures value { IfOk result (λ outcome. outcome ≡ outcome_under config.now entry.now) }
    ensures bounded { IfOk result (λ outcome. IsOutcome outcome) }
{
    match entry {
        Entry::Admin(_) => Ok(Outcome::Applied),
        Entry::Message(message) => stage_message(alloc, config, message),
    }
}

fn stage_message(alloc: Global, config: &Config, message: &Message) -> Result<Outcome, AllocError>
    ensures value { IfOk result (λ outcome. outcome ≡ outcome_under config.now (Entry.Message message.now)) }
    ensures bounded { IfOk result (λ outcome. IsOutcome outcome) }
{
    match decode(alloc, config.kind_of(message.input.as_str()), message)? {
        Ok(fields) => {
            let streams = Items::from_slice(alloc, &[DEFAULT_STREAM])?;
            // Each map is within the bounds of one, as its length says.
            let _ = fields.len();
            let streams = Joint::new(alloc, streams)?;
            let fields = Joint::new(alloc, fields)?;
            Ok(Outcome::Stored { streams, fields })
        }
        Err(cause) => Ok(Outcome::Undecodable(cause)),
    }
}

// The fields of a message by the kind of its input, or why it gives none.
fn decode(
    alloc: Global,
    kind: Option<InputKind>,
    message: &Message,
) -> Result<Result<FieldMap, Cause>, AllocError>
    ensures { IfOk result (λ decoded. decoded ≡ decoded_as kind message.now) }
{
    // No entry of a journal has such a moment, or so many bytes.
    if message.moment > LAST_MOMENT || message.bytes.len() > MAX_PAYLOAD {
        return Err(AllocError);
    }
    let peer = message.peer.as_str();
    let bytes = message.bytes.as_slice();
    match kind {
        None | Some(InputKind::Raw) => decode_raw(alloc, message),
        Some(InputKind::Gelf) => decode_gelf(alloc, message.moment, peer, bytes),
        Some(InputKind::Syslog) => decode_syslog(alloc, message.moment, peer, bytes),
    }
}

// The fields of a raw message.
fn decode_raw(alloc: Global, message: &Message) -> Result<Result<FieldMap, Cause>, AllocError>
    requires { message.now.moment ≤ 253402300799999 }
    ensures { IfOk result (λ decoded. decoded ≡ map_with (raw_fields message.now)) }
{
    match set_raw(alloc, message) {
        Ok(fields) => Ok(Ok(fields)),
        Err(DecodeFault::Undecodable(cause)) => Ok(Err(cause)),
        Err(DecodeFault::OutOfMemory) => Err(AllocError),
    }
}

// Its payload, its peer and its moment, as fields.
fn set_raw(alloc: Global, message: &Message) -> Result<FieldMap, DecodeFault>
    requires { message.now.moment ≤ 253402300799999 }
    ensures { IsDecoded (map_with (raw_fields message.now)) result }
{
    let text = String::from_utf8_lossy(alloc, message.bytes.as_slice())?;
    let mut fields = FieldMap::with_capacity(alloc, 3)?;
    fields.set("message", Value::Text(Text::from_string(text)))?;
    fields.set("source", Value::Text(message.peer.copy()?))?;
    fields.set("timestamp", Value::Whole(message.moment as i64))?;
    Ok(fields)
}
