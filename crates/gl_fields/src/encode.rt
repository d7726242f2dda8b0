// The bytes of entries and outcomes.
ghost use Rattle.std.specs.Prelude.{◌≡◌, ◌++◌, ◌∷◌, [], ◌<◌, ◌^◌, length, IfOk, OnOk};
ghost use Rattle.std.specs.List.{All, flat_map};
ghost use Rattle.std.specs.Int.{to_be_bytes, w16, w64};
ghost use Rattle.gl_fields.specs.declared.entry.Entry.{Entry};
ghost use Rattle.gl_fields.specs.declared.entry.Outcome.{Outcome};
ghost use Rattle.gl_fields.specs.Fields.{value_text};
ghost use Rattle.gl_fields.specs.Entries.{short_text, long_text, kind_sign, front_bytes, entry_bytes};
ghost use Rattle.gl_fields.specs.Outcomes.{value_bytes, field_bytes, cause_bytes, outcome_bytes};
ghost use Rattle.gl_fields.specs.Bounds.{IsEntry, IsOutcome, IsPayload};
ghost use Rattle.gl_fields.specs.Places.{HasLengths};

use crate::{Cause, Entry, Field, InputKind, Message, Outcome, Value};
use std::alloc::{AllocError, Global};

/// The bytes of an entry.
pub fn encode_entry(alloc: Global, entry: &Entry) -> Result<Vec<u8>, AllocError>
    requires bounded { IsEntry entry.now }
    ensures { IfOk result (λ bytes. bytes.items ≡ entry_bytes entry.now) }
{
    let mut out = Vec::with_capacity(alloc, entry_room(entry))?;
    match entry {
        Entry::Admin(command) => {
            out.push(1)?;
            push_long_text(&mut out, command.as_slice())?;
        }
        Entry::Message(message) => push_message(&mut out, message)?,
    }
    Ok(out)
}

/// The bytes of an outcome.
pub fn encode_outcome(alloc: Global, outcome: &Outcome) -> Result<Vec<u8>, AllocError>
    requires bounded { IsOutcome outcome.now }
    ensures { IfOk result (λ bytes. bytes.items ≡ outcome_bytes outcome.now) }
{
    let mut out = Vec::with_capacity(alloc, outcome_room(outcome))?;
    match outcome {
        Outcome::Applied => out.push(16)?,
        Outcome::Stored { streams, fields } => {
            out.push(17)?;
            push_ids(&mut out, streams.get().as_slice())?;
            push_fields(&mut out, fields.get().as_slice())?;
        }
        Outcome::Dropped => out.push(18)?,
        Outcome::Undecodable(cause) => {
            out.push(19)?;
            push_cause(&mut out, *cause)?;
        }
    }
    Ok(out)
}

/// Bytes have at most one entry, and at most one outcome.
pub fn law_bytes_read_back()
    ensures entries { (a b : Entry) → IsEntry a → IsEntry b → entry_bytes a ≡ entry_bytes b → a ≡ b }
    ensures outcomes { (a b : Outcome) → IsOutcome a → IsOutcome b → outcome_bytes a ≡ outcome_bytes b → a ≡ b }
{}

// The rooms below are the lengths that the bytes will have, so that a vector never grows. No clause
// tells of a room, and within the bounds no sum saturates.

fn entry_room(entry: &Entry) -> usize {
    match entry {
        Entry::Admin(command) => command.as_slice().len().saturating_add(5),
        Entry::Message(message) => message
            .input
            .as_str()
            .len()
            .saturating_add(message.peer.as_str().len())
            .saturating_add(message.bytes.as_slice().len())
            .saturating_add(26),
    }
}

fn outcome_room(outcome: &Outcome) -> usize {
    match outcome {
        Outcome::Applied | Outcome::Dropped => 1,
        Outcome::Stored { streams, fields } => streams
            .get()
            .len()
            .saturating_mul(8)
            .saturating_add(fields_room(fields.get().as_slice()))
            .saturating_add(5),
        Outcome::Undecodable(_) => 6,
    }
}

fn fields_room(fields: &[Field]) -> usize {
    let mut room = 0usize;
    for field in fields {
        let value = match &field.value {
            Value::Text(text) => text.as_str().len().saturating_add(5),
            Value::Whole(_) => 9,
        };
        room = room
            .saturating_add(field.name.as_str().len())
            .saturating_add(value)
            .saturating_add(1);
    }
    room
}

fn push_short_text(out: &mut Vec<u8>, text: &[u8]) -> Result<(), AllocError>
    requires { length text.now < 256 }
    ensures { OnOk result (out.new.items ≡ out.old.items ++ short_text text.now) }
{
    out.push(text.len() as u8)?;
    out.extend_from_slice(text)?;
    Ok(())
}

fn push_long_text(out: &mut Vec<u8>, text: &[u8]) -> Result<(), AllocError>
    requires { length text.now < 2 ^ 32 }
    ensures { OnOk result (out.new.items ≡ out.old.items ++ long_text text.now) }
{
    out.extend_from_slice(&(text.len() as u32).to_be_bytes())?;
    out.extend_from_slice(text)?;
    Ok(())
}

fn kind_sign(kind: InputKind) -> u8
    ensures { result ≡ kind_sign kind }
{
    match kind {
        InputKind::Raw => 0,
        InputKind::Gelf => 1,
        InputKind::Syslog => 2,
    }
}

// Where a message came in.
fn push_front(out: &mut Vec<u8>, message: &Message) -> Result<(), AllocError>
    requires input { length message.now.input < 256 }
    requires peer { length message.now.peer < 256 }
    ensures { OnOk result (out.new.items ≡ out.old.items ++ front_bytes message.now.input message.now.peer message.now.origin) }
{
    match message.origin {
        None => {
            out.push(2)?;
            push_short_text(out, message.input.as_str().as_bytes())?;
            push_short_text(out, message.peer.as_str().as_bytes())?;
        }
        Some(origin) => {
            out.push(3)?;
            push_short_text(out, message.input.as_str().as_bytes())?;
            out.push(kind_sign(origin.kind))?;
            push_short_text(out, message.peer.as_str().as_bytes())?;
            out.extend_from_slice(&origin.port.to_be_bytes())?;
        }
    }
    Ok(())
}

fn push_message(out: &mut Vec<u8>, message: &Message) -> Result<(), AllocError>
    requires { IsPayload message.now }
    ensures { OnOk result (out.new.items ≡ out.old.items ++ entry_bytes (Entry.Message message.now)) }
{
    push_front(out, message)?;
    out.extend_from_slice(&message.moment.to_be_bytes())?;
    out.extend_from_slice(&message.version.to_be_bytes())?;
    push_long_text(out, message.bytes.as_slice())?;
    Ok(())
}

fn push_value(out: &mut Vec<u8>, value: &Value) -> Result<(), AllocError>
    requires { length (value_text value.now) < 2 ^ 32 }
    ensures { OnOk result (out.new.items ≡ out.old.items ++ value_bytes value.now) }
{
    match value {
        Value::Text(text) => {
            out.push(0)?;
            push_long_text(out, text.as_str().as_bytes())?;
        }
        Value::Whole(number) => {
            out.push(1)?;
            out.extend_from_slice(&number.to_be_bytes())?;
        }
    }
    Ok(())
}

fn push_field(out: &mut Vec<u8>, field: &Field) -> Result<(), AllocError>
    requires { HasLengths field.now }
    ensures { OnOk result (out.new.items ≡ out.old.items ++ field_bytes field.now) }
{
    push_short_text(out, field.name.as_str().as_bytes())?;
    push_value(out, &field.value)?;
    Ok(())
}

fn push_fields(out: &mut Vec<u8>, fields: &[Field]) -> Result<(), AllocError>
    requires few { length fields.now < 2 ^ 16 }
    requires lengths { All HasLengths fields.now }
    ensures { OnOk result (out.new.items ≡ out.old.items ++ (to_be_bytes w16 (length fields.now) ++ flat_map field_bytes fields.now)) }
{
    out.extend_from_slice(&(fields.len() as u16).to_be_bytes())?;
    for field in fields {
        push_field(out, field)?;
    }
    Ok(())
}

fn push_ids(out: &mut Vec<u8>, ids: &[u64]) -> Result<(), AllocError>
    requires { length ids.now < 2 ^ 16 }
    ensures { OnOk result (out.new.items ≡ out.old.items ++ (to_be_bytes w16 (length ids.now) ++ flat_map (λ id. to_be_bytes w64 id) ids.now)) }
{
    out.extend_from_slice(&(ids.len() as u16).to_be_bytes())?;
    for id in ids {
        out.extend_from_slice(&id.to_be_bytes())?;
    }
    Ok(())
}

fn push_cause(out: &mut Vec<u8>, cause: Cause) -> Result<(), AllocError>
    ensures { OnOk result (out.new.items ≡ out.old.items ++ cause_bytes cause) }
{
    match cause {
        Cause::NotJson { at } => {
            out.push(1)?;
            out.extend_from_slice(&at.to_be_bytes())?;
        }
        Cause::TooDeep => out.push(2)?,
        Cause::Compressed => out.push(3)?,
        Cause::NoShortMessage => out.push(4)?,
        Cause::TooManyFields => out.push(5)?,
        Cause::TooLarge => out.push(6)?,
    }
    Ok(())
}
