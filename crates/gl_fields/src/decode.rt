// Entries and outcomes from their bytes.
ghost use Rattle.std.specs.Prelude.{◌≡◌, ◌-◌, length, IfOk, Ok};
ghost use Rattle.gl_fields.specs.declared.entry.Entry.{Entry};
ghost use Rattle.gl_fields.specs.Entries.{entry_bytes};
ghost use Rattle.gl_fields.specs.Bounds.{IsEntry};
ghost use Rattle.gl_fields.specs.Units.{Answers, Gives};
ghost use Rattle.gl_fields.specs.EntryReading.{kind_of, kind_at, received_at, message_at, origin_message_at, command_at, payload_at, origin_payload_at, entry_at, entry_of};

use crate::limits::{LAST_MOMENT, MAX_COMMAND, MAX_INPUT, MAX_PAYLOAD, MAX_PEER};
use crate::units::{self, Unread};
use crate::{Entry, InputKind, Message, Origin};
use gl_base::{Items, Text};
use std::alloc::Global;

/// Why bytes aren't those of an entry, or of an outcome.
#[derive(Clone, Copy, Debug, PartialEq, Eq)]
pub enum EntryRefusal {
    /// The place of the first part that isn't lawful behind those before it: a sign, a count, a
    /// length, a number or a text. Bytes that end too early have it at the part that is cut short, and
    /// bytes that go on behind a whole entry at the first byte too many.
    NotAnEntry { at: u64 },
    OutOfMemory,
}

/// The entry whose bytes these are, and nothing else.
pub fn decode_entry(alloc: Global, bytes: &[u8]) -> Result<Entry, EntryRefusal>
    // What is read has just these bytes.
    ensures found { IfOk result (λ e. IsEntry e × (bytes.now ≡ entry_bytes e)) }
    // The bytes of an entry are read as that entry.
    ensures only { (e : Entry) → IsEntry e → bytes.now ≡ entry_bytes e → Answers result (Ok e) }
    // Which place it is.
    ensures place { Answers result (entry_of bytes.now) }
{
    whole_entry(alloc, bytes)
}

#[tactic(auto, unfolding(crate::specs::EntryReading::entry_of))]
fn whole_entry(alloc: Global, bytes: &[u8]) -> Result<Entry, EntryRefusal>
    ensures { Answers result (entry_of bytes.now) }
{
    match entry_at(alloc, bytes) {
        Ok((entry, rest)) => {
            if !rest.is_empty() {
                return Err(not_an_entry(bytes, rest.len()));
            }
            Ok(entry)
        }
        Err(Unread::At { left }) => Err(not_an_entry(bytes, left)),
        Err(Unread::OutOfMemory) => Err(EntryRefusal::OutOfMemory),
    }
}

pub fn not_an_entry(bytes: &[u8], left: usize) -> EntryRefusal
    ensures { result ≡ EntryRefusal.NotAnEntry (length bytes.now - left) }
{
    EntryRefusal::NotAnEntry {
        at: bytes.len().saturating_sub(left) as u64,
    }
}

#[tactic(auto, unfolding(crate::specs::EntryReading::entry_at))]
fn entry_at(alloc: Global, bytes: &[u8]) -> Result<(Entry, &[u8]), Unread>
    ensures { Gives (λ x. (x.0, x.1.now)) result (entry_at bytes.now) }
{
    let (sign, rest) = units::byte_at(bytes, 1, 3)?;
    if sign == 1 {
        return command_at(alloc, rest);
    }
    if sign == 2 {
        return payload_at(alloc, rest);
    }
    origin_payload_at(alloc, rest)
}

#[tactic(auto, unfolding(crate::specs::EntryReading::command_at))]
fn command_at(alloc: Global, bytes: &[u8]) -> Result<(Entry, &[u8]), Unread>
    ensures { Gives (λ x. (x.0, x.1.now)) result (command_at bytes.now) }
{
    let (command, rest) = units::long_bytes_at(bytes, 0, MAX_COMMAND as u32)?;
    Ok((Entry::Admin(Items::from_slice(alloc, command)?), rest))
}

#[tactic(auto, unfolding(crate::specs::EntryReading::payload_at))]
fn payload_at(alloc: Global, bytes: &[u8]) -> Result<(Entry, &[u8]), Unread>
    ensures { Gives (λ x. (x.0, x.1.now)) result (payload_at bytes.now) }
{
    let (message, rest) = message_at(alloc, bytes)?;
    Ok((Entry::Message(message), rest))
}

#[tactic(auto, unfolding(crate::specs::EntryReading::origin_payload_at))]
fn origin_payload_at(alloc: Global, bytes: &[u8]) -> Result<(Entry, &[u8]), Unread>
    ensures { Gives (λ x. (x.0, x.1.now)) result (origin_payload_at bytes.now) }
{
    let (message, rest) = origin_message_at(alloc, bytes)?;
    Ok((Entry::Message(message), rest))
}

// A message in the first format.
#[tactic(auto, unfolding(crate::specs::EntryReading::message_at))]
fn message_at(alloc: Global, bytes: &[u8]) -> Result<(Message, &[u8]), Unread>
    ensures { Gives (λ x. (x.0, x.1.now)) result (message_at bytes.now) }
{
    let (input, rest) = units::short_text_at(alloc, bytes, MAX_INPUT as u8)?;
    let (peer, rest) = units::short_text_at(alloc, rest, MAX_PEER as u8)?;
    received_at(alloc, input, peer, None, rest)
}

// A message in the second format.
#[tactic(auto, unfolding(crate::specs::EntryReading::origin_message_at))]
fn origin_message_at(alloc: Global, bytes: &[u8]) -> Result<(Message, &[u8]), Unread>
    ensures { Gives (λ x. (x.0, x.1.now)) result (origin_message_at bytes.now) }
{
    let (input, rest) = units::short_text_at(alloc, bytes, MAX_INPUT as u8)?;
    let (kind, rest) = kind_at(rest)?;
    let (peer, rest) = units::short_text_at(alloc, rest, MAX_PEER as u8)?;
    let (port, rest) = units::u16_at(rest, 0, u16::MAX)?;
    received_at(alloc, input, peer, Some(Origin { kind, port }), rest)
}

#[tactic(auto, unfolding(crate::specs::EntryReading::kind_at))]
fn kind_at(bytes: &[u8]) -> Result<(InputKind, &[u8]), Unread>
    ensures { Gives (λ x. (x.0, x.1.now)) result (kind_at bytes.now) }
{
    let (sign, rest) = units::byte_at(bytes, 0, 2)?;
    Ok((kind_of(sign), rest))
}

fn kind_of(sign: u8) -> InputKind
    ensures { result ≡ kind_of sign }
{
    match sign {
        0 => InputKind::Raw,
        1 => InputKind::Gelf,
        _ => InputKind::Syslog,
    }
}

// A message of this input, peer and origin, from its moment on.
#[tactic(auto, unfolding(crate::specs::EntryReading::received_at))]
fn received_at(
    alloc: Global,
    input: Text,
    peer: Text,
    origin: Option<Origin>,
    bytes: &[u8],
) -> Result<(Message, &[u8]), Unread>
    ensures { Gives (λ x. (x.0, x.1.now)) result (received_at input peer origin bytes.now) }
{
    let (moment, rest) = units::u64_at(bytes, LAST_MOMENT)?;
    let (version, rest) = units::u64_at(rest, u64::MAX)?;
    let (payload, rest) = units::long_bytes_at(rest, 1, MAX_PAYLOAD as u32)?;
    let message = Message {
        input,
        peer,
        origin,
        moment,
        version,
        bytes: Items::from_slice(alloc, payload)?,
    };
    Ok((message, rest))
}
