// Outcomes from their bytes.
ghost use Rattle.std.specs.Prelude.{◌≡◌, ◌<◌, ◌≤◌, ℕ, true, List, [], nat_lt, IfOk, Ok};
ghost use Rattle.std.specs.List.{list_all};
ghost use Rattle.gl_fields.specs.declared.field.Field.{Field};
ghost use Rattle.gl_fields.specs.declared.entry.Outcome.{Outcome};
ghost use Rattle.gl_fields.specs.Fields.{comes_before, counted_size, Rises};
ghost use Rattle.gl_fields.specs.Outcomes.{outcome_bytes};
ghost use Rattle.gl_fields.specs.Bounds.{IsOutcome};
ghost use Rattle.gl_fields.specs.Units.{Answers, Gives, many_at};
ghost use Rattle.gl_fields.specs.EntryReading.{id_at, text_value_at, whole_value_at, value_at, name_at, is_taken, named_at, field_at, stored_at, plain_cause, not_json_at, cause_at, undecodable_at, outcome_at, outcome_of};

use crate::decode::not_an_entry;
use crate::units::{self, Unread};
use crate::{Cause, EntryRefusal, Field, FieldMap, Outcome, Value, field, limits, place};
use gl_base::{Items, Joint, Text};
use std::alloc::Global;
use std::cmp::Ordering;

// In bytes. A count says no more than the bytes behind it can hold, so that a false one takes little memory.
const ID_LEN: usize = 8;

// A name of one byte behind its length, a sign and the length of an empty text.
const LEAST_FIELD: usize = 7;

/// The outcome whose bytes these are, and nothing else.
pub fn decode_outcome(alloc: Global, bytes: &[u8]) -> Result<Outcome, EntryRefusal>
    // What is read has just these bytes.
    ensures found { IfOk result (λ o. IsOutcome o × (bytes.now ≡ outcome_bytes o)) }
    // The bytes of an outcome are read as that outcome.
    ensures only { (o : Outcome) → IsOutcome o → bytes.now ≡ outcome_bytes o → Answers result (Ok o) }
    // Which place it is.
    ensures place { Answers result (outcome_of bytes.now) }
{
    whole_outcome(alloc, bytes)
}

#[tactic(auto, unfolding(crate::specs::EntryReading::outcome_of))]
fn whole_outcome(alloc: Global, bytes: &[u8]) -> Result<Outcome, EntryRefusal>
    ensures { Answers result (outcome_of bytes.now) }
{
    match outcome_at(alloc, bytes) {
        Ok((outcome, rest)) => {
            if !rest.is_empty() {
                return Err(not_an_entry(bytes, rest.len()));
            }
            Ok(outcome)
        }
        Err(Unread::At { left }) => Err(not_an_entry(bytes, left)),
        Err(Unread::OutOfMemory) => Err(EntryRefusal::OutOfMemory),
    }
}

#[tactic(auto, unfolding(crate::specs::EntryReading::outcome_at))]
fn outcome_at(alloc: Global, bytes: &[u8]) -> Result<(Outcome, &[u8]), Unread>
    ensures { Gives (λ x. (x.0, x.1.now)) result (outcome_at bytes.now) }
{
    let (sign, rest) = units::byte_at(bytes, 16, 19)?;
    if sign == 16 {
        return Ok((Outcome::Applied, rest));
    }
    if sign == 17 {
        return stored_at(alloc, rest);
    }
    if sign == 18 {
        return Ok((Outcome::Dropped, rest));
    }
    undecodable_at(rest)
}

#[tactic(auto, unfolding(crate::specs::EntryReading::undecodable_at))]
fn undecodable_at(bytes: &[u8]) -> Result<(Outcome, &[u8]), Unread>
    ensures { Gives (λ x. (x.0, x.1.now)) result (undecodable_at bytes.now) }
{
    let (cause, rest) = cause_at(bytes)?;
    Ok((Outcome::Undecodable(cause), rest))
}

#[tactic(auto, unfolding(crate::specs::EntryReading::cause_at))]
fn cause_at(bytes: &[u8]) -> Result<(Cause, &[u8]), Unread>
    ensures { Gives (λ x. (x.0, x.1.now)) result (cause_at bytes.now) }
{
    let (sign, rest) = units::byte_at(bytes, 1, 6)?;
    if sign == 1 {
        return not_json_at(rest);
    }
    Ok((plain_cause(sign), rest))
}

#[tactic(auto, unfolding(crate::specs::EntryReading::not_json_at))]
fn not_json_at(bytes: &[u8]) -> Result<(Cause, &[u8]), Unread>
    ensures { Gives (λ x. (x.0, x.1.now)) result (not_json_at bytes.now) }
{
    let (at, rest) = units::u32_at(bytes, 0, u32::MAX)?;
    Ok((Cause::NotJson { at }, rest))
}

fn plain_cause(sign: u8) -> Cause
    ensures { result ≡ plain_cause sign }
{
    match sign {
        2 => Cause::TooDeep,
        3 => Cause::Compressed,
        4 => Cause::NoShortMessage,
        5 => Cause::TooManyFields,
        _ => Cause::TooLarge,
    }
}

#[tactic(auto, unfolding(crate::specs::EntryReading::stored_at))]
fn stored_at(alloc: Global, bytes: &[u8]) -> Result<(Outcome, &[u8]), Unread>
    ensures { Gives (λ x. (x.0, x.1.now)) result (stored_at bytes.now) }
{
    let (count, rest) = units::u16_at(bytes, 1, u16::MAX)?;
    let (streams, rest) = ids_at(alloc, count, rest)?;
    let (many, rest) = units::u16_at(rest, 0, limits::MAX_FIELDS as u16)?;
    let (fields, rest) = fields_at(alloc, many, rest)?;
    let streams = Joint::new(alloc, streams)?;
    let fields = Joint::new(alloc, fields)?;
    Ok((Outcome::Stored { streams, fields }, rest))
}

fn ids_at(alloc: Global, count: u16, bytes: &[u8]) -> Result<(Items<u64>, &[u8]), Unread>
    ensures { Gives (λ x. (x.0, x.1.now)) result (many_at id_at count [] bytes.now) }
{
    let room = usize::min(count as usize, bytes.len() / ID_LEN);
    let mut ids = Vec::with_capacity(alloc, room)?;
    let mut rest = bytes;
    for _ in 0..count {
        let (id, after) = id_at(ids.as_slice(), rest)?;
        ids.push(id)?;
        rest = after;
    }
    Ok((Items::from_vec(ids), rest))
}

#[tactic(auto, unfolding(crate::specs::EntryReading::id_at))]
fn id_at<'a>(ids: &[u64], bytes: &'a [u8]) -> Result<(u64, &'a [u8]), Unread>
    requires { Rises (λ (a b : ℕ). a < b) ids.now }
    ensures { Gives (λ x. (x.0, x.1.now)) result (id_at ids.now bytes.now) }
{
    let (id, rest) = units::u64_at(bytes, u64::MAX)?;
    if !is_above(ids, id) {
        return Err(Unread::At { left: bytes.len() });
    }
    Ok((id, rest))
}

/// Whether an id is above each of these, which rise.
fn is_above(ids: &[u64], id: u64) -> bool
    requires { Rises (λ (a b : ℕ). a < b) ids.now }
    ensures { result ≡ list_all (λ (other : ℕ). nat_lt other id) ids.now }
{
    match ids.last() {
        Some(last) => *last < id,
        None => true,
    }
}

fn fields_at(alloc: Global, count: u16, bytes: &[u8]) -> Result<(FieldMap, &[u8]), Unread>
    requires { count ≤ 256 }
    ensures { Gives (λ x. (x.0, x.1.now)) result (many_at field_at count [] bytes.now) }
{
    let room = usize::min(count as usize, bytes.len() / LEAST_FIELD);
    let mut fields = Vec::with_capacity(alloc, room)?;
    let mut size = 0;
    let mut rest = bytes;
    for _ in 0..count {
        let (field, after) = field_at(alloc, fields.as_slice(), size, rest)?;
        size += field::field_size(&field);
        fields.push(field)?;
        rest = after;
    }
    Ok((FieldMap::from_fields(fields, size), rest))
}

#[tactic(auto, unfolding(crate::specs::EntryReading::field_at))]
fn field_at<'a>(
    alloc: Global,
    fields: &[Field],
    size: usize,
    bytes: &'a [u8],
) -> Result<(Field, &'a [u8]), Unread>
    requires rises { Rises (λ (a b : Field). comes_before a.name b.name ≡ true) fields.now }
    requires size { size ≡ counted_size fields.now }
    requires short { size ≤ 2097152 }
    ensures { Gives (λ x. (x.0, x.1.now)) result (field_at fields.now bytes.now) }
{
    let (len, rest) = units::byte_at(bytes, 1, limits::MAX_NAME as u8)?;
    named_at(alloc, fields, size, len, rest)
}

#[tactic(auto, unfolding(crate::specs::EntryReading::named_at))]
fn named_at<'a>(
    alloc: Global,
    fields: &[Field],
    size: usize,
    len: u8,
    bytes: &'a [u8],
) -> Result<(Field, &'a [u8]), Unread>
    requires rises { Rises (λ (a b : Field). comes_before a.name b.name ≡ true) fields.now }
    requires size { size ≡ counted_size fields.now }
    requires short { size ≤ 2097152 }
    ensures { Gives (λ x. (x.0, x.1.now)) result (named_at fields.now len bytes.now) }
{
    let (name, rest) = name_at(alloc, fields, len, bytes)?;
    let (value, rest) = value_at(alloc, rest)?;
    let field = Field { name, value };
    if !is_taken(size, &field) {
        return Err(Unread::At { left: bytes.len() });
    }
    Ok((field, rest))
}

#[tactic(auto, unfolding(crate::specs::EntryReading::name_at))]
fn name_at<'a>(
    alloc: Global,
    fields: &[Field],
    len: u8,
    bytes: &'a [u8],
) -> Result<(Text, &'a [u8]), Unread>
    requires { Rises (λ (a b : Field). comes_before a.name b.name ≡ true) fields.now }
    ensures { Gives (λ x. (x.0, x.1.now)) result (name_at fields.now len bytes.now) }
{
    let (name, rest) = units::text_at(bytes, len as usize)?;
    if !place::is_field_name(name) {
        return Err(Unread::At { left: bytes.len() });
    }
    if !is_last(fields, name) {
        return Err(Unread::At { left: bytes.len() });
    }
    Ok((Text::from_str(alloc, name)?, rest))
}

/// Whether a name comes behind those of these fields, which rise.
fn is_last(fields: &[Field], name: &str) -> bool
    requires { Rises (λ (a b : Field). comes_before a.name b.name ≡ true) fields.now }
    ensures { result ≡ list_all (λ (field : Field). comes_before field.name name.now) fields.now }
{
    match fields.last() {
        Some(last) => matches!(last.name.as_str().cmp(&name), Ordering::Less),
        None => true,
    }
}

/// Whether the map takes a field behind fields that count so many bytes.
fn is_taken(size: usize, field: &Field) -> bool
    requires short { size ≤ 2097152 }
    ensures { (fields : List Field) → size ≡ counted_size fields → result ≡ is_taken fields field.now }
{
    if place::is_reserved(field.name.as_str(), &field.value) {
        return false;
    }
    let name = field.name.len();
    let text = field.value.text_len();
    if name > limits::MAX_SIZE {
        return false;
    }
    if text > limits::MAX_SIZE {
        return false;
    }
    size + name + text <= limits::MAX_SIZE
}

#[tactic(auto, unfolding(crate::specs::EntryReading::value_at))]
fn value_at(alloc: Global, bytes: &[u8]) -> Result<(Value, &[u8]), Unread>
    ensures { Gives (λ x. (x.0, x.1.now)) result (value_at bytes.now) }
{
    let (sign, rest) = units::byte_at(bytes, 0, 1)?;
    if sign == 0 {
        text_value_at(alloc, rest)
    } else {
        whole_value_at(rest)
    }
}

#[tactic(auto, unfolding(crate::specs::EntryReading::text_value_at))]
fn text_value_at(alloc: Global, bytes: &[u8]) -> Result<(Value, &[u8]), Unread>
    ensures { Gives (λ x. (x.0, x.1.now)) result (text_value_at bytes.now) }
{
    let (text, rest) = units::long_text_at(bytes)?;
    Ok((Value::Text(Text::from_str(alloc, text)?), rest))
}

#[tactic(auto, unfolding(crate::specs::EntryReading::whole_value_at))]
fn whole_value_at(bytes: &[u8]) -> Result<(Value, &[u8]), Unread>
    ensures { Gives (λ x. (x.0, x.1.now)) result (whole_value_at bytes.now) }
{
    let (number, rest) = units::u64_at(bytes, u64::MAX)?;
    Ok((Value::Whole(number.cast_signed()), rest))
}
