// The fields of a message.
ghost use Rattle.std.specs.Prelude.{◌≡◌, ◌≤◌, ◌<◌, ◌∷◌, ◌^◌, [], true, false, map, length, pos, codes, IfOk, IfSome, Ok, Err, Some, ℕ, List, option_map, if◌then◌else◌};
ghost use Rattle.std.specs.List.{All, flat_map};
ghost use Rattle.std.specs.Str.{IsUtf8};
ghost use Rattle.std.specs.String.{string_bytes};
ghost use Rattle.gl_fields.specs.Fields.{is_field_name};
ghost use Rattle.gl_fields.specs.declared.value.Value.TheVariants as values;
ghost use Rattle.gl_base.specs.Digits.{whole_of};
ghost use Rattle.gl_json.specs.Flattening.{IsFormed, IsFormedPair, number_field};
ghost use Rattle.gl_json.specs.Places.{object_of};
ghost use Rattle.gl_json.specs.Views.{value_view, pair_view};
ghost use Rattle.gl_gelf.specs.Members.{with_said_name, counted, are_last, value_named};
ghost use Rattle.gl_gelf.specs.Parts.{named_view, put_all, IsRefusalOf};
ghost use Rattle.gl_fields.specs.Putting.{text_field, whole_field, IsPut, IsDecoded};
ghost use Rattle.gl_gelf.specs.Decoding.{is_compressed, some_text, short_message, source, timestamp, level, full_message, held, is_named, field_name, is_reserved, additional, named_fields, fields_of, of_object, gelf_fields};

use crate::members::{self, Named, said};
use crate::moment::moment_of;
use crate::number::whole_in;
use gl_base::Text;
use gl_base::whole::whole_of;
use gl_fields::{Cause, DecodeFault, FieldMap, FieldRefusal, Value};
use gl_json::{JsonRefusal, Member, Raw, law_parts_are_utf8, read_object};
use std::alloc::{AllocError, Global};
use std::str;

// How many fields a message has that names nothing but its text.
const MIN_ROOM: usize = 4;

// Few, since a map may hold fewer fields than its message has members, and is kept for long.
const MAX_ROOM: usize = 32;

fn some_text(text: String) -> Option<Text>
    ensures { result ≡ some_text (string_bytes text) }
{
    if text.is_empty() {
        return None;
    }
    Some(Text::from_string(text))
}

// A text as it stands.
fn plain_text(alloc: Global, bytes: &[u8]) -> Result<Text, AllocError>
    requires { IsUtf8 bytes.now }
    ensures { IfOk result (λ t. t ≡ bytes.now) }
{
    match str::from_utf8(bytes) {
        Ok(text) => Ok(Text::from_str(alloc, text)?),
        Err(_) => unreachable!(),
    }
}

#[tactic(auto, unfolding(crate::specs::Decoding::short_message))]
fn short_message(alloc: Global, value: Option<Raw>) -> Result<Option<Text>, AllocError>
    requires { IfSome value (λ v. IsFormed 63 (value_view v)) }
    ensures { IfOk result (λ t. t ≡ short_message (option_map value_view value.entry)) }
{
    law_parts_are_utf8();
    match value {
        Some(Raw::Text(raw)) => Ok(some_text(said(alloc, raw)?)),
        Some(Raw::Number(literal)) => Ok(Some(plain_text(alloc, literal)?)),
        _ => Ok(None),
    }
}

#[tactic(auto, unfolding(crate::specs::Decoding::source))]
fn source(alloc: Global, peer: &str, value: Option<Raw>) -> Result<Text, AllocError>
    requires { IfSome value (λ v. IsFormed 63 (value_view v)) }
    ensures { IfOk result (λ t. t ≡ source peer.now (option_map value_view value.entry)) }
{
    if let Some(Raw::Text(raw)) = value {
        if let Some(host) = some_text(said(alloc, raw)?) {
            return Ok(host);
        }
    }
    Text::from_str(alloc, peer)
}

fn moment_value(moment: u64) -> Value
    requires { moment ≤ 253402300799999 }
    ensures { result ≡ values.Whole (pos moment) }
{
    Value::Whole(moment as i64)
}

#[tactic(auto, unfolding(crate::specs::Decoding::timestamp))]
fn timestamp(alloc: Global, moment: u64, value: Option<Raw>) -> Result<Value, AllocError>
    requires formed { IfSome value (λ v. IsFormed 63 (value_view v)) }
    requires moment { moment ≤ 253402300799999 }
    ensures { IfOk result (λ v. v ≡ values.Whole (pos (timestamp moment (option_map value_view value.entry)))) }
{
    match value {
        Some(Raw::Number(literal)) => Ok(moment_value(moment_of(literal).unwrap_or(moment))),
        Some(Raw::Text(raw)) => {
            let seconds = said(alloc, raw)?;
            Ok(moment_value(moment_of(seconds.as_bytes()).unwrap_or(moment)))
        }
        _ => Ok(moment_value(moment)),
    }
}

#[tactic(auto, unfolding(crate::specs::Decoding::level))]
fn level(alloc: Global, value: Option<Raw>) -> Result<Value, AllocError>
    requires { IfSome value (λ v. IsFormed 63 (value_view v)) }
    ensures { IfOk result (λ v. v ≡ values.Whole (level (option_map value_view value.entry))) }
{
    match value {
        Some(Raw::Number(literal)) => Ok(Value::Whole(whole_in(literal).unwrap_or(1))),
        Some(Raw::Text(raw)) => {
            let number = said(alloc, raw)?;
            Ok(Value::Whole(whole_in(number.as_bytes()).unwrap_or(1)))
        }
        _ => Ok(Value::Whole(1)),
    }
}

fn plain_value(alloc: Global, bytes: &[u8]) -> Result<Option<Value>, AllocError>
    requires { IsUtf8 bytes.now }
    ensures { IfOk result (λ h. h ≡ Some (values.Text bytes.now)) }
{
    Ok(Some(Value::Text(plain_text(alloc, bytes)?)))
}

fn number_value(alloc: Global, literal: &[u8]) -> Result<Option<Value>, AllocError>
    requires { IsUtf8 literal.now }
    ensures { IfOk result (λ h. h ≡ Some (number_field literal.now (whole_of literal.now))) }
{
    match whole_of(literal) {
        Some(number) => Ok(Some(Value::Whole(number))),
        None => plain_value(alloc, literal),
    }
}

/// What a value gives: null gives nothing.
#[tactic(auto, unfolding(crate::specs::Decoding::held))]
fn held(alloc: Global, value: &Raw) -> Result<Option<Value>, AllocError>
    requires { IsFormed 63 (value_view value.now) }
    ensures { IfOk result (λ h. h ≡ held (value_view value.now)) }
{
    law_parts_are_utf8();
    match *value {
        Raw::Null => Ok(None),
        Raw::Text(raw) => Ok(Some(Value::Text(Text::from_string(said(alloc, raw)?)))),
        Raw::Number(literal) => number_value(alloc, literal),
        Raw::True => plain_value(alloc, b"true"),
        Raw::False => plain_value(alloc, b"false"),
        Raw::Object(text) => plain_value(alloc, text),
        Raw::Array(text) => plain_value(alloc, text),
    }
}

/// Sets a field whose name is lawful.
#[tactic(auto, unfolding(crate::specs::Parts::put_all))]
fn put(fields: &mut FieldMap, name: &str, value: Value) -> Result<(), DecodeFault>
    ensures { IsPut (put_all ((record { name = name.now; value = value }) ∷ []) fields.old) result fields.new }
{
    fields.set(name, value)?;
    Ok(())
}

/// Sets `full_message`, where it is a text.
#[tactic(auto, unfolding(crate::specs::Decoding::full_message, crate::specs::Parts::put_all))]
fn put_full_message(
    alloc: Global,
    fields: &mut FieldMap,
    value: Option<Raw>,
) -> Result<(), DecodeFault>
    requires { IfSome value (λ v. IsFormed 63 (value_view v)) }
    ensures { IsPut (put_all (full_message (option_map value_view value.entry)) fields.old) result fields.new }
{
    if let Some(Raw::Text(raw)) = value {
        let text = Text::from_string(said(alloc, raw)?);
        return put(fields, "full_message", Value::Text(text));
    }
    Ok(())
}

/// Sets two fields.
fn put_two(
    fields: &mut FieldMap,
    name: &str,
    value: Value,
    next_name: &str,
    next_value: Value,
) -> Result<(), DecodeFault>
    ensures { IsPut (put_all ((record { name = name.now; value = value }) ∷ (record { name = next_name.now; value = next_value }) ∷ []) fields.old) result fields.new }
{
    put(fields, name, value)?;
    put(fields, next_name, next_value)
}

/// Sets the fields that each message has.
fn put_values(
    fields: &mut FieldMap,
    message: Text,
    source: Text,
    timestamp: Value,
    level: Value,
) -> Result<(), DecodeFault>
    ensures { IsPut (put_all (text_field (codes "message") message ∷ text_field (codes "source") source ∷ (record { name = codes "timestamp"; value = timestamp }) ∷ (record { name = codes "level"; value = level }) ∷ []) fields.old) result fields.new }
{
    put_two(
        fields,
        "message",
        Value::Text(message),
        "source",
        Value::Text(source),
    )?;
    put_two(fields, "timestamp", timestamp, "level", level)
}

/// Sets the fields that a message names.
fn put_named(
    alloc: Global,
    fields: &mut FieldMap,
    moment: u64,
    peer: &str,
    message: Text,
    members: &[Named],
) -> Result<(), DecodeFault>
    requires formed { All (λ n. IsFormed 63 (value_view n.value)) members.now }
    requires moment { moment ≤ 253402300799999 }
    ensures { IsPut (put_all (named_fields moment peer.now message (map named_view members.now)) fields.old) result fields.new }
{
    let host = members::value_named(members, "host");
    let source = source(alloc, peer, host)?;
    let seconds = members::value_named(members, "timestamp");
    let timestamp = timestamp(alloc, moment, seconds)?;
    let level_given = members::value_named(members, "level");
    let level = level(alloc, level_given)?;
    let full_message = members::value_named(members, "full_message");
    put_values(fields, message, source, timestamp, level)?;
    put_full_message(alloc, fields, full_message)
}

fn is_named(name: &str) -> bool
    ensures { result ≡ is_named name.now }
{
    name == "short_message"
        || name == "host"
        || name == "timestamp"
        || name == "level"
        || name == "full_message"
        || name == "version"
}

fn is_reserved(name: &str) -> bool
    ensures { result ≡ is_reserved name.now }
{
    name == "id"
        || name == "message"
        || name == "source"
        || name == "timestamp"
        || name == "level"
        || name == "full_message"
}

/// A name without one underscore before it.
fn field_name(name: &str) -> &str
    ensures { result.now ≡ field_name name.now }
{
    match name.strip_prefix('_') {
        Some(rest) => rest,
        None => name,
    }
}

/// Sets a field, unless its name isn't lawful.
#[tactic(auto, unfolding(crate::specs::Parts::put_all))]
fn put_if_lawful(fields: &mut FieldMap, name: &str, value: Value) -> Result<(), DecodeFault>
    ensures lawful { is_field_name name.now ≡ true → IsPut (put_all ((record { name = name.now; value = value }) ∷ []) fields.old) result fields.new }
    ensures other { is_field_name name.now ≡ false → IsPut (Ok fields.old) result fields.new }
{
    match fields.set(name, value) {
        Ok(()) => Ok(()),
        Err(FieldRefusal::BadFieldName) => Ok(()),
        Err(refusal) => Err(DecodeFault::from(refusal)),
    }
}

/// Sets the field of an additional member.
#[tactic(auto, unfolding(crate::specs::Decoding::additional, crate::specs::Parts::put_all))]
fn put_additional(alloc: Global, fields: &mut FieldMap, member: &Named) -> Result<(), DecodeFault>
    requires { IsFormed 63 (value_view member.now.value) }
    ensures { IsPut (put_all (additional (named_view member.now)) fields.old) result fields.new }
{
    let name = member.name.as_str();
    let short = field_name(name);
    if is_named(name) || is_reserved(short) {
        return Ok(());
    }
    match held(alloc, &member.value)? {
        Some(value) => put_if_lawful(fields, short, value),
        None => Ok(()),
    }
}

/// Sets the field of an additional member that counts.
#[tactic(auto, unfolding(crate::specs::Parts::put_all))]
fn put_counted(
    alloc: Global,
    fields: &mut FieldMap,
    member: &Named,
    counts: bool,
) -> Result<(), DecodeFault>
    requires { IsFormed 63 (value_view member.now.value) }
    ensures { IsPut (put_all (if counts then additional (named_view member.now) else []) fields.old) result fields.new }
{
    if !counts {
        return Ok(());
    }
    put_additional(alloc, fields, member)
}

/// Sets the fields of the additional members that count.
fn put_all_additional(
    alloc: Global,
    fields: &mut FieldMap,
    members: &[Named],
    last: &[bool],
) -> Result<(), DecodeFault>
    requires formed { All (λ n. IsFormed 63 (value_view n.value)) members.now }
    requires last { last.now ≡ are_last (map named_view members.now) }
    ensures { IsPut (put_all (flat_map additional (counted (map named_view members.now))) fields.old) result fields.new }
{
    for i in 0..members.len() {
        put_counted(alloc, fields, &members[i], last[i])?;
    }
    Ok(())
}

/// The fields of a message with these members.
#[tactic(auto, unfolding(crate::specs::Decoding::fields_of))]
fn fields_of(
    alloc: Global,
    moment: u64,
    peer: &str,
    members: &[Named],
) -> Result<FieldMap, DecodeFault>
    requires formed { All (λ n. IsFormed 63 (value_view n.value)) members.now }
    requires moment { moment ≤ 253402300799999 }
    ensures { IsDecoded (fields_of moment peer.now (map named_view members.now)) result }
{
    let short = members::value_named(members, "short_message");
    let Some(message) = short_message(alloc, short)? else {
        return Err(DecodeFault::Undecodable(Cause::NoShortMessage));
    };
    let last = members::are_last(alloc, members)?;
    let mut fields = FieldMap::with_capacity(alloc, members.len().clamp(MIN_ROOM, MAX_ROOM))?;
    put_named(alloc, &mut fields, moment, peer, message, members)?;
    put_all_additional(alloc, &mut fields, members, last.as_slice())?;
    Ok(fields)
}

fn is_compressed(bytes: &[u8]) -> bool
    ensures { result ≡ is_compressed bytes.now }
{
    if bytes.len() < 2 {
        return false;
    }
    if bytes[0] == 0x1f {
        return bytes[1] == 0x8b;
    }
    bytes[0] == 0x78
        && (bytes[1] == 0x01 || bytes[1] == 0x5e || bytes[1] == 0x9c || bytes[1] == 0xda)
}

/// The fields of a message of these members.
fn of_members(
    alloc: Global,
    moment: u64,
    peer: &str,
    members: &[Member],
) -> Result<FieldMap, DecodeFault>
    requires formed { All (λ m. IsFormedPair 63 (pair_view m)) members.now }
    requires moment { moment ≤ 253402300799999 }
    ensures { IsDecoded (fields_of moment peer.now (map with_said_name (map pair_view members.now))) result }
{
    let named = members::with_said_names(alloc, members)?;
    fields_of(alloc, moment, peer, named.as_slice())
}

/// The cause of a text that isn't read.
fn refused(bytes: &[u8], refusal: JsonRefusal) -> Result<Cause, AllocError>
    requires short { length bytes.now < 2 ^ 32 }
    requires refused { IsRefusalOf refusal bytes.now }
    ensures { (moment : ℕ) (peer : List ℕ) → IfOk result (λ cause. of_object moment peer (object_of bytes.now) ≡ Err cause) }
{
    match refusal {
        JsonRefusal::NotJson { at } => Ok(Cause::NotJson { at: at as u32 }),
        JsonRefusal::TooDeep => Ok(Cause::TooDeep),
        JsonRefusal::OutOfMemory => Err(AllocError),
    }
}

/// The fields of a GELF payload (GELF 1.1) that came in at this moment, in milliseconds, from this
/// peer, or why it has none.
///
/// `short_message` becomes `message`, `host` the `source` (else the peer is), `timestamp`, in seconds,
/// a moment in milliseconds up to the end of the year 9999 (else it is the moment at which the payload
/// came in), `level` a whole number (else 1); `full_message` is kept where it is a string. Every other
/// member is kept without one underscore before its name. Of members of equal names the last counts.
#[tactic(auto, unfolding(crate::specs::Decoding::gelf_fields))]
pub fn decode_gelf(
    alloc: Global,
    moment: u64,
    peer: &str,
    bytes: &[u8],
) -> Result<Result<FieldMap, Cause>, AllocError>
    requires moment { moment ≤ 253402300799999 }
    requires short { length bytes.now < 2 ^ 32 }
    ensures { IfOk result (λ fields. fields ≡ gelf_fields moment peer.now bytes.now) }
{
    if is_compressed(bytes) {
        return Ok(Err(Cause::Compressed));
    }
    match read_object(alloc, bytes) {
        Ok(members) => match of_members(alloc, moment, peer, members.as_slice()) {
            Ok(fields) => Ok(Ok(fields)),
            Err(DecodeFault::Undecodable(cause)) => Ok(Err(cause)),
            Err(DecodeFault::OutOfMemory) => Err(AllocError),
        },
        Err(refusal) => Ok(Err(refused(bytes, refusal)?)),
    }
}
