// The lines that a session writes.
ghost use Rattle.std.specs.Prelude.{◌≡◌, ℕ, ◌<◌, ◌==◌, ◌++◌, ◌∷◌, [], map, true, if◌then◌else◌, codes, IfOk, OnOk};
ghost use Rattle.std.specs.List.{join_with_byte};
ghost use Rattle.std.specs.String.{string_bytes};
ghost use Rattle.std.specs.Fmt.{decimal, digit_glyph};
ghost use Rattle.percent_encoding.specs.Percent.{percent_encode_byte};
ghost use Rattle.gl_node.specs.State.{State};
ghost use Rattle.gl_node.specs.Claims.{claim_answer, FinishAnswer};
ghost use Rattle.gl_node.specs.Calls.{claimed_of, finished_of};
ghost use Rattle.gl_cli.specs.Answers.{words_text, arrival_words, claim_words, finish_words, outcome_words, cause_words, field_text, fields_text, id_text, escaped};
ghost use Rattle.gl_cli.specs.Answers as answers;

use gl_fields::{Cause, Field, Outcome, Value};
use gl_node::{Arrival, Claimed, Finished};
use std::alloc::{AllocError, Global};

/// The answer line of an arrival.
pub fn arrival_text(alloc: Global, arrival: &Arrival) -> Result<String, AllocError>
    ensures { IfOk result (λ text. string_bytes text ≡ words_text (arrival_words arrival.now)) }
{
    match arrival {
        Arrival::Journalled { position } => format!(in alloc; "journalled {position}\n"),
        Arrival::Empty => format!(in alloc; "empty\n"),
        Arrival::Held => format!(in alloc; "held\n"),
        Arrival::Repeat => format!(in alloc; "repeat\n"),
        Arrival::BadChunk => format!(in alloc; "bad-chunk\n"),
        Arrival::CountMismatch { kept, given } => format!(in alloc;
            "count-mismatch {kept} {given}\n"
        ),
        Arrival::ChunkTableFull => format!(in alloc; "chunk-table-full\n"),
        Arrival::FrameTooLong => format!(in alloc; "frame-too-long\n"),
        Arrival::UnknownInput => format!(in alloc; "unknown-input\n"),
        Arrival::JournalFull { bytes, limit } => format!(in alloc;
            "journal-full {bytes} {limit}\n"
        ),
    }
}

/// The answer line of a claim.
pub fn claim_text(alloc: Global, worker: u32, claimed: &Claimed) -> Result<String, AllocError>
    ensures { IfOk result (λ text. (s : State) (limit : ℕ) → claimed.now ≡ claimed_of s (claim_answer s worker limit)
        → string_bytes text ≡ words_text (claim_words worker (claim_answer s worker limit))) }
{
    match claimed {
        Claimed::Range(range) => {
            let end = u128::from(range.first) + range.entries.len() as u128;
            range_text(alloc, worker, range.first, end)
        }
        Claimed::Nothing => format!(in alloc; "nothing\n"),
        Claimed::Busy(mark) => {
            let end = u128::from(mark.first) + u128::from(mark.count);
            busy_text(alloc, mark.first, end)
        }
    }
}

/// The answer line of a claim that gave a range. A `u128` is wide enough for the end of every range.
fn range_text(alloc: Global, worker: u32, first: u64, end: u128) -> Result<String, AllocError>
    ensures { IfOk result (λ text. string_bytes text ≡ words_text (codes "claimed" ∷ decimal worker ∷ decimal first ∷ decimal end ∷ [])) }
{
    format!(in alloc; "claimed {worker} {first} {end}\n")
}

/// The answer line of a claim by a worker that holds a range.
fn busy_text(alloc: Global, first: u64, end: u128) -> Result<String, AllocError>
    ensures { IfOk result (λ text. string_bytes text ≡ words_text (codes "busy" ∷ decimal first ∷ decimal end ∷ [])) }
{
    format!(in alloc; "busy {first} {end}\n")
}

/// The answer line of a finish. `Stale` never comes in a session.
pub fn finish_text(alloc: Global, finished: &Finished) -> Result<String, AllocError>
    ensures { IfOk result (λ text. (answer : FinishAnswer) → finished.now ≡ finished_of answer → string_bytes text ≡ words_text (finish_words answer)) }
{
    match finished {
        Finished::Committed(count) => format!(in alloc; "committed {count}\n"),
        Finished::Kept(count) => format!(in alloc; "kept {count}\n"),
        Finished::NoClaim => format!(in alloc; "no-claim\n"),
        Finished::Stale { .. } => format!(in alloc; "stale\n"),
        Finished::IndexFull { bytes, limit } => format!(in alloc; "index-full {bytes} {limit}\n"),
    }
}

/// The first line of a list.
pub fn head_text(alloc: Global, journalled: u64, committed: u64) -> Result<String, AllocError>
    ensures { IfOk result (λ text. string_bytes text ≡ words_text (codes "journal" ∷ decimal journalled ∷ codes "committed" ∷ decimal committed ∷ [])) }
{
    format!(in alloc; "journal {journalled} committed {committed}\n")
}

/// The last line of a session.
pub fn done_text(alloc: Global, journalled: u64, committed: u64) -> Result<String, AllocError>
    ensures { IfOk result (λ text. string_bytes text ≡ words_text (codes "done" ∷ decimal journalled ∷ decimal committed ∷ [])) }
{
    format!(in alloc; "done {journalled} {committed}\n")
}

/// The line of `check`.
pub fn check_text(
    alloc: Global,
    journalled: u64,
    committed: u64,
    version: u64,
) -> Result<String, AllocError>
    ensures { IfOk result (λ text. string_bytes text ≡ words_text (codes "check" ∷ codes "journal" ∷ decimal journalled ∷ codes "committed" ∷ decimal committed ∷ codes "version" ∷ decimal version ∷ [])) }
{
    format!(in alloc; "check journal {journalled} committed {committed} version {version}\n")
}

/// The line of an entry in a list.
pub fn listed_text(alloc: Global, position: u64, outcome: &Outcome) -> Result<Vec<u8>, AllocError>
    ensures { IfOk result (λ text. text.items ≡ words_text (decimal position ∷ outcome_words outcome.now)) }
{
    match outcome {
        Outcome::Applied => Ok(format!(in alloc; "{position} applied\n")?.into_bytes()),
        Outcome::Stored { streams, fields } => stored_text(
            alloc,
            position,
            streams.get().as_slice(),
            fields.get().as_slice(),
        ),
        Outcome::Dropped => Ok(format!(in alloc; "{position} dropped\n")?.into_bytes()),
        Outcome::Undecodable(cause) => Ok(undecodable_text(alloc, position, cause)?.into_bytes()),
    }
}

/// The line of an entry that can't be decoded.
fn undecodable_text(alloc: Global, position: u64, cause: &Cause) -> Result<String, AllocError>
    ensures { IfOk result (λ text. string_bytes text ≡ words_text (decimal position ∷ codes "undecodable" ∷ cause_words cause.now)) }
{
    match cause {
        Cause::NotJson { at } => format!(in alloc; "{position} undecodable not-json {at}\n"),
        Cause::TooDeep => format!(in alloc; "{position} undecodable too-deep\n"),
        Cause::Compressed => format!(in alloc; "{position} undecodable compressed\n"),
        Cause::NoShortMessage => format!(in alloc; "{position} undecodable no-short-message\n"),
        Cause::TooManyFields => format!(in alloc; "{position} undecodable too-many-fields\n"),
        Cause::TooLarge => format!(in alloc; "{position} undecodable too-large\n"),
    }
}

/// The line of an entry that was stored.
fn stored_text(
    alloc: Global,
    position: u64,
    streams: &[u64],
    fields: &[Field],
) -> Result<Vec<u8>, AllocError>
    ensures { IfOk result (λ text. text.items ≡ words_text (decimal position ∷ codes "stored" ∷ join_with_byte 44 (map id_text streams.now) ∷ fields_text fields.now ∷ [])) }
{
    let mut out = format!(in alloc; "{position} stored ")?.into_bytes();
    push_ids(alloc, &mut out, streams)?;
    out.push(b' ')?;
    push_fields(alloc, &mut out, fields)?;
    out.push(b'\n')?;
    Ok(out)
}

/// Puts the ids of streams behind a text.
fn push_ids(alloc: Global, out: &mut Vec<u8>, streams: &[u64]) -> Result<(), AllocError>
    ensures { OnOk result (out.new.items ≡ out.old.items ++ join_with_byte 44 (map id_text streams.now)) }
{
    for (i, stream) in streams.iter().enumerate() {
        push_between(out, i, b',')?;
        push_id(alloc, out, *stream)?;
    }
    Ok(())
}

/// Puts fields behind a text.
fn push_fields(alloc: Global, out: &mut Vec<u8>, fields: &[Field]) -> Result<(), AllocError>
    ensures { OnOk result (out.new.items ≡ out.old.items ++ fields_text fields.now) }
{
    for (i, field) in fields.iter().enumerate() {
        push_between(out, i, b'&')?;
        push_field(alloc, out, field)?;
    }
    Ok(())
}

/// Puts a separator behind a text, but before the first of a list.
fn push_between(out: &mut Vec<u8>, index: usize, separator: u8) -> Result<(), AllocError>
    ensures { OnOk result (out.new.items ≡ out.old.items ++ (if index == 0 then [] else separator ∷ [])) }
{
    if index > 0 {
        out.push(separator)?;
    }
    Ok(())
}

/// Puts the id of a stream behind a text.
fn push_id(alloc: Global, out: &mut Vec<u8>, id: u64) -> Result<(), AllocError>
    ensures { OnOk result (out.new.items ≡ out.old.items ++ id_text id) }
{
    let text = format!(in alloc; "{id:024x}")?;
    out.extend_from_slice(text.as_bytes())
}

/// Puts a field behind a text.
fn push_field(alloc: Global, out: &mut Vec<u8>, field: &Field) -> Result<(), AllocError>
    ensures { OnOk result (out.new.items ≡ out.old.items ++ field_text field.now.name field.now.value) }
{
    out.extend_from_slice(field.name.as_str().as_bytes())?;
    match &field.value {
        Value::Text(text) => {
            out.push(b'=')?;
            push_escaped(out, text.as_str().as_bytes())
        }
        Value::Whole(number) => {
            let text = format!(in alloc; ":{number}")?;
            out.extend_from_slice(text.as_bytes())
        }
    }
}

/// Whether a byte stands for itself.
fn is_plain(b: u8) -> bool
    ensures { result ≡ answers.is_plain b }
{
    (33..=126).contains(&b) && !(b == b'%' || b == b'&')
}

/// Puts a byte behind a text, escaped where it has to be.
#[tactic(auto, unfolding(percent_encoding::specs::Percent::percent_encode_byte))]
fn push_byte(out: &mut Vec<u8>, b: u8) -> Result<(), AllocError>
    ensures { OnOk result (out.new.items ≡ out.old.items ++ (if answers.is_plain b then b ∷ [] else percent_encode_byte b)) }
{
    if is_plain(b) {
        out.push(b)?;
    } else {
        out.push(b'%')?;
        out.push(hex_digit(b / 16))?;
        out.push(hex_digit(b % 16))?;
    }
    Ok(())
}

/// Puts a text behind another, its bytes escaped.
fn push_escaped(out: &mut Vec<u8>, text: &[u8]) -> Result<(), AllocError>
    ensures { OnOk result (out.new.items ≡ out.old.items ++ escaped text.now) }
{
    for b in text {
        push_byte(out, *b)?;
    }
    Ok(())
}

fn hex_digit(digit: u8) -> u8
    requires { digit < 16 }
    ensures { result ≡ digit_glyph true digit }
{
    if digit < 10 {
        b'0' + digit
    } else {
        b'A' + (digit - 10)
    }
}
