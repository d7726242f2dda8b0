// What the messages of a row become, staged as one range.
ghost use Rattle.std.specs.Prelude.{◌≡◌, IfOk, IfSome, OnOk, OnErr};
ghost use Rattle.std.specs.List.{All};
ghost use Rattle.gl_outcome.specs.Staging.{IsStageable, IsStageableEntry};

use crate::compilable::is_compilable;
use crate::lawful::lawful;
use gl_base::{Items, Joint};
use gl_config::Config;
use gl_fields::{Cause, Entry, Message, Outcome};
use gl_patterns::{PatternShop, RegexShop};
use gl_process::{Compiled, Range, StageFault, compile, stage_range};
use gl_rows::{Row, push_bytes, push_fields, push_word};
use std::alloc::{AllocError, Global};
use std::fmt::Write;

/// Who sends each message.
const PEER: &str = "10.0.0.7";

/// The second word of the row is the input, the third the peer's port, and each further one a payload.
pub fn answer(
    alloc: Global,
    row: &Row,
    config: &Config,
    out: &mut String,
) -> Result<(), AllocError> {
    let Some(entries) = entries(alloc, row, config)? else {
        return out.push_str("no lawful message");
    };
    if !is_compilable(alloc, config)? {
        return out.push_str("not compilable");
    }
    let mut shop = RegexShop::new(alloc);
    match compile(alloc, config, &mut shop) {
        Ok(compiled) => stage(alloc, config, entries, compiled, out),
        Err(StageFault::OutOfMemory) => Err(AllocError),
        Err(StageFault::PatternFault) => {
            out.push_str("refused ")?;
            push_bytes(out, shop.refused().as_bytes())
        }
    }
}

/// Puts a message behind the entries.
fn put(
    alloc: Global,
    config: &Config,
    message: Message,
    entries: &mut Items<Joint<Entry>>,
) -> Result<(), AllocError>
    requires message { IsStageable config.now message }
    requires entries { All (IsStageableEntry config.now) entries.old }
    ensures { OnOk result (All (IsStageableEntry config.now) entries.new) }
{
    entries.push(Joint::new(alloc, Entry::Message(message))?)?;
    Ok(())
}

/// The messages of a row; `None` where one isn't lawful.
fn entries(
    alloc: Global,
    row: &Row,
    config: &Config,
) -> Result<Option<Items<Joint<Entry>>>, AllocError>
    ensures { IfOk result (λ found. IfSome found (λ entries. All (IsStageableEntry config.now) entries)) }
{
    let mut entries = Items::new(alloc);
    let port = u16::try_from(row.number(2)).unwrap_or(0);
    for index in 3..row.len() {
        match lawful(alloc, config, row.text(1), PEER, port, row.bytes(index))? {
            Some(message) => put(alloc, config, message, &mut entries)?,
            None => return Ok(None),
        }
    }
    Ok(Some(entries))
}

fn stage(
    alloc: Global,
    config: &Config,
    entries: Items<Joint<Entry>>,
    mut compiled: Compiled,
    out: &mut String,
) -> Result<(), AllocError>
    requires fits { compiled ≡ config.now }
    requires entries { All (IsStageableEntry config.now) entries }
{
    let range = Range {
        first: 0,
        config: config.copy()?,
        entries,
    };
    match stage_range(alloc, range, &mut compiled) {
        Ok(work) => push_outcomes(out, work.outcomes()),
        Err(_) => Err(AllocError),
    }
}

fn push_outcomes(out: &mut String, outcomes: &[Outcome]) -> Result<(), AllocError> {
    for (index, outcome) in outcomes.iter().enumerate() {
        if index > 0 {
            out.push('\n')?;
        }
        push_outcome(out, outcome)?;
    }
    Ok(())
}

/// The fields of a stored message and the ids of its streams, or what else became of it.
fn push_outcome(out: &mut String, outcome: &Outcome) -> Result<(), AllocError> {
    match outcome {
        Outcome::Applied => out.push_str("applied"),
        Outcome::Dropped => out.push_str("dropped"),
        Outcome::Undecodable(cause) => push_cause(out, *cause),
        Outcome::Stored { streams, fields } => {
            push_fields(out, fields.get())?;
            for id in streams.get().as_slice() {
                write!(out, " {id}")?;
            }
            Ok(())
        }
    }
}

fn push_cause(out: &mut String, cause: Cause) -> Result<(), AllocError> {
    match cause {
        Cause::NotJson { at } => push_word(out, "not-json", u64::from(at)),
        Cause::TooDeep => out.push_str("too-deep"),
        Cause::Compressed => out.push_str("compressed"),
        Cause::NoShortMessage => out.push_str("no-short-message"),
        Cause::TooManyFields => out.push_str("too-many-fields"),
        Cause::TooLarge => out.push_str("too-large"),
    }
}
