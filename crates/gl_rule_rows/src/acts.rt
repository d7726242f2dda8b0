// Rules at work on the message whose fields were put down last, in the streams 1 and 26.

use crate::built::built;
use crate::desk::Desk;
use crate::lawful::lawful;
use crate::shown::push_state;
use crate::world::{streams, tables};
use gl_base::Items;
use gl_check::Checked;
use gl_eval::{Staged, act, holds};
use gl_fields::{FieldMap, Value};
use gl_functions::World;
use gl_rows::{Row, fields_of, push_bytes, push_truth};
use std::alloc::{AllocError, Global};
use std::fmt::Write;

pub fn answer(
    alloc: Global,
    row: &Row,
    desk: &mut Desk,
    out: &mut String,
) -> Result<(), AllocError> {
    match row.text(0) {
        "fields" => {
            desk.fields = fields_of(alloc, row, out)?;
            Ok(())
        }
        "when" => when(alloc, row.text(1), &desk.fields, out),
        "gives" => gives(alloc, row.text(1), &desk.fields, out),
        "does" => does(alloc, row.text(1), &desk.fields, out),
        _ => out.push_str("no such subject"),
    }
}

/// The rule of this text behind its name, checked; none where there is none.
fn rule(
    alloc: Global,
    before: &str,
    middle: &str,
    behind: &str,
) -> Result<Option<Checked>, AllocError> {
    let mut text = String::from_str(alloc, "rule \"x\" ")?;
    text.push_str(before)?;
    text.push_str(middle)?;
    text.push_str(behind)?;
    lawful(alloc, text.as_str())
}

fn message(alloc: Global, fields: &FieldMap) -> Result<Staged, AllocError> {
    let mut streams = Items::new(alloc);
    streams.push(1)?;
    streams.push(26)?;
    Ok(Staged {
        fields: fields.copy()?,
        streams,
        dropped: false,
    })
}

/// Whether a condition holds.
fn when(alloc: Global, text: &str, fields: &FieldMap, out: &mut String) -> Result<(), AllocError> {
    let Some(rule) = rule(alloc, "when ", text, " then end")? else {
        return out.push_str("no lawful rule");
    };
    let (streams, tables) = (streams(alloc)?, tables(alloc)?);
    let world = World {
        streams: streams.as_slice(),
        lookups: &tables,
    };
    let mut patterns = built(alloc, &rule)?;
    let of = message(alloc, fields)?;
    let yes = holds(
        alloc,
        &rule,
        &mut patterns,
        &world,
        &of.fields,
        of.streams.as_slice(),
    )?;
    push_truth(out, yes)
}

/// The message behind a rule's actions.
fn acted(alloc: Global, rule: &Checked, fields: &FieldMap) -> Result<Staged, AllocError> {
    let (streams, tables) = (streams(alloc)?, tables(alloc)?);
    let world = World {
        streams: streams.as_slice(),
        lookups: &tables,
    };
    let mut patterns = built(alloc, rule)?;
    let mut state = message(alloc, fields)?;
    act(alloc, rule, &mut patterns, &world, &mut state)?;
    Ok(state)
}

/// What an expression gives, set in a field.
fn gives(alloc: Global, text: &str, fields: &FieldMap, out: &mut String) -> Result<(), AllocError> {
    let Some(rule) = rule(alloc, "when true then set_field(\"v\", ", text, "); end")? else {
        return out.push_str("no lawful rule");
    };
    let state = acted(alloc, &rule, fields)?;
    match state.fields.get("v") {
        Some(Value::Text(text)) => {
            out.push_str("text ")?;
            push_bytes(out, text.as_str().as_bytes())
        }
        Some(Value::Whole(number)) => write!(out, "whole {number}"),
        None => out.push_str("missing"),
    }
}

/// The fields and streams behind actions.
fn does(alloc: Global, text: &str, fields: &FieldMap, out: &mut String) -> Result<(), AllocError> {
    let Some(rule) = rule(alloc, "when true then ", text, " end")? else {
        return out.push_str("no lawful rule");
    };
    let state = acted(alloc, &rule, fields)?;
    push_state(out, &state)?;
    if state.dropped {
        out.push_str(" dropped")?;
    }
    Ok(())
}
