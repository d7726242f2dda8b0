// Where its pipelines take the message whose fields were put down last, out of the streams that a row names.
ghost use Rattle.std.specs.Prelude.{◌≡◌, IfOk, OnOk};
ghost use Rattle.std.specs.List.{All};
ghost use Rattle.gl_stage.specs.Books.{Fits};

use crate::built::built;
use crate::desk::Desk;
use crate::lawful::lawful;
use crate::shown::push_state;
use crate::world::{streams, tables};
use gl_base::{Items, Text};
use gl_check::Checked;
use gl_eval::{RulePatterns, Staged};
use gl_functions::World;
use gl_rows::{Row, fields_of};
use gl_rulelang::{Pipeline, read_pipeline};
use gl_stage::{RuleBook, run_pipelines};
use std::alloc::{AllocError, Global};

/// Texts of rules, pipelines, and the names of those that are connected to each stream.
#[derive(Drop)]
pub struct Pipelines {
    rules: Vec<String>,
    pipelines: Vec<Pipeline>,
    connections: Vec<(u64, Items<Text>)>,
}

impl Pipelines {
    pub fn new(alloc: Global) -> Pipelines {
        Pipelines {
            rules: Vec::new(alloc),
            pipelines: Vec::new(alloc),
            connections: Vec::new(alloc),
        }
    }
}

pub fn answer(
    alloc: Global,
    row: &Row,
    desk: &mut Desk,
    out: &mut String,
) -> Result<(), AllocError> {
    match row.text(0) {
        "new" => {
            desk.pipelines = Pipelines::new(alloc);
            Ok(())
        }
        "rule" => rule(alloc, row.text(1), &mut desk.pipelines, out),
        "pipeline" => pipeline(alloc, row.text(1), &mut desk.pipelines, out),
        "connect" => connect(alloc, row, &mut desk.pipelines),
        "fields" => {
            desk.fields = fields_of(alloc, row, out)?;
            Ok(())
        }
        "runs" => runs(alloc, row, desk, out),
        _ => out.push_str("no such subject"),
    }
}

/// One rule more.
fn rule(
    alloc: Global,
    text: &str,
    given: &mut Pipelines,
    out: &mut String,
) -> Result<(), AllocError> {
    if lawful(alloc, text)?.is_none() {
        return out.push_str("no lawful rule");
    }
    given.rules.push(String::from_str(alloc, text)?)?;
    Ok(())
}

/// One pipeline more.
fn pipeline(
    alloc: Global,
    text: &str,
    given: &mut Pipelines,
    out: &mut String,
) -> Result<(), AllocError> {
    match read_pipeline(alloc, text) {
        Ok(pipeline) => {
            given.pipelines.push(pipeline)?;
            Ok(())
        }
        Err(_) => out.push_str("no pipeline"),
    }
}

/// Connects pipelines to a stream.
fn connect(alloc: Global, row: &Row, given: &mut Pipelines) -> Result<(), AllocError> {
    let mut names = Items::new(alloc);
    for index in 2..row.len() {
        names.push(Text::from_str(alloc, row.text(index))?)?;
    }
    given.connections.push((row.number(1), names))?;
    Ok(())
}

/// One rule more, with its patterns.
fn put(
    alloc: Global,
    rule: Checked,
    rules: &mut Vec<(Checked, RulePatterns)>,
) -> Result<(), AllocError>
    requires { All Fits rules.old.items }
    ensures { OnOk result (All Fits rules.new.items) }
{
    let patterns = built(alloc, &rule)?;
    rules.push((rule, patterns))?;
    Ok(())
}

/// The rules of these texts with their patterns.
fn book(alloc: Global, texts: &[String]) -> Result<RuleBook, AllocError>
    ensures { IfOk result (λ rules. All Fits rules) }
{
    let mut rules = Vec::new(alloc);
    for text in texts {
        if let Some(rule) = lawful(alloc, text.as_str())? {
            put(alloc, rule, &mut rules)?;
        }
    }
    Ok(RuleBook::new(rules))
}

/// The message at the front, in the streams that the row names.
fn message(alloc: Global, row: &Row, desk: &Desk) -> Result<Staged, AllocError> {
    let mut streams = Items::new(alloc);
    for index in 1..row.len() {
        streams.push(row.number(index))?;
    }
    Ok(Staged {
        fields: desk.fields.copy()?,
        streams,
        dropped: false,
    })
}

/// The message's fields and streams behind its pipelines.
fn runs(alloc: Global, row: &Row, desk: &Desk, out: &mut String) -> Result<(), AllocError> {
    let given = &desk.pipelines;
    let mut rules = book(alloc, given.rules.as_slice())?;
    let (streams, tables) = (streams(alloc)?, tables(alloc)?);
    let world = World {
        streams: streams.as_slice(),
        lookups: &tables,
    };
    let state = run_pipelines(
        alloc,
        message(alloc, row, desk)?,
        &mut rules,
        given.pipelines.as_slice(),
        given.connections.as_slice(),
        &world,
    )?;
    if state.dropped {
        return out.push_str("dropped");
    }
    push_state(out, &state)
}
