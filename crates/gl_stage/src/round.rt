// The pipelines of a round.
ghost use Rattle.std.specs.Prelude.{◌≡◌, ◌==◌, ◌<◌, ℕ, length, map, fold, IfOk, OnOk};
ghost use Rattle.gl_fields.specs.Fields.{Rises};
ghost use Rattle.gl_streams.specs.Ids.{with_id, has_id};
ghost use Rattle.gl_stage.specs.Lent.{names_now, pipelines_now};
ghost use Rattle.gl_stage.specs.Books.{layout_of};
ghost use Rattle.gl_stage.specs.Rounds.{is_connected, is_due, with_pipeline, due, numbers_of};

use crate::names::{is_among, is_before, is_named};
use gl_base::{Items, Text};
use gl_rulelang::{Pipeline, Stage};
use gl_streams::ids::put;
use std::alloc::{AllocError, Global};

fn has_id(id: u64, ids: &[u64]) -> bool
    ensures { result ≡ has_id id ids.now }
{
    ids.iter().any(|other| *other == id)
}

// Whether a pipeline of this name is connected to one of these streams.
fn is_connected(connections: &[(u64, Items<Text>)], streams: &[u64], name: &Text) -> bool
    ensures { result ≡ is_connected connections.now streams.now name.now }
{
    connections
        .iter()
        .any(|c| has_id(c.0, streams) && is_named(c.1.as_slice(), name))
}

// Whether a pipeline is connected to one of these streams and hasn't run.
fn is_due(
    connections: &[(u64, Items<Text>)],
    ran: &[&Text],
    streams: &[u64],
    pipeline: &Pipeline,
) -> bool
    ensures { result ≡ is_due connections.now (names_now ran.now) streams.now pipeline.now }
{
    !is_among(ran, &pipeline.name) && is_connected(connections, streams, &pipeline.name)
}

// Pipelines by rising name, with one more.
fn with_pipeline<'a>(
    alloc: Global,
    round: &[&'a Pipeline],
    pipeline: &'a Pipeline,
) -> Result<Vec<&'a Pipeline>, AllocError>
    ensures { IfOk result (λ wider. pipelines_now wider.items ≡ with_pipeline (pipelines_now round.now) pipeline.now) }
{
    let mut wider: Vec<&'a Pipeline> = Vec::new(alloc);
    for other in round {
        if is_before(&other.name, &pipeline.name) {
            wider.push(*other)?;
        }
    }
    wider.push(pipeline)?;
    for later in round {
        if is_before(&pipeline.name, &later.name) {
            wider.push(*later)?;
        }
    }
    Ok(wider)
}

// The pipelines of the next round, by rising name.
pub(crate) fn due<'a>(
    alloc: Global,
    pipelines: &'a [Pipeline],
    connections: &[(u64, Items<Text>)],
    ran: &[&Text],
    streams: &[u64],
) -> Result<Vec<&'a Pipeline>, AllocError>
    ensures { IfOk result (λ round. pipelines_now round.items ≡ due (layout_of pipelines.now connections.now) (names_now ran.now) streams.now) }
{
    let mut round: Vec<&'a Pipeline> = Vec::new(alloc);
    for pipeline in pipelines {
        if is_due(connections, ran, streams, pipeline) {
            round = with_pipeline(alloc, round.as_slice(), pipeline)?;
        }
    }
    Ok(round)
}

// Whether there is no pipeline for a further round.
pub(crate) fn is_none(round: &[&Pipeline]) -> bool
    ensures { result ≡ (length (pipelines_now round.now) == 0) }
{
    round.is_empty()
}

// Puts the numbers of these stages in where they stand in rising order.
fn put_numbers(numbers: &mut Vec<u64>, stages: &[Stage]) -> Result<(), AllocError>
    requires { Rises (λ (a b : ℕ). a < b) numbers.old.items }
    ensures { OnOk result (numbers.new.items ≡ fold with_id numbers.old.items (map (λ stage. stage.number) stages.now)) }
{
    for stage in stages {
        put(numbers, u64::from(stage.number))?;
    }
    Ok(())
}

// The numbers of the stages of these pipelines, in rising order.
pub(crate) fn numbers_of(alloc: Global, round: &[&Pipeline]) -> Result<Vec<u64>, AllocError>
    ensures { IfOk result (λ numbers. numbers.items ≡ numbers_of (pipelines_now round.now)) }
{
    let mut numbers = Vec::new(alloc);
    for pipeline in round {
        put_numbers(&mut numbers, pipeline.stages.as_slice())?;
    }
    Ok(numbers)
}
