// The way of one message.
ghost use Rattle.std.specs.Prelude.{◌≡◌, ◌<◌, length, slice_get, IfOk, OnOk, Some};
ghost use Rattle.gl_fields.specs.Bounds.{IsOutcome};
ghost use Rattle.gl_functions.specs.Worlds.{known_of};
ghost use Rattle.gl_stage.specs.Rounds.{end_of, run_end};
ghost use Rattle.gl_stage.specs.Books.{layout_of};
ghost use Rattle.gl_settings.specs.declared.input.Input.{Input};
ghost use Rattle.gl_building.specs.Places.{extracted_all};
ghost use Rattle.gl_outcome.specs.Bounded.{HasMap};
ghost use Rattle.gl_outcome.specs.Compiling.{IsBuiltOf};
ghost use Rattle.gl_outcome.specs.Outcomes.{world_of, scene_under, matched, message_under};
ghost use Rattle.gl_outcome.specs.Staging.{IsStageable};

use crate::compiled::BuiltParts;
use gl_base::{Items, Joint};
use gl_building::{extract, place_of};
use gl_decoding::decode;
use gl_eval::Staged;
use gl_fields::{FieldMap, Message, Outcome};
use gl_functions::World;
use gl_settings::Parts;
use gl_stage::run_pipelines;
use gl_streams::{law_streams_rise, streams_of};
use std::alloc::{AllocError, Global};

fn world_of(parts: &Parts) -> World<'_>
    ensures { known_of result ≡ world_of parts.now }
{
    World {
        streams: parts.streams(),
        lookups: parts.lookups(),
    }
}

// How a message has ended.
fn ended(alloc: Global, last: Staged) -> Result<Outcome, AllocError>
    ensures value { IfOk result (λ outcome. outcome ≡ end_of last) }
    ensures map { IfOk result HasMap }
{
    if last.dropped {
        return Ok(Outcome::Dropped);
    }
    // Each map is within the bounds of one, as its length says.
    let _ = last.fields.len();
    let streams = Joint::new(alloc, last.streams)?;
    let fields = Joint::new(alloc, last.fields)?;
    Ok(Outcome::Stored { streams, fields })
}

// What becomes of these fields behind the extractors: into the streams that match, and through their pipelines.
fn route(alloc: Global, built: &mut BuiltParts, fields: FieldMap) -> Result<Outcome, AllocError>
    requires { IsBuiltOf built.old.parts built.old }
    ensures value { IfOk result (λ outcome. outcome ≡ run_end (scene_under built.old.parts) (layout_of built.old.parts.pipelines built.old.parts.connections) (matched built.old.parts fields)) }
    ensures bounded { IfOk result IsOutcome }
    ensures same { built.new ≡ built.old }
{
    law_streams_rise();
    let streams = streams_of(alloc, built.parts.streams(), &mut built.streams, &fields)?;
    let message = Staged {
        fields,
        streams: Items::from_vec(streams),
        dropped: false,
    };
    let last = run_pipelines(
        alloc,
        message,
        &mut built.rules,
        built.parts.pipelines(),
        built.parts.connections(),
        &world_of(&built.parts),
    )?;
    ended(alloc, last)
}

// What becomes of the decoded fields of a message that came to the input at this place.
fn process(
    alloc: Global,
    built: &mut BuiltParts,
    place: usize,
    mut fields: FieldMap,
) -> Result<Outcome, AllocError>
    requires built { IsBuiltOf built.old.parts built.old }
    requires within { place < length built.old.parts.inputs }
    ensures value { IfOk result (λ outcome. (input : Input) → slice_get built.old.parts.inputs place ≡ Some input
        → outcome ≡ run_end (scene_under built.old.parts) (layout_of built.old.parts.pipelines built.old.parts.connections)
        (matched built.old.parts (extracted_all built.old.parts.groks input.extractors fields))) }
    ensures bounded { IfOk result IsOutcome }
    ensures same { built.new ≡ built.old }
{
    extract(
        alloc,
        built.parts.inputs(),
        place,
        &mut built.extractors,
        &mut fields,
    )?;
    route(alloc, built, fields)
}

/// What a message becomes under the configuration that was built.
pub(crate) fn stage(
    alloc: Global,
    built: &mut BuiltParts,
    message: &Message,
) -> Result<Outcome, AllocError>
    requires built { IsBuiltOf built.old.parts built.old }
    requires message { IsStageable built.old.parts message.now }
    ensures value { IfOk result (λ outcome. outcome ≡ message_under built.old.parts message.now) }
    ensures bounded { IfOk result IsOutcome }
    ensures same { built.new ≡ built.old }
{
    let Some(place) = place_of(built.parts.inputs(), message.input.as_str()) else {
        unreachable!()
    };
    let kind = built.parts.inputs()[place].kind;
    match decode(alloc, kind, message)? {
        Ok(fields) => process(alloc, built, place, fields),
        Err(cause) => Ok(Outcome::Undecodable(cause)),
    }
}
