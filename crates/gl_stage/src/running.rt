ghost use Rattle.std.specs.Prelude.{◌≡◌, ◌<◌, length, IfOk, ℕ};
ghost use Rattle.std.specs.List.{All};
ghost use Rattle.gl_fields.specs.Fields.{Rises};
ghost use Rattle.gl_functions.specs.Worlds.{known_of};
ghost use Rattle.gl_stage.specs.Books.{Fits, scene_of, layout_of};
ghost use Rattle.gl_stage.specs.Lent.{pipelines_now};
ghost use Rattle.gl_stage.specs.Rounds.{RunsTo, begun, end_of, run_end, behind_round, IsEnd};

use crate::book::RuleBook;
use crate::moving::Moving;
use crate::names::push_names;
use crate::round::{due, is_none, numbers_of};
use crate::stage::at_number;
use gl_base::{Items, Text};
use gl_check::Checked;
use gl_eval::{RulePatterns, Staged};
use gl_functions::World;
use gl_rulelang::Pipeline;
use std::alloc::{AllocError, Global};

// Takes a message through a round of these pipelines.
fn go_through(
    alloc: Global,
    round: &[&Pipeline],
    message: Staged,
    rules: &mut [(Checked, RulePatterns)],
    world: &World<'_>,
) -> Result<Staged, AllocError>
    requires { All Fits rules.old }
    ensures value { IfOk result (λ m. m ≡ behind_round (scene_of (known_of world.now) rules.old) (pipelines_now round.now) message) }
    ensures same { rules.new ≡ rules.old }
{
    let numbers = numbers_of(alloc, round)?;
    let mut moving = Moving {
        message,
        stopped: Vec::new(alloc),
    };
    for n in numbers.as_slice() {
        if moving.message.dropped {
            return Ok(moving.message);
        }
        at_number(alloc, *n, round, &mut moving, rules, world)?;
    }
    Ok(moving.message)
}

// Takes a message through rounds for as long as there are pipelines for it.
fn run(
    alloc: Global,
    state: Staged,
    rules: &mut [(Checked, RulePatterns)],
    pipelines: &[Pipeline],
    connections: &[(u64, Items<Text>)],
    world: &World<'_>,
) -> Result<Staged, AllocError>
    requires { All Fits rules.old }
    ensures value { IfOk result (λ last. end_of last ≡ run_end (scene_of (known_of world.now) rules.old) (layout_of pipelines.now connections.now) state) }
    ensures same { rules.new ≡ rules.old }
{
    let mut message = state;
    let mut ran = Vec::new(alloc);
    let turns = pipelines.len() + 1;
    for turn in 0..turns {
        if message.dropped {
            return Ok(message);
        }
        let round = due(
            alloc,
            pipelines,
            connections,
            ran.as_slice(),
            message.streams.as_slice(),
        )?;
        if is_none(round.as_slice()) {
            return Ok(message);
        }
        push_names(&mut ran, round.as_slice())?;
        message = go_through(alloc, round.as_slice(), message, rules, world)?;
    }
    Ok(message)
}

/// The message behind all pipelines that are connected to its streams, to those that it comes into on its way too.
///
/// `connections` gives the names of the pipelines that are connected to each stream. Where the message was dropped, its fields and
/// streams play no part any more. Want of memory leaves nothing of the message; the patterns of the rules are as before either way.
pub fn run_pipelines(
    alloc: Global,
    state: Staged,
    rules: &mut RuleBook,
    pipelines: &[Pipeline],
    connections: &[(u64, Items<Text>)],
    world: &World<'_>,
) -> Result<Staged, AllocError>
    requires { All Fits rules.old }
    // The end to which the message runs, step by step; and the same end, computed.
    ensures end { IfOk result (λ last. RunsTo (scene_of (known_of world.now) rules.old) (layout_of pipelines.now connections.now) (begun state) (end_of last)) }
    ensures value { IfOk result (λ last. end_of last ≡ run_end (scene_of (known_of world.now) rules.old) (layout_of pipelines.now connections.now) state) }
    ensures in_one { 0 < length state.streams → Rises (λ (a b : ℕ). a < b) state.streams → IfOk result (λ last. IsEnd (end_of last)) }
    ensures same { rules.new ≡ rules.old }
{
    run(
        alloc,
        state,
        rules.rules.as_mut_slice(),
        pipelines,
        connections,
        world,
    )
}
