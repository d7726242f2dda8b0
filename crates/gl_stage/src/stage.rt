// What happens at one stage number.
ghost use Rattle.std.specs.Prelude.{◌≡◌, ◌==◌, ◌++◌, Some, find, option_copied, IfOk, OnOk};
ghost use Rattle.std.specs.List.{All};
ghost use Rattle.gl_functions.specs.Worlds.{known_of};
ghost use Rattle.gl_stage.specs.Stages.{at_number, held, held_at, is_last, reached, stops, stops_at};
ghost use Rattle.gl_stage.specs.Books.{Fits, rules_at, scene_of};
ghost use Rattle.gl_stage.specs.Lent.{names_now, pipelines_now, moving_of};

use crate::book::{act_all, place_of, rule_holds};
use crate::moving::Moving;
use crate::names::is_among;
use gl_base::Text;
use gl_check::Checked;
use gl_eval::{RulePatterns, Staged};
use gl_functions::World;
use gl_rulelang::{Mode, Pipeline, Stage};
use std::alloc::{AllocError, Global};

// What a look at the stages of a number tells: the places of the rules that hold, and the names of the pipelines that stop.
#[derive(Drop)]
struct Looked<'a> {
    held: Vec<usize>,
    stops: Vec<&'a Text>,
}

// The stage of this number.
fn stage_at<'s>(stages: &'s [Stage], n: u64) -> Option<&'s Stage>
    ensures { option_copied result ≡ find (λ stage. stage.number == n) stages.now }
{
    let mut rest = stages;
    while let [stage, behind @ ..] = rest {
        if u64::from(stage.number) == n {
            return Some(stage);
        }
        rest = behind;
    }
    None
}

// The stage of this number of a pipeline that hasn't stopped.
fn reached<'a>(n: u64, stopped: &[&Text], pipeline: &'a Pipeline) -> Option<&'a Stage>
    ensures { option_copied result ≡ reached n (names_now stopped.now) pipeline.now }
{
    if is_among(stopped, &pipeline.name) {
        return None;
    }
    stage_at(pipeline.stages.as_slice(), n)
}

// Whether a pipeline goes no further behind a stage of this kind.
fn is_last(mode: Mode, each: bool, one: bool) -> bool
    ensures { result ≡ is_last mode each one }
{
    match mode {
        Mode::All => !each,
        Mode::Either => !one,
        Mode::Pass => false,
    }
}

// Puts the places of the stage's rules that hold behind the others, and tells whether the pipeline stops.
fn look_at(
    alloc: Global,
    stage: &Stage,
    message: &Staged,
    rules: &mut [(Checked, RulePatterns)],
    world: &World<'_>,
    held: &mut Vec<usize>,
) -> Result<bool, AllocError>
    requires { All Fits rules.old }
    ensures held { OnOk result (rules_at rules.old held.new.items
        ≡ rules_at rules.old held.old.items ++ held_at (scene_of (known_of world.now) rules.old) message.now (Some stage.now)) }
    ensures stops { IfOk result (λ yes. yes ≡ stops_at (scene_of (known_of world.now) rules.old) message.now (Some stage.now)) }
    ensures same { rules.new ≡ rules.old }
{
    let mut each = true;
    let mut one = false;
    for name in stage.rules.as_slice() {
        let Some(place) = place_of(rules, name) else {
            continue;
        };
        if rule_holds(alloc, &mut rules[place], world, message)? {
            held.push(place)?;
            one = true;
        } else {
            each = false;
        }
    }
    Ok(is_last(stage.mode, each, one))
}

// Which rules hold at a number, and which pipelines stop there, told by the message as it stands.
fn look<'a>(
    alloc: Global,
    n: u64,
    round: &[&'a Pipeline],
    moving: &Moving<'a>,
    rules: &mut [(Checked, RulePatterns)],
    world: &World<'_>,
) -> Result<Looked<'a>, AllocError>
    requires { All Fits rules.old }
    ensures held { IfOk result (λ l. rules_at rules.old l.held.items
        ≡ held (scene_of (known_of world.now) rules.old) (pipelines_now round.now) n (moving_of moving.now)) }
    ensures stops { IfOk result (λ l. names_now l.stops.items
        ≡ stops (scene_of (known_of world.now) rules.old) (pipelines_now round.now) n (moving_of moving.now)) }
    ensures same { rules.new ≡ rules.old }
{
    let mut looked = Looked {
        held: Vec::new(alloc),
        stops: Vec::new(alloc),
    };
    for pipeline in round {
        let pipeline: &'a Pipeline = *pipeline;
        let Some(stage) = reached(n, moving.stopped.as_slice(), pipeline) else {
            continue;
        };
        if look_at(
            alloc,
            stage,
            &moving.message,
            rules,
            world,
            &mut looked.held,
        )? {
            looked.stops.push(&pipeline.name)?;
        }
    }
    Ok(looked)
}

// Takes a message past a number of its round.
pub(crate) fn at_number<'a>(
    alloc: Global,
    n: u64,
    round: &[&'a Pipeline],
    moving: &mut Moving<'a>,
    rules: &mut [(Checked, RulePatterns)],
    world: &World<'_>,
) -> Result<(), AllocError>
    requires { All Fits rules.old }
    ensures done { OnOk result (moving_of moving.new
        ≡ at_number (scene_of (known_of world.now) rules.old) (pipelines_now round.now) n (moving_of moving.old)) }
    ensures same { rules.new ≡ rules.old }
{
    let mut looked = look(alloc, n, round, moving, rules, world)?;
    act_all(
        alloc,
        looked.held.as_slice(),
        rules,
        world,
        &mut moving.message,
    )?;
    moving.stopped.append(&mut looked.stops)?;
    Ok(())
}
