ghost use Rattle.std.specs.Prelude.{◌≡◌, ◌+◌, length, map, IfOk, OnOk};
ghost use Rattle.std.specs.List.{flat_map};
ghost use Rattle.gl_rulelang.specs.Tree.{tree_of, call_of, action_of};
ghost use Rattle.gl_check.specs.Functions.{function_named};
ghost use Rattle.gl_check.specs.Arguments.{names_in};
ghost use Rattle.gl_check.specs.Checking.{patterns_of, patterns_in, step_patterns, pattern_texts};
ghost use Rattle.gl_functions.specs.Worlds.{known_of};
ghost use Rattle.gl_eval.specs.declared.staged.Staged.{Staged};
ghost use Rattle.gl_eval.specs.Meaning.{meaning, meanings};
ghost use Rattle.gl_eval.specs.Actions.{done, stepped, course_behind, acted};
ghost use Rattle.gl_eval.specs.Changes.{changed};
ghost use Rattle.gl_eval.specs.Patterns.{StandAt, HavePatterns, StepHasPatterns, StepsHavePatterns};
ghost use Rattle.gl_eval.specs.Scopes.{scope_in, named_value, course_of};

use crate::arguments::fit;
use crate::asking::asked;
use crate::change::{Change, apply};
use crate::passing::past;
use crate::patterns::{Row, RulePatterns};
use crate::scope::{Scope, Variable};
use crate::staged::Staged;
use crate::walking::{meaning_of, push_values};
use gl_check::{Checked, Function};
use gl_functions::World;
use gl_rulelang::{Action, Call};
use std::alloc::{AllocError, Global};

/// What an action asks for, with its patterns from the next one of the row on.
fn asked_by(
    alloc: Global,
    scope: &Scope<'_>,
    call: &Call,
    laid: &mut Row,
) -> Result<Change, AllocError>
    requires lawful { HavePatterns (call_of call.now).1 }
    requires patterns { StandAt laid.old.next (patterns_in (call_of call.now).1) laid.old.patterns.items }
    ensures value { IfOk result (λ c. (m : Staged) → changed c m ≡ done (scope_in scope.now).sight.world (function_named (call_of call.now).0) (names_in (call_of call.now).1) (meanings (scope_in scope.now) (call_of call.now).1) m) }
    ensures next { OnOk result (laid.new.next ≡ laid.old.next + length (patterns_in (call_of call.now).1)) }
    ensures same { laid.new.patterns.items ≡ laid.old.patterns.items }
{
    let mut stack = Vec::new(alloc);
    push_values(alloc, scope, &call.arguments, laid, &mut stack)?;
    let Some(function) = Function::named(call.name.as_str()) else {
        return Ok(Change::Nothing);
    };
    fit(alloc, function.parameters(), &call.arguments, 0, &mut stack)?;
    asked(alloc, scope.world, function, stack.as_slice())
}

/// Does one action: gives a name to a value, or changes the message.
fn step<'r>(
    alloc: Global,
    world: &World<'_>,
    action: &'r Action,
    laid: &mut Row,
    variables: &mut Vec<Variable<'r>>,
    state: &mut Staged,
) -> Result<(), AllocError>
    requires lawful { StepHasPatterns (action_of action.now) }
    requires patterns { StandAt laid.old.next (step_patterns (action_of action.now)) laid.old.patterns.items }
    ensures done { OnOk result (course_of state.new variables.new.items ≡ stepped (known_of world.now) (course_of state.old variables.old.items) (action_of action.now)) }
    ensures next { OnOk result (laid.new.next ≡ laid.old.next + length (step_patterns (action_of action.now))) }
    ensures same { laid.new.patterns.items ≡ laid.old.patterns.items }
{
    let scope = Scope {
        world,
        fields: &state.fields,
        streams: state.streams.as_slice(),
        variables,
    };
    match action {
        Action::Let(name, e) => {
            let value = meaning_of(alloc, &scope, e, laid)?.into_owned(alloc)?;
            let name = name.as_str();
            variables.insert(0, Variable { name, value })?;
            Ok(())
        }
        Action::Do(call) => {
            let change = asked_by(alloc, &scope, call, laid)?;
            apply(alloc, change, state)
        }
    }
}

/// Does actions in order, until one drops the message.
fn steps(
    alloc: Global,
    world: &World<'_>,
    actions: &[Action],
    laid: &mut Row,
    state: &mut Staged,
) -> Result<(), AllocError>
    requires lawful { StepsHavePatterns (map action_of actions.now) }
    requires patterns { StandAt laid.old.next (flat_map step_patterns (map action_of actions.now)) laid.old.patterns.items }
    ensures done { OnOk result (state.new ≡ (course_behind (known_of world.now) (map action_of actions.now) state.old).message) }
    ensures same { laid.new.patterns.items ≡ laid.old.patterns.items }
{
    let mut variables = Vec::new(alloc);
    for action in actions {
        if state.dropped {
            return Ok(());
        }
        step(alloc, world, action, laid, &mut variables, state)?;
    }
    Ok(())
}

/// Does a rule's actions in order, whether or not its condition holds. An action with a missing argument, or one that the fields
/// refuse, changes nothing; behind a drop nothing is done.
///
/// The patterns are those of the rule's `pattern_texts`, each at its place; they are as before. After want of memory some of the
/// actions may be done, and the message is to be given up.
pub fn act(
    alloc: Global,
    rule: &Checked,
    patterns: &mut RulePatterns,
    world: &World<'_>,
    state: &mut Staged,
) -> Result<(), AllocError>
    requires { patterns.old ≡ pattern_texts rule.now }
    ensures done { OnOk result (state.new ≡ acted (known_of world.now) rule.now state.old) }
    ensures same { patterns.new ≡ patterns.old }
{
    let rule = rule.rule();
    let row = &mut patterns.row;
    row.next = past(&rule.condition, 0);
    steps(alloc, world, &rule.actions, row, state)
}
