// The strings of a rule that are patterns.
ghost use Rattle.std.specs.Prelude.{◌≡◌, ◌++◌, map, flat_map, filter_map, OnOk};
ghost use Rattle.gl_rulelang.specs.Tree.{tree_of, call_of, args_view, row, call_tree, action_of};
ghost use Rattle.gl_check.specs.Functions.{asked, function_named};
ghost use Rattle.gl_check.specs.Arguments.{in_places};
ghost use Rattle.gl_check.specs.Checking.{pattern_given, patterns_for, patterns_of, patterns_in, step_patterns};

use crate::call::{arguments_of, function_of};
use crate::faults::pattern_given;
use crate::parameter::Parameter;
use gl_base::{Items, Text};
use gl_rulelang::{Action, Call, Expr};
use std::alloc::AllocError;

/// Those that are given for these parameters.
fn push_given(
    out: &mut Items<Text>,
    parameters: &[Parameter],
    arguments: &[(Option<Text>, Expr)],
) -> Result<(), AllocError>
    ensures { OnOk result (out.new ≡ out.old ++ filter_map (pattern_given (row (args_view arguments.now))) (in_places (map asked parameters.now))) }
{
    for (place, parameter) in parameters.iter().enumerate() {
        if let Some(text) = pattern_given(arguments, place, *parameter) {
            out.push(text.copy()?)?;
        }
    }
    Ok(())
}

/// Those of a call without the calls inside it.
fn push_own(out: &mut Items<Text>, call: &Call) -> Result<(), AllocError>
    ensures { OnOk result (out.new ≡ out.old ++ patterns_for (call_of call.now).1 (function_named (call_of call.now).0)) }
{
    match function_of(call) {
        None => Ok(()),
        Some(function) => push_given(out, function.parameters(), arguments_of(call)),
    }
}

#[cycle(patterns)]
pub fn push_patterns(out: &mut Items<Text>, e: &Expr) -> Result<(), AllocError>
    ensures { OnOk result (out.new ≡ out.old ++ patterns_of (tree_of e.now)) }
{
    match e {
        Expr::Unary(_, operand) => push_patterns(out, operand),
        Expr::Binary(_, first, second) => {
            push_patterns(out, first)?;
            push_patterns(out, second)
        }
        Expr::Call(call) => push_call(out, call),
        Expr::Text(_) | Expr::Whole(_) | Expr::Bool(_) | Expr::Field(_) | Expr::Var(_) => Ok(()),
    }
}

#[cycle(patterns)]
fn push_call(out: &mut Items<Text>, call: &Call) -> Result<(), AllocError>
    ensures { OnOk result (out.new ≡ out.old ++ patterns_of (call_tree (call_of call.now))) }
{
    push_inside(out, &call.arguments)?;
    push_own(out, call)
}

#[cycle(patterns)]
fn push_inside(out: &mut Items<Text>, arguments: &[(Option<Text>, Expr)]) -> Result<(), AllocError>
    ensures { OnOk result (out.new ≡ out.old ++ patterns_in (row (args_view arguments.now))) }
{
    for (_, argument) in arguments {
        push_patterns(out, argument)?;
    }
    Ok(())
}

fn push_step(out: &mut Items<Text>, action: &Action) -> Result<(), AllocError>
    ensures { OnOk result (out.new ≡ out.old ++ step_patterns (action_of action.now)) }
{
    match action {
        Action::Let(_, e) => push_patterns(out, e),
        Action::Do(call) => push_call(out, call),
    }
}

pub fn push_steps(out: &mut Items<Text>, actions: &[Action]) -> Result<(), AllocError>
    ensures { OnOk result (out.new ≡ out.old ++ flat_map step_patterns (map action_of actions.now)) }
{
    for action in actions {
        push_step(out, action)?;
    }
    Ok(())
}
