// The walk over the nodes of a rule, each behind those inside it.
ghost use Rattle.std.specs.Prelude.{◌≡◌, ◌∷◌, [], reverse, map, OnOk};
ghost use Rattle.gl_rulelang.specs.Tree.{tree_of, call_of, call_tree, args_view, row, action_of};
ghost use Rattle.gl_check.specs.Checking.{Node, node, nodes_of, argument_nodes, step_nodes, steps_nodes, known_behind, fault_at, Walks};

use crate::faults::{fault_at, fault_of_call};
use crate::kind::Kind;
use crate::kinds::kind_of;
use crate::refusal::CheckRefusal;
use crate::stand::Stand;
use gl_base::Text;
use gl_rulelang::{Action, Call, Expr};
use std::alloc::Global;

/// What is answered at a node of this number: its fault, or the next number. A rule of 2^64 nodes has no place in memory.
fn told(fault: Option<CheckRefusal>, at: u64) -> Result<u64, CheckRefusal>
    ensures { (n : Node) → fault ≡ fault_at (at, n) → Walks at (n ∷ []) result }
{
    match fault {
        Some(fault) => Err(fault),
        None => match at.checked_add(1) {
            Some(next) => Ok(next),
            None => Err(CheckRefusal::OutOfMemory),
        },
    }
}

/// An expression without the nodes inside it.
fn walk_node(known: &[(Text, Kind)], stand: Stand, e: &Expr, at: u64) -> Result<u64, CheckRefusal>
    ensures { Walks at (node stand (reverse known.now) (tree_of e.now) ∷ []) result }
{
    told(fault_at(known, stand, e, at), at)
}

fn walk_called(
    known: &[(Text, Kind)],
    stand: Stand,
    call: &Call,
    at: u64,
) -> Result<u64, CheckRefusal>
    ensures { Walks at (node stand (reverse known.now) (call_tree (call_of call.now)) ∷ []) result }
{
    told(fault_of_call(known, stand, call, at), at)
}

/// An expression, its nodes numbered from this number on: the number behind them, or the first fault.
#[cycle(walk)]
pub fn walk(known: &[(Text, Kind)], stand: Stand, e: &Expr, at: u64) -> Result<u64, CheckRefusal>
    ensures { Walks at (nodes_of stand (reverse known.now) (tree_of e.now)) result }
{
    match e {
        Expr::Unary(_, operand) => {
            let next = walk(known, Stand::Operand, operand, at)?;
            walk_node(known, stand, e, next)
        }
        Expr::Binary(_, first, second) => {
            let middle = walk(known, Stand::Operand, first, at)?;
            let next = walk(known, Stand::Operand, second, middle)?;
            walk_node(known, stand, e, next)
        }
        Expr::Call(call) => walk_call(known, stand, call, at),
        Expr::Text(_) | Expr::Whole(_) | Expr::Bool(_) | Expr::Field(_) | Expr::Var(_) => {
            walk_node(known, stand, e, at)
        }
    }
}

#[cycle(walk)]
fn walk_call(
    known: &[(Text, Kind)],
    stand: Stand,
    call: &Call,
    at: u64,
) -> Result<u64, CheckRefusal>
    ensures { Walks at (nodes_of stand (reverse known.now) (call_tree (call_of call.now))) result }
{
    let next = walk_arguments(known, &call.arguments, at)?;
    walk_called(known, stand, call, next)
}

#[cycle(walk)]
fn walk_arguments(
    known: &[(Text, Kind)],
    arguments: &[(Option<Text>, Expr)],
    at: u64,
) -> Result<u64, CheckRefusal>
    ensures { Walks at (argument_nodes (reverse known.now) (row (args_view arguments.now))) result }
{
    let mut next = at;
    for (_, argument) in arguments {
        next = walk(known, Stand::Operand, argument, next)?;
    }
    Ok(next)
}

/// An action. Behind it the variable that it gives is known.
fn walk_step(known: &mut Vec<(Text, Kind)>, action: &Action, at: u64) -> Result<u64, CheckRefusal>
    ensures walks { Walks at (step_nodes (reverse known.old.items) (action_of action.now)) result }
    ensures known { OnOk result (reverse known.new.items ≡ known_behind (reverse known.old.items) (action_of action.now)) }
{
    match action {
        Action::Let(name, e) => {
            let next = walk(known, Stand::Operand, e, at)?;
            let kind = kind_of(known, e).unwrap_or(Kind::Any);
            known.push((name.copy()?, kind))?;
            Ok(next)
        }
        Action::Do(call) => walk_call(known, Stand::Action, call, at),
    }
}

/// The actions of a rule.
pub fn walk_steps(alloc: Global, actions: &[Action], at: u64) -> Result<u64, CheckRefusal>
    ensures { Walks at (steps_nodes [] (map action_of actions.now)) result }
{
    let mut known = Vec::new(alloc);
    let mut next = at;
    for action in actions {
        next = walk_step(&mut known, action, next)?;
    }
    Ok(next)
}
