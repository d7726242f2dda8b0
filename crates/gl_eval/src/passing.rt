// How many patterns an expression takes.
ghost use Rattle.std.specs.Prelude.{◌≡◌, ◌+◌, ◌<◌, ◌^◌, length};
ghost use Rattle.gl_rulelang.specs.Tree.{tree_of, call_of, call_tree, args_view, row};
ghost use Rattle.gl_check.specs.Functions.{function_named};
ghost use Rattle.gl_check.specs.Checking.{patterns_of, patterns_in};
ghost use Rattle.gl_eval.specs.Patterns.{HasPatterns, HavePatterns, asks_named};

use gl_base::Text;
use gl_check::Function;
use gl_functions::asks_pattern;
use gl_rulelang::{Call, Expr};

/// Whether a call of this name takes a pattern.
fn takes_pattern(name: &str) -> bool
    ensures { result ≡ asks_named (function_named name.now) }
{
    match Function::named(name) {
        Some(function) => asks_pattern(function),
        None => false,
    }
}

/// The place behind the patterns of an expression, whose first one is at this place.
#[cycle(past)]
pub fn past(e: &Expr, at: usize) -> usize
    requires lawful { HasPatterns (tree_of e.now) }
    requires room { at + length (patterns_of (tree_of e.now)) < 2 ^ 64 }
    ensures { result ≡ at + length (patterns_of (tree_of e.now)) }
{
    match e {
        Expr::Unary(_, operand) => past(operand, at),
        Expr::Binary(_, first, second) => past(second, past(first, at)),
        Expr::Call(call) => past_call(call, at),
        Expr::Text(_) | Expr::Whole(_) | Expr::Bool(_) | Expr::Field(_) | Expr::Var(_) => at,
    }
}

#[cycle(past)]
fn past_call(call: &Call, at: usize) -> usize
    requires lawful { HasPatterns (call_tree (call_of call.now)) }
    requires room { at + length (patterns_of (call_tree (call_of call.now))) < 2 ^ 64 }
    ensures { result ≡ at + length (patterns_of (call_tree (call_of call.now))) }
{
    let behind = past_arguments(&call.arguments, at);
    if takes_pattern(call.name.as_str()) {
        return behind + 1;
    }
    behind
}

#[cycle(past)]
fn past_arguments(arguments: &[(Option<Text>, Expr)], at: usize) -> usize
    requires lawful { HavePatterns (row (args_view arguments.now)) }
    requires room { at + length (patterns_in (row (args_view arguments.now))) < 2 ^ 64 }
    ensures { result ≡ at + length (patterns_in (row (args_view arguments.now))) }
{
    let mut behind = at;
    for (_, argument) in arguments {
        behind = past(argument, behind);
    }
    behind
}
