// The meaning of expressions, by their trees.
ghost use Rattle.std.specs.Prelude.{◌≡◌, ◌+◌, ◌++◌, IfOk, OnOk, length, map};
ghost use Rattle.gl_rulelang.specs.Tree.{tree_of, call_of, call_tree, args_view, row};
ghost use Rattle.gl_check.specs.Checking.{patterns_of, patterns_in};
ghost use Rattle.gl_eval.specs.Meaning.{meaning, meanings};
ghost use Rattle.gl_check.specs.Values.{bounded, whole};
ghost use Rattle.gl_functions.specs.Calls.{result_of};
ghost use Rattle.gl_eval.specs.Patterns.{StandAt, HasPatterns, HavePatterns, TakesNext, taken_by};
ghost use Rattle.gl_eval.specs.Scopes.{scope_in};

use crate::arguments::fit;
use crate::patterns::Row;
use crate::scope::{Scope, variable_in};
use gl_base::Text;
use gl_check::Function;
use gl_functions::{Value, asks_pattern, give, give_by_pattern, infixed, prefixed};
use gl_rulelang::{Call, Expr};
use std::alloc::{AllocError, Global};

fn whole_of<'a>(number: &i64) -> Value<'a>
    ensures { result ≡ bounded (whole number.now) }
{
    Value::of_whole(*number)
}

/// What an expression means, with its patterns from the next one of the row on; the next one is then the one behind them.
///
/// Values that wait for others lie on the stack, which is as before.
#[cycle(walk)]
fn value_of<'a>(
    alloc: Global,
    scope: &Scope<'a>,
    e: &'a Expr,
    laid: &mut Row,
    stack: &mut Vec<Value<'a>>,
) -> Result<Value<'a>, AllocError>
    requires lawful { HasPatterns (tree_of e.now) }
    requires patterns { StandAt laid.old.next (patterns_of (tree_of e.now)) laid.old.patterns.items }
    ensures value { IfOk result (λ v. v ≡ meaning (scope_in scope.now) (tree_of e.now)) }
    ensures next { OnOk result (laid.new.next ≡ laid.old.next + length (patterns_of (tree_of e.now))) }
    ensures same { laid.new.patterns.items ≡ laid.old.patterns.items }
    ensures kept { OnOk result (stack.new.items ≡ stack.old.items) }
{
    match e {
        Expr::Text(text) => Ok(Value::of_text(text.as_str())),
        Expr::Whole(number) => Ok(whole_of(number)),
        Expr::Bool(holds) => Ok(Value::of_truth(*holds)),
        Expr::Field(name) => Ok(Value::of_field(scope.fields.get(name.as_str()))),
        Expr::Var(name) => Ok(variable_in(name.as_str(), scope.variables)),
        Expr::Unary(sign, operand) => {
            let operand = value_of(alloc, scope, operand, laid, stack)?;
            Ok(prefixed(*sign, &operand))
        }
        Expr::Binary(sign, first, second) => {
            let first = value_of(alloc, scope, first, laid, stack)?;
            let second = value_of(alloc, scope, second, laid, stack)?;
            Ok(infixed(*sign, &first, &second))
        }
        Expr::Call(call) => value_of_call(alloc, scope, call, laid, stack),
    }
}

/// The same, with a stack of its own.
pub fn meaning_of<'a>(
    alloc: Global,
    scope: &Scope<'a>,
    e: &'a Expr,
    laid: &mut Row,
) -> Result<Value<'a>, AllocError>
    requires lawful { HasPatterns (tree_of e.now) }
    requires patterns { StandAt laid.old.next (patterns_of (tree_of e.now)) laid.old.patterns.items }
    ensures value { IfOk result (λ v. v ≡ meaning (scope_in scope.now) (tree_of e.now)) }
    ensures next { OnOk result (laid.new.next ≡ laid.old.next + length (patterns_of (tree_of e.now))) }
    ensures same { laid.new.patterns.items ≡ laid.old.patterns.items }
{
    let mut stack = Vec::new(alloc);
    value_of(alloc, scope, e, laid, &mut stack)
}

#[cycle(walk)]
fn value_of_call<'a>(
    alloc: Global,
    scope: &Scope<'a>,
    call: &'a Call,
    laid: &mut Row,
    stack: &mut Vec<Value<'a>>,
) -> Result<Value<'a>, AllocError>
    requires lawful { HasPatterns (call_tree (call_of call.now)) }
    requires patterns { StandAt laid.old.next (patterns_of (call_tree (call_of call.now))) laid.old.patterns.items }
    ensures value { IfOk result (λ v. v ≡ meaning (scope_in scope.now) (call_tree (call_of call.now))) }
    ensures next { OnOk result (laid.new.next ≡ laid.old.next + length (patterns_of (call_tree (call_of call.now)))) }
    ensures same { laid.new.patterns.items ≡ laid.old.patterns.items }
    ensures kept { OnOk result (stack.new.items ≡ stack.old.items) }
{
    let from = stack.len();
    push_values(alloc, scope, &call.arguments, laid, stack)?;
    let Some(function) = Function::named(call.name.as_str()) else {
        stack.truncate(from);
        return Ok(Value::missing());
    };
    fit(alloc, function.parameters(), &call.arguments, from, stack)?;
    let value = computed(alloc, scope, function, &stack[from..], laid)?;
    stack.truncate(from);
    Ok(value)
}

/// Puts the values of the arguments of a call on the stack, in the order of the text.
#[cycle(walk)]
pub fn push_values<'a>(
    alloc: Global,
    scope: &Scope<'a>,
    arguments: &'a [(Option<Text>, Expr)],
    laid: &mut Row,
    stack: &mut Vec<Value<'a>>,
) -> Result<(), AllocError>
    requires lawful { HavePatterns (row (args_view arguments.now)) }
    requires patterns { StandAt laid.old.next (patterns_in (row (args_view arguments.now))) laid.old.patterns.items }
    ensures values { OnOk result (stack.new.items ≡ stack.old.items ++ meanings (scope_in scope.now) (row (args_view arguments.now))) }
    ensures next { OnOk result (laid.new.next ≡ laid.old.next + length (patterns_in (row (args_view arguments.now)))) }
    ensures same { laid.new.patterns.items ≡ laid.old.patterns.items }
{
    for (_, argument) in arguments {
        let value = value_of(alloc, scope, argument, laid, stack)?;
        stack.push(value)?;
    }
    Ok(())
}

/// What a function gives of the values of its parameters, with the row's next pattern where it takes one.
fn computed<'a>(
    alloc: Global,
    scope: &Scope<'a>,
    function: Function,
    values: &[Value<'a>],
    laid: &mut Row,
) -> Result<Value<'a>, AllocError>
    requires { TakesNext function values.now laid.old.patterns.items laid.old.next }
    ensures value { IfOk result (λ v. v ≡ bounded (result_of (scope_in scope.now).sight function values.now)) }
    ensures next { OnOk result (laid.new.next ≡ laid.old.next + taken_by function) }
    ensures same { laid.new.patterns.items ≡ laid.old.patterns.items }
{
    if !asks_pattern(function) {
        return give(
            alloc,
            function,
            values,
            scope.world,
            scope.fields,
            scope.streams,
        );
    }
    let at = laid.next;
    laid.next = at + 1;
    give_by_pattern(alloc, function, values, &mut laid.patterns[at])
}
