// The values of the parameters of a call.
ghost use Rattle.std.specs.Prelude.{◌≡◌, ◌≤◌, ◌++◌, map, length, take, drop, option_copied, slice_get, IfOk, IfSome, OnOk};
ghost use Rattle.gl_check.specs.Arguments.{are_positional, names_view};
ghost use Rattle.gl_check.specs.Functions.{asked};
ghost use Rattle.gl_eval.specs.Fitting.{default_for, IsInPlace};
ghost use Rattle.gl_eval.specs.Meaning.{value_for, values_for};

use gl_base::Text;
use gl_check::{Parameter, place_for};
use gl_functions::Value;
use gl_rulelang::Expr;
use std::alloc::{AllocError, Global};

/// The value at a place.
pub fn value_at<'v, 'a>(values: &'v [Value<'a>], at: usize) -> Option<&'v Value<'a>>
    ensures { option_copied result ≡ slice_get values.now at }
{
    values.get(at)
}

/// What stands for an argument that isn't given.
fn default_of<'v>(parameter: Parameter) -> Value<'v>
    ensures { result ≡ default_for (asked parameter) }
{
    match parameter.default() {
        Some(preset) => Value::of_preset(preset),
        None => Value::missing(),
    }
}

/// The value that the parameter at this place of its function gets.
fn value_for<'v>(
    alloc: Global,
    arguments: &[(Option<Text>, Expr)],
    place: usize,
    parameter: Parameter,
    given: &[Value<'v>],
) -> Result<Value<'v>, AllocError>
    ensures { IfOk result (λ v. v ≡ value_for (names_view arguments.now) given.now (place, asked parameter)) }
{
    let Some(at) = place_for(arguments, place, parameter) else {
        return Ok(default_of(parameter));
    };
    match value_at(given, at) {
        Some(value) => value.copy(alloc),
        None => Ok(default_of(parameter)),
    }
}

/// The values of all parameters, in their order, of the values that are given for the arguments in the order of the text.
fn values_for<'v>(
    alloc: Global,
    parameters: &[Parameter],
    arguments: &[(Option<Text>, Expr)],
    given: &[Value<'v>],
) -> Result<Vec<Value<'v>>, AllocError>
    ensures { IfOk result (λ vs. vs.items ≡ values_for (map asked parameters.now) (names_view arguments.now) given.now) }
{
    let mut values = Vec::with_capacity(alloc, parameters.len())?;
    for (place, parameter) in parameters.iter().enumerate() {
        values.push(value_for(alloc, arguments, place, *parameter, given)?)?;
    }
    Ok(values)
}

/// Whether no argument has a name.
fn are_positional(arguments: &[(Option<Text>, Expr)]) -> bool
    ensures { result ≡ are_positional (names_view arguments.now) }
{
    for (name, _) in arguments {
        if name.is_some() {
            return false;
        }
    }
    true
}

/// Puts what stands for arguments that aren't given behind the values.
fn push_defaults(parameters: &[Parameter], stack: &mut Vec<Value<'_>>) -> Result<(), AllocError>
    ensures { OnOk result (stack.new.items ≡ stack.old.items ++ map default_for (map asked parameters.now)) }
{
    for parameter in parameters {
        stack.push(default_of(*parameter))?;
    }
    Ok(())
}

/// The parameters behind so many arguments, where these stand in the places of the first ones.
fn left_out<'p>(
    parameters: &'p [Parameter],
    arguments: &[(Option<Text>, Expr)],
    given: usize,
) -> Option<&'p [Parameter]>
    ensures rest { IfSome result (λ rest. rest.now ≡ drop given parameters.now) }
    ensures in_place { IfSome result (λ rest. IsInPlace given (length parameters.now) (names_view arguments.now)) }
{
    if given > parameters.len() {
        return None;
    }
    if given > arguments.len() {
        return None;
    }
    if !are_positional(arguments) {
        return None;
    }
    Some(&parameters[given..])
}

/// Makes of the values of a call's arguments, which lie on the stack from a place on in the order of the text, those of its
/// parameters. Where no argument has a name they stay where they are.
pub fn fit(
    alloc: Global,
    parameters: &[Parameter],
    arguments: &[(Option<Text>, Expr)],
    from: usize,
    stack: &mut Vec<Value<'_>>,
) -> Result<(), AllocError>
    requires { from ≤ length stack.old.items }
    ensures { OnOk result (stack.new.items ≡ take from stack.old.items ++ values_for (map asked parameters.now) (names_view arguments.now) (drop from stack.old.items)) }
{
    if let Some(rest) = left_out(parameters, arguments, stack.len() - from) {
        return push_defaults(rest, stack);
    }
    let mut values = values_for(alloc, parameters, arguments, &stack[from..])?;
    stack.truncate(from);
    stack.append(&mut values)?;
    Ok(())
}
