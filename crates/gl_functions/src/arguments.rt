// The arguments of a call, by their places.
ghost use Rattle.std.specs.Prelude.{◌≡◌, map, IfOk, IfSome, option_copied, slice_get};
ghost use Rattle.gl_check.specs.Functions.{asked};
ghost use Rattle.gl_check.specs.Values.{bounded, is_missing, is_text, is_whole};
ghost use Rattle.gl_functions.specs.Calls.{value_at, text_at, number_at, natural, truth_at, one_misses};

use crate::value::Value;
use gl_check::Parameter;
use std::alloc::{AllocError, Global};

/// Whether an argument of a call is missing that mustn't be, or isn't there. The arguments stand in the order of the parameters.
pub fn one_misses(parameters: &[Parameter], arguments: &[Value<'_>]) -> bool
    ensures { result ≡ one_misses (map asked parameters.now) arguments.now }
{
    let mut rest = parameters;
    let mut given = arguments;
    while let [parameter, more @ ..] = rest {
        let [value, behind @ ..] = given else {
            return true;
        };
        if value.is_missing() && !parameter.may_miss() {
            return true;
        }
        rest = more;
        given = behind;
    }
    false
}

/// The argument at a place.
pub fn argument_at<'v, 'a>(arguments: &'v [Value<'a>], at: usize) -> Option<&'v Value<'a>>
    ensures { option_copied result ≡ slice_get arguments.now at }
{
    arguments.get(at)
}

/// The text of the argument at a place, from 0; empty where it is no text.
pub fn text_at<'v>(arguments: &'v [Value<'_>], at: usize) -> &'v str
    ensures { result.now ≡ text_at at arguments.now }
{
    match argument_at(arguments, at) {
        Some(value) => value.as_text(),
        None => "",
    }
}

pub fn number_at(arguments: &[Value<'_>], at: usize) -> i64
    ensures { result ≡ number_at at arguments.now }
{
    match argument_at(arguments, at) {
        Some(value) => value.as_whole().unwrap_or(0),
        None => 0,
    }
}

/// The number of an argument, where it isn't negative.
pub fn natural_at(arguments: &[Value<'_>], at: usize) -> Option<u64>
    ensures { result ≡ natural (number_at at arguments.now) }
{
    natural(number_at(arguments, at))
}

fn natural(number: i64) -> Option<u64>
    ensures { result ≡ natural number }
{
    if number < 0 {
        return None;
    }
    Some(number as u64)
}

/// Whether the argument at a place, from 0, is true.
pub fn truth_at(arguments: &[Value<'_>], at: usize) -> bool
    ensures { result ≡ truth_at at arguments.now }
{
    match argument_at(arguments, at) {
        Some(value) => value.is_true(),
        None => false,
    }
}

pub fn is_missing_at(arguments: &[Value<'_>], at: usize) -> bool
    ensures { result ≡ is_missing (value_at at arguments.now) }
{
    match argument_at(arguments, at) {
        Some(value) => value.is_missing(),
        None => true,
    }
}

pub fn is_text_at(arguments: &[Value<'_>], at: usize) -> bool
    ensures { result ≡ is_text (value_at at arguments.now) }
{
    match argument_at(arguments, at) {
        Some(value) => value.is_text(),
        None => false,
    }
}

pub fn is_whole_at(arguments: &[Value<'_>], at: usize) -> bool
    ensures { result ≡ is_whole (value_at at arguments.now) }
{
    match argument_at(arguments, at) {
        Some(value) => value.is_whole(),
        None => false,
    }
}

/// The argument itself.
pub fn copied_at<'a>(
    alloc: Global,
    arguments: &[Value<'a>],
    at: usize,
) -> Result<Value<'a>, AllocError>
    ensures { IfOk result (λ v. v ≡ bounded (value_at at arguments.now)) }
{
    match argument_at(arguments, at) {
        Some(value) => value.copy(alloc),
        None => Ok(Value::missing()),
    }
}

/// The text of an argument, where it is a borrowed one.
pub fn borrowed_at<'a>(arguments: &[Value<'a>], at: usize) -> Option<&'a str>
    ensures { IfSome result (λ text. text.now ≡ text_at at arguments.now) }
{
    match argument_at(arguments, at) {
        Some(value) => value.borrowed_text(),
        None => None,
    }
}
