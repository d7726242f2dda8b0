// Conversions of values.
ghost use Rattle.std.specs.Prelude.{◌≡◌, IfOk};
ghost use Rattle.std.specs.Fmt.{signed_decimal};
ghost use Rattle.gl_check.specs.Values.{bounded, text, text_of};
ghost use Rattle.gl_functions.specs.Calls.{value_at, text_or, number_of, number_or};

use crate::arguments::{argument_at, copied_at};
use crate::content::{Content, truth_text};
use crate::value::Value;
use gl_text::{Decimal, whole_number};
use std::alloc::{AllocError, Global};

/// The text of a value, or the default where it is missing.
pub fn to_string<'a>(alloc: Global, arguments: &[Value<'a>]) -> Result<Value<'a>, AllocError>
    ensures { IfOk result (λ v. v ≡ bounded (text_or (value_at 0 arguments.now) (value_at 1 arguments.now))) }
{
    match argument_at(arguments, 0) {
        Some(value) => {
            if value.is_missing() {
                copied_at(alloc, arguments, 1)
            } else {
                text_of(alloc, value)
            }
        }
        None => copied_at(alloc, arguments, 1),
    }
}

fn text_of<'a>(alloc: Global, value: &Value<'a>) -> Result<Value<'a>, AllocError>
    ensures { IfOk result (λ v. v ≡ bounded (text (text_of value.now))) }
{
    match &value.content {
        Content::Text(_) => value.copy(alloc),
        Content::Whole(number) => decimal_of(alloc, *number),
        Content::Truth(truth) => Ok(Value::of_text(truth_text(*truth))),
        Content::Missing => Ok(Value::of_text("")),
    }
}

fn decimal_of<'a>(alloc: Global, number: i64) -> Result<Value<'a>, AllocError>
    ensures { IfOk result (λ v. v ≡ bounded (text (signed_decimal number))) }
{
    Value::copied(alloc, Decimal::new(number).as_str())
}

/// The whole number that a value is or writes, or else the default.
pub fn to_long<'a>(alloc: Global, arguments: &[Value<'a>]) -> Result<Value<'a>, AllocError>
    ensures { IfOk result (λ v. v ≡ bounded (number_or (number_of (value_at 0 arguments.now)) (value_at 1 arguments.now))) }
{
    match number_at_first(arguments) {
        Some(number) => Ok(Value::of_whole(number)),
        None => copied_at(alloc, arguments, 1),
    }
}

fn number_at_first(arguments: &[Value<'_>]) -> Option<i64>
    ensures { result ≡ number_of (value_at 0 arguments.now) }
{
    match argument_at(arguments, 0) {
        Some(value) => number_of(value),
        None => None,
    }
}

fn number_of(value: &Value<'_>) -> Option<i64>
    ensures { result ≡ number_of value.now }
{
    match &value.content {
        Content::Text(text) => whole_number(text.as_str()),
        Content::Whole(number) => Some(*number),
        Content::Truth(_) => None,
        Content::Missing => None,
    }
}
