// Functions that search for a pattern.
ghost use Rattle.std.specs.Prelude.{◌≡◌, IfOk};
ghost use Rattle.gl_check.specs.Values.{bounded, truth};
ghost use Rattle.gl_patterns.specs.Patterns.{is_found, group_in};
ghost use Rattle.gl_functions.specs.Calls.{text_at, number_at, from_zero_on, group_part, part_of};

use crate::arguments::{natural_at, text_at};
use crate::cutting::part_at;
use crate::value::Value;
use gl_patterns::Pattern;
use std::alloc::{AllocError, Global};

// The greatest number that a group may be asked by.
const MAX_GROUP: u64 = 4_294_967_295;

/// Whether the pattern is found in the text.
pub fn regex_matches<'a>(
    arguments: &[Value<'_>],
    pattern: &mut Pattern,
) -> Result<Value<'a>, AllocError>
    ensures value { IfOk result (λ v. v ≡ truth (is_found pattern.old (text_at 1 arguments.now))) }
    ensures same { pattern.new ≡ pattern.old }
{
    match pattern.found(text_at(arguments, 1)) {
        Ok(yes) => Ok(Value::of_truth(yes)),
        Err(error) => Err(error),
    }
}

/// What a group of the pattern spans in its first match.
pub fn regex_group<'a>(
    alloc: Global,
    arguments: &[Value<'a>],
    pattern: &mut Pattern,
) -> Result<Value<'a>, AllocError>
    ensures value { IfOk result (λ v. v ≡ bounded (from_zero_on (group_part pattern.old (text_at 1 arguments.now)) (number_at 2 arguments.now))) }
    ensures same { pattern.new ≡ pattern.old }
{
    match natural_at(arguments, 2) {
        Some(group) => group_part(alloc, arguments, pattern, group),
        None => Ok(Value::missing()),
    }
}

// No pattern has a group whose number passes 32 bits.
fn group_part<'a>(
    alloc: Global,
    arguments: &[Value<'a>],
    pattern: &mut Pattern,
    group: u64,
) -> Result<Value<'a>, AllocError>
    ensures value { IfOk result (λ v. v ≡ bounded (group_part pattern.old (text_at 1 arguments.now) group)) }
    ensures same { pattern.new ≡ pattern.old }
{
    if group > MAX_GROUP {
        return Ok(Value::missing());
    }
    group_of(alloc, arguments, pattern, group as u32)
}

fn group_of<'a>(
    alloc: Global,
    arguments: &[Value<'a>],
    pattern: &mut Pattern,
    group: u32,
) -> Result<Value<'a>, AllocError>
    ensures value { IfOk result (λ v. v ≡ bounded (part_of (text_at 1 arguments.now) (group_in pattern.old (text_at 1 arguments.now) group))) }
    ensures same { pattern.new ≡ pattern.old }
{
    match pattern.group(text_at(arguments, 1), group) {
        Ok(span) => part_at(alloc, arguments, 1, span),
        Err(error) => Err(error),
    }
}
