// What a function gives of its arguments.
ghost use Rattle.std.specs.Prelude.{◌≡◌, true, false, IfOk};
ghost use Rattle.gl_check.specs.Functions.{row_of};
ghost use Rattle.gl_check.specs.Values.{bounded};
ghost use Rattle.gl_functions.specs.Worlds.{Sight, sight, known_of, looked_up};
ghost use Rattle.gl_functions.specs.Calls.{asks_pattern, given_by, result_of, without_result, value_at, text_at, or_else, text_or_missing, FitsPattern};

use crate::arguments::{copied_at, is_missing_at, is_text_at, is_whole_at, one_misses, text_at};
use crate::asking::{contains, ends_with, has_field, is_id_in, starts_with};
use crate::converting::{to_long, to_string};
use crate::cutting::{split_item, substring, trim};
use crate::making::{concat, lowercase, replace, uppercase};
use crate::matching::{regex_group, regex_matches};
use crate::naming::{abs, length, syslog_facility, syslog_level};
use crate::value::Value;
use crate::world::World;
use gl_check::{Function, Kind};
use gl_fields::FieldMap;
use gl_patterns::Pattern;
use std::alloc::{AllocError, Global};

/// Whether an argument of the function is a pattern, so that `give_by_pattern` answers it.
pub fn asks_pattern(function: Function) -> bool
    ensures { result ≡ asks_pattern function }
{
    matches!(function, Function::RegexMatches | Function::RegexGroup)
}

/// What a function that takes no pattern gives of its arguments, which stand in the order of its parameters, with defaults for
/// those that the call leaves out: what the definitions say, and missing where an action is asked. `fields` are those of the
/// message, and `streams` the ids of the streams in which it is.
pub fn give<'a>(
    alloc: Global,
    function: Function,
    arguments: &[Value<'a>],
    world: &World<'a>,
    fields: &FieldMap,
    streams: &[u64],
) -> Result<Value<'a>, AllocError>
    requires { asks_pattern function ≡ false }
    ensures { IfOk result (λ v. v ≡ bounded (result_of (sight world.now fields.now streams.now) function arguments.now)) }
{
    if one_misses(function.parameters(), arguments) {
        return Ok(without_result(function));
    }
    given(alloc, function, arguments, world, fields, streams)
}

/// What a function that takes a pattern gives of its arguments, with the pattern that was built of the first one. The pattern is as
/// before.
pub fn give_by_pattern<'a>(
    alloc: Global,
    function: Function,
    arguments: &[Value<'a>],
    pattern: &mut Pattern,
) -> Result<Value<'a>, AllocError>
    requires asks { asks_pattern function ≡ true }
    requires fits { FitsPattern pattern.old (value_at 0 arguments.now) }
    ensures value { (s : Sight) → IfOk result (λ v. v ≡ bounded (result_of s function arguments.now)) }
    ensures same { pattern.new ≡ pattern.old }
{
    if one_misses(function.parameters(), arguments) {
        return Ok(without_result(function));
    }
    match function {
        Function::RegexMatches => regex_matches(arguments, pattern),
        _ => regex_group(alloc, arguments, pattern),
    }
}

/// What stands for the result where an argument is missing.
fn without_result<'a>(function: Function) -> Value<'a>
    ensures { result ≡ bounded (without_result (row_of function).gives) }
{
    match function.gives() {
        Some(Kind::Bool) => Value::of_truth(false),
        Some(Kind::Text) => Value::missing(),
        Some(Kind::Whole) => Value::missing(),
        Some(Kind::Any) => Value::missing(),
        None => Value::missing(),
    }
}

/// What a key stands for in a lookup table, or else the default.
fn lookup_value<'a>(
    alloc: Global,
    arguments: &[Value<'a>],
    world: &World<'a>,
) -> Result<Value<'a>, AllocError>
    ensures { IfOk result (λ v. v ≡ bounded (or_else (text_or_missing (looked_up (known_of world.now) (text_at 0 arguments.now) (text_at 1 arguments.now))) (value_at 2 arguments.now))) }
{
    match world.looked_up(text_at(arguments, 0), text_at(arguments, 1)) {
        Some(text) => Ok(Value::of_text(text)),
        None => copied_at(alloc, arguments, 2),
    }
}

/// What a function gives where no argument is missing that mustn't be.
fn given<'a>(
    alloc: Global,
    function: Function,
    arguments: &[Value<'a>],
    world: &World<'a>,
    fields: &FieldMap,
    streams: &[u64],
) -> Result<Value<'a>, AllocError>
    requires { asks_pattern function ≡ false }
    ensures { IfOk result (λ v. v ≡ bounded (given_by (sight world.now fields.now streams.now) function arguments.now)) }
{
    match function {
        Function::HasField => Ok(Value::of_truth(has_field(text_at(arguments, 0), fields))),
        Function::IsNull => Ok(Value::of_truth(is_missing_at(arguments, 0))),
        Function::IsNotNull => Ok(Value::of_truth(!is_missing_at(arguments, 0))),
        Function::IsString => Ok(Value::of_truth(is_text_at(arguments, 0))),
        Function::IsNumber => Ok(Value::of_truth(is_whole_at(arguments, 0))),
        Function::ToString => to_string(alloc, arguments),
        Function::ToLong => to_long(alloc, arguments),
        Function::Contains => contains(alloc, arguments),
        Function::StartsWith => Ok(starts_with(arguments)),
        Function::EndsWith => Ok(ends_with(arguments)),
        Function::RegexMatches => unreachable!(),
        Function::RegexGroup => unreachable!(),
        Function::Lowercase => lowercase(alloc, arguments),
        Function::Uppercase => uppercase(alloc, arguments),
        Function::Trim => trim(alloc, arguments),
        Function::Concat => concat(alloc, arguments),
        Function::Replace => replace(alloc, arguments),
        Function::Substring => substring(alloc, arguments),
        Function::SplitItem => split_item(alloc, arguments),
        Function::Length => Ok(length(arguments)),
        Function::Abs => Ok(abs(arguments)),
        Function::LookupValue => lookup_value(alloc, arguments, world),
        Function::SyslogLevel => Ok(syslog_level(arguments)),
        Function::SyslogFacility => Ok(syslog_facility(arguments)),
        Function::InStream => Ok(Value::of_truth(is_id_in(text_at(arguments, 0), streams))),
        Function::SetField => Ok(Value::missing()),
        Function::RemoveField => Ok(Value::missing()),
        Function::RenameField => Ok(Value::missing()),
        Function::RouteToStream => Ok(Value::missing()),
        Function::RemoveFromStream => Ok(Value::missing()),
        Function::DropMessage => Ok(Value::missing()),
    }
}
