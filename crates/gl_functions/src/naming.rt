// Functions of whole numbers and of the length of a text.
ghost use Rattle.std.specs.Prelude.{◌≡◌, pos, length, unsigned_abs};
ghost use Rattle.std.specs.Str.{chars};
ghost use Rattle.gl_check.specs.Values.{bounded, whole};
ghost use Rattle.gl_text.specs.SyslogNames.{severity_name, facility_name};
ghost use Rattle.gl_functions.specs.Calls.{text_at, number_at, from_zero_on, name_below};

use crate::arguments::{natural_at, number_at, text_at};
use crate::computing::of_checked;
use crate::value::Value;
use gl_text::character_count;

/// How many characters.
pub fn length<'a>(arguments: &[Value<'_>]) -> Value<'a>
    ensures { result ≡ bounded (whole (pos (length (chars (text_at 0 arguments.now))))) }
{
    match i64::try_from(character_count(text_at(arguments, 0))) {
        Ok(count) => Value::of_whole(count),
        Err(_) => Value::missing(),
    }
}

/// The number without its sign; missing for the least one.
pub fn abs<'a>(arguments: &[Value<'_>]) -> Value<'a>
    ensures { result ≡ bounded (whole (pos (unsigned_abs (number_at 0 arguments.now)))) }
{
    of_checked(number_at(arguments, 0).checked_abs())
}

/// The name of a severity, 0 to 7.
pub fn syslog_level<'a>(arguments: &[Value<'_>]) -> Value<'a>
    ensures { result ≡ bounded (from_zero_on (name_below 8 severity_name) (number_at 0 arguments.now)) }
{
    match natural_at(arguments, 0) {
        Some(number) => level_named(number),
        None => Value::missing(),
    }
}

fn level_named<'a>(number: u64) -> Value<'a>
    ensures { result ≡ bounded (name_below 8 severity_name number) }
{
    if number < 8 {
        Value::of_text(gl_text::severity_name(number as u8))
    } else {
        Value::missing()
    }
}

/// The name of a facility, 0 to 23.
pub fn syslog_facility<'a>(arguments: &[Value<'_>]) -> Value<'a>
    ensures { result ≡ bounded (from_zero_on (name_below 24 facility_name) (number_at 0 arguments.now)) }
{
    match natural_at(arguments, 0) {
        Some(number) => facility_named(number),
        None => Value::missing(),
    }
}

fn facility_named<'a>(number: u64) -> Value<'a>
    ensures { result ≡ bounded (name_below 24 facility_name number) }
{
    if number < 24 {
        Value::of_text(gl_text::facility_name(number as u8))
    } else {
        Value::missing()
    }
}
