// What converters make of a value.
ghost use Rattle.std.specs.Prelude.{◌≡◌, IfOk};
ghost use Rattle.gl_extract.specs.Converting.{number_of, priority, converted, converted_by};
ghost use Rattle.gl_extract.specs.declared.parts.Converter.TheVariants.{Numeric, Lowercase, Uppercase, SyslogLevel, SyslogFacility};

use crate::Converter;
use gl_base::Text;
use gl_fields::Value;
use gl_text::{facility_name, whole_number};
use std::alloc::{AllocError, Global};

/// The value after these converters, in order.
pub fn converted_by(
    alloc: Global,
    converters: &[Converter],
    mut value: Value,
) -> Result<Value, AllocError>
    ensures { IfOk result (λ v. v ≡ converted_by converters.now value) }
{
    for converter in converters {
        value = converted(alloc, *converter, value)?;
    }
    Ok(value)
}

#[tactic(auto, unfolding(crate::specs::Converting::converted))]
fn converted(alloc: Global, converter: Converter, value: Value) -> Result<Value, AllocError>
    ensures { IfOk result (λ v. v ≡ converted converter value) }
{
    match converter {
        Converter::Numeric => Ok(numeric(value)),
        Converter::Lowercase => lowercase(alloc, value),
        Converter::Uppercase => uppercase(alloc, value),
        Converter::SyslogLevel => Ok(syslog_level(value)),
        Converter::SyslogFacility => syslog_facility(alloc, value),
    }
}

/// The whole number that a value is, or that its text writes.
fn number_of(value: &Value) -> Option<i64>
    ensures { result ≡ number_of value.now }
{
    match value {
        Value::Text(text) => whole_number(text.as_str()),
        Value::Whole(number) => Some(*number),
    }
}

/// The syslog priority that a value is.
fn priority_of(value: &Value) -> Option<u8>
    ensures { result ≡ priority (number_of value.now) }
{
    let number = number_of(value)?;
    if number < 0 || number > 191 {
        return None;
    }
    Some(number as u8)
}

#[tactic(auto, unfolding(crate::specs::Converting::converted))]
fn numeric(value: Value) -> Value
    ensures { result ≡ converted Numeric value }
{
    match number_of(&value) {
        Some(number) => Value::Whole(number),
        None => value,
    }
}

#[tactic(auto, unfolding(crate::specs::Converting::converted))]
fn lowercase(alloc: Global, value: Value) -> Result<Value, AllocError>
    ensures { IfOk result (λ v. v ≡ converted Lowercase value) }
{
    match value {
        Value::Text(text) => Ok(Value::Text(gl_text::lowercase(alloc, text.as_str())?)),
        Value::Whole(number) => Ok(Value::Whole(number)),
    }
}

#[tactic(auto, unfolding(crate::specs::Converting::converted))]
fn uppercase(alloc: Global, value: Value) -> Result<Value, AllocError>
    ensures { IfOk result (λ v. v ≡ converted Uppercase value) }
{
    match value {
        Value::Text(text) => Ok(Value::Text(gl_text::uppercase(alloc, text.as_str())?)),
        Value::Whole(number) => Ok(Value::Whole(number)),
    }
}

/// The severity of a priority (RFC 5424 section 6.2.1).
#[tactic(auto, unfolding(crate::specs::Converting::converted))]
fn syslog_level(value: Value) -> Value
    ensures { result ≡ converted SyslogLevel value }
{
    match priority_of(&value) {
        Some(priority) => Value::Whole(i64::from(priority % 8)),
        None => value,
    }
}

/// The name of the facility of a priority.
#[tactic(auto, unfolding(crate::specs::Converting::converted))]
fn syslog_facility(alloc: Global, value: Value) -> Result<Value, AllocError>
    ensures { IfOk result (λ v. v ≡ converted SyslogFacility value) }
{
    match priority_of(&value) {
        Some(priority) => Ok(Value::Text(Text::from_str(alloc, facility_name(priority / 8))?)),
        None => Ok(value),
    }
}
