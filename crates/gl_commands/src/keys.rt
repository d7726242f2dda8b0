// What stands at a key of an object.
ghost use Rattle.std.specs.Prelude.{◌≡◌, option_map};
ghost use Rattle.gl_text.specs.Ids.{read_id};
ghost use Rattle.serde_json.specs.Find.{as_str, as_bool, as_array};
ghost use Rattle.serde_json.specs.View.{view, items_view};
ghost use Rattle.gl_commands.specs.CommandReading.{at, as_whole, said_at, number_at, kind_named, test_named, width, Gives, Reads};

use crate::TestKind;
use crate::names::{kind_named, test_named};
use crate::unread::Unread;
use gl_base::Text;
use gl_fields::InputKind;
use gl_text::read_id;
use serde_json::Value;
use std::alloc::Global;

/// The largest number that isn't an id: 2^53.
const MAX_NUMBER: u64 = 9_007_199_254_740_992;

pub fn str_at<'a>(value: &'a Value, key: &str) -> Option<&'a str>
    ensures { option_map (λ text. text.now) result ≡ at as_str key.now (view value.now) }
{
    value.get(key).and_then(Value::as_str)
}

pub fn text_at(alloc: Global, value: &Value, key: &str) -> Result<Text, Unread>
    ensures { Reads result (at as_str key.now (view value.now)) }
{
    let text = str_at(value, key).ok_or(Unread::Other)?;
    Ok(Text::from_str(alloc, text)?)
}

pub fn bool_at(value: &Value, key: &str) -> Result<bool, Unread>
    ensures { Reads result (at as_bool key.now (view value.now)) }
{
    value.get(key).and_then(Value::as_bool).ok_or(Unread::Other)
}

fn whole_at(value: &Value, key: &str) -> Option<u64>
    ensures { result ≡ at as_whole key.now (view value.now) }
{
    value.get(key).and_then(Value::as_u64)
}

pub fn number_at(value: &Value, key: &str) -> Result<u64, Unread>
    ensures { Reads result (number_at key.now (view value.now)) }
{
    let number = whole_at(value, key).ok_or(Unread::Other)?;
    if number > MAX_NUMBER {
        return Err(Unread::Other);
    }
    Ok(number)
}

pub fn id_at(value: &Value, key: &str) -> Result<u64, Unread>
    ensures { Reads result (said_at read_id key.now (view value.now)) }
{
    let text = str_at(value, key).ok_or(Unread::Other)?;
    read_id(text).ok_or(Unread::Other)
}

pub fn kind_at(value: &Value, key: &str) -> Result<InputKind, Unread>
    ensures { Reads result (said_at kind_named key.now (view value.now)) }
{
    let name = str_at(value, key).ok_or(Unread::Other)?;
    kind_named(name).ok_or(Unread::Other)
}

pub fn test_at(value: &Value, key: &str) -> Result<TestKind, Unread>
    ensures { Reads result (said_at test_named key.now (view value.now)) }
{
    let name = str_at(value, key).ok_or(Unread::Other)?;
    test_named(name).ok_or(Unread::Other)
}

pub fn values_at<'a>(value: &'a Value, key: &str) -> Result<&'a [Value], Unread>
    ensures { Gives (λ values. items_view values.now) result (at as_array key.now (view value.now)) }
{
    match value.get(key).and_then(Value::as_array) {
        Some(values) => Ok(values.as_slice()),
        None => Err(Unread::Other),
    }
}

/// How many keys an object has; 0 for what isn't one.
pub fn key_count(value: &Value) -> usize
    ensures { result ≡ width (view value.now) }
{
    match value.as_object() {
        Some(members) => members.len(),
        None => 0,
    }
}
