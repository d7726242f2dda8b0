// Functions that make a new text.
ghost use Rattle.std.specs.Prelude.{◌≡◌, ◌++◌, IfOk, string_bytes};
ghost use Rattle.gl_check.specs.Values.{bounded, text};
ghost use Rattle.gl_text.specs.Changing.{lowercase, uppercase, replaced};
ghost use Rattle.gl_functions.specs.Calls.{text_at};

use crate::arguments::text_at;
use crate::value::{MAX_TEXT, Value};
use std::alloc::{AllocError, Global};

/// With each ASCII letter in lower case.
pub fn lowercase<'a>(alloc: Global, arguments: &[Value<'_>]) -> Result<Value<'a>, AllocError>
    ensures { IfOk result (λ v. v ≡ bounded (text (lowercase (text_at 0 arguments.now)))) }
{
    match text_at(arguments, 0).to_ascii_lowercase(alloc) {
        Ok(text) => Ok(Value::of_owned(text)),
        Err(error) => Err(error),
    }
}

/// With each ASCII letter in upper case.
pub fn uppercase<'a>(alloc: Global, arguments: &[Value<'_>]) -> Result<Value<'a>, AllocError>
    ensures { IfOk result (λ v. v ≡ bounded (text (uppercase (text_at 0 arguments.now)))) }
{
    match text_at(arguments, 0).to_ascii_uppercase(alloc) {
        Ok(text) => Ok(Value::of_owned(text)),
        Err(error) => Err(error),
    }
}

/// Both texts, one behind the other.
pub fn concat<'a>(alloc: Global, arguments: &[Value<'_>]) -> Result<Value<'a>, AllocError>
    ensures { IfOk result (λ v. v ≡ bounded (text (text_at 0 arguments.now ++ text_at 1 arguments.now))) }
{
    let first = text_at(arguments, 0);
    let second = text_at(arguments, 1);
    match joined(alloc, first, second) {
        Ok(text) => Ok(Value::of_owned(text)),
        Err(error) => Err(error),
    }
}

fn joined(alloc: Global, first: &str, second: &str) -> Result<String, AllocError>
    ensures { IfOk result (λ s. string_bytes s ≡ first.now ++ second.now) }
{
    let mut text = String::from_str(alloc, first)?;
    text.push_str(second)?;
    Ok(text)
}

/// With another part in the place of each occurrence of one, taken from the left.
pub fn replace<'a>(alloc: Global, arguments: &[Value<'_>]) -> Result<Value<'a>, AllocError>
    ensures { IfOk result (λ v. v ≡ bounded (text (replaced (text_at 1 arguments.now) (text_at 2 arguments.now) (text_at 0 arguments.now)))) }
{
    let text = text_at(arguments, 0);
    let part = text_at(arguments, 1);
    let new = text_at(arguments, 2);
    match gl_text::replaced(alloc, text, part, new, MAX_TEXT) {
        Ok(Some(text)) => Value::copied(alloc, text.as_str()),
        Ok(None) => Ok(Value::missing()),
        Err(error) => Err(error),
    }
}
