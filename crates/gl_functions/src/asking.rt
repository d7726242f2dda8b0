// Functions that ask: whether a part stands in a text, or a message in a stream.
ghost use Rattle.std.specs.Prelude.{◌≡◌, IfOk, is_some};
ghost use Rattle.std.specs.List.{list_any};
ghost use Rattle.std.specs.Str.{bytes_eq};
ghost use Rattle.gl_fields.specs.Fields.{value_of};
ghost use Rattle.gl_text.specs.Ids.{id_text, read_id};
ghost use Rattle.gl_text.specs.Texts.{contains, begins_with, ends_with};
ghost use Rattle.gl_functions.specs.Calls.{looks_for};

use crate::arguments::{text_at, truth_at};
use crate::searching;
use crate::value::Value;
use gl_fields::FieldMap;
use gl_text::{law_ids_read_back, read_id};
use std::alloc::{AllocError, Global};

pub fn contains<'a>(alloc: Global, arguments: &[Value<'_>]) -> Result<Value<'a>, AllocError>
    ensures { IfOk result (λ v. v ≡ looks_for contains arguments.now) }
{
    let text = text_at(arguments, 0);
    let part = text_at(arguments, 1);
    if truth_at(arguments, 2) {
        match gl_text::contains_any_case(alloc, text, part) {
            Ok(yes) => Ok(Value::of_truth(yes)),
            Err(error) => Err(error),
        }
    } else {
        Ok(Value::of_truth(searching::contains(text, part)))
    }
}

pub fn starts_with<'a>(arguments: &[Value<'_>]) -> Value<'a>
    ensures { result ≡ looks_for begins_with arguments.now }
{
    let text = text_at(arguments, 0);
    let part = text_at(arguments, 1);
    if truth_at(arguments, 2) {
        Value::of_truth(gl_text::starts_with_any_case(text, part))
    } else {
        Value::of_truth(gl_text::starts_with(text, part))
    }
}

pub fn ends_with<'a>(arguments: &[Value<'_>]) -> Value<'a>
    ensures { result ≡ looks_for ends_with arguments.now }
{
    let text = text_at(arguments, 0);
    let part = text_at(arguments, 1);
    if truth_at(arguments, 2) {
        Value::of_truth(gl_text::ends_with_any_case(text, part))
    } else {
        Value::of_truth(gl_text::ends_with(text, part))
    }
}

/// Whether the field is there.
pub fn has_field(name: &str, fields: &FieldMap) -> bool
    ensures { result ≡ is_some (value_of name.now fields.now) }
{
    match fields.get(name) {
        Some(_) => true,
        None => false,
    }
}

/// Whether an id, as text, is among these ids.
pub fn is_id_in(text: &str, ids: &[u64]) -> bool
    ensures { result ≡ list_any (λ id. bytes_eq text.now (id_text id)) ids.now }
{
    let wanted = read_id(text);
    let mut rest = ids;
    while let [id, behind @ ..] = rest {
        if is_id_of(text, wanted, *id) {
            return true;
        }
        rest = behind;
    }
    false
}

/// Whether a text, of which this id was read, is that of an id.
pub fn is_id_of(text: &str, wanted: Option<u64>, id: u64) -> bool
    requires { wanted ≡ read_id text.now }
    ensures { result ≡ bytes_eq text.now (id_text id) }
{
    law_ids_read_back();
    match wanted {
        Some(wanted) => wanted == id,
        None => false,
    }
}
