// The fields of an object and of those that nest in it.
ghost use Rattle.std.specs.Prelude.{◌≡◌, ◌∷◌, [], List, Ok, map, IfOk, OnOk};
ghost use Rattle.std.specs.List.{All};
ghost use Rattle.std.specs.Str.{IsUtf8};
ghost use Rattle.std.specs.String.{string_bytes};
ghost use Rattle.gl_fields.specs.declared.value.Value.TheVariants as held;
ghost use Rattle.gl_base.specs.Digits.{whole_of};
ghost use Rattle.gl_json.specs.Grammar.{Pair, IsObjectIn, IsObject, IsObjectText, text, object};
ghost use Rattle.gl_json.specs.Places.{object_of};
ghost use Rattle.gl_json.specs.Escapes.{Says};
ghost use Rattle.gl_json.specs.Flattening.{number_field, IsInside, IsFormed, IsFormedPair, IsKept, IsUnder, Appends, Grows, AreFlat, Flattens};
ghost use Rattle.gl_json.specs.Views.{value_view, pair_view, field_view};

use crate::read::{LEVELS, members_at, read_object};
use crate::refusal::{Halt, JsonRefusal};
use crate::spelling::unescape;
use crate::value::{Member, Raw};
use gl_base::Text;
use gl_base::bytes::behind_first;
use gl_base::whole::whole_of;
use gl_fields::Value;
use std::alloc::{AllocError, Global};
use std::str;

// A text as it stands.
fn plain_value(alloc: Global, bytes: &[u8]) -> Result<Value, AllocError>
    requires { IsUtf8 bytes.now }
    ensures { IfOk result (λ f. f ≡ held.Text bytes.now) }
{
    match str::from_utf8(bytes) {
        Ok(text) => Ok(Value::Text(Text::from_str(alloc, text)?)),
        Err(_) => unreachable!(),
    }
}

fn inside_said(alloc: Global, raw: &[u8]) -> Result<String, AllocError>
    requires { IsInside raw.now }
    ensures { IfOk result (λ s. Says raw.now (string_bytes s)) }
{
    match unescape(alloc, raw) {
        Ok(text) => Ok(text),
        Err(JsonRefusal::OutOfMemory) => Err(AllocError),
        Err(JsonRefusal::NotJson { .. }) => unreachable!(),
        Err(JsonRefusal::TooDeep) => unreachable!(),
    }
}

fn text_value(alloc: Global, raw: &[u8]) -> Result<Value, AllocError>
    requires { IsInside raw.now }
    ensures { IfOk result (λ f. IsKept (text raw.now) f) }
{
    Ok(Value::Text(Text::from_string(inside_said(alloc, raw)?)))
}

fn number_value(alloc: Global, literal: &[u8]) -> Result<Value, AllocError>
    requires { IsUtf8 literal.now }
    ensures { IfOk result (λ f. f ≡ number_field literal.now (whole_of literal.now)) }
{
    match whole_of(literal) {
        Some(number) => Ok(Value::Whole(number)),
        None => plain_value(alloc, literal),
    }
}

fn name_under(alloc: Global, prefix: &str, raw: &[u8]) -> Result<String, AllocError>
    requires { IsInside raw.now }
    ensures { IfOk result (λ s. IsUnder prefix.now raw.now (string_bytes s)) }
{
    let name = inside_said(alloc, raw)?;
    let mut whole = String::from_str(alloc, prefix)?;
    whole.push_str(name.as_str())?;
    Ok(whole)
}

fn keep(
    alloc: Global,
    prefix: &str,
    raw: &[u8],
    value: Value,
    fields: &mut Vec<(String, Value)>,
) -> Result<(), AllocError>
    requires { IsInside raw.now }
    ensures { OnOk result (Appends prefix.now raw.now value (map field_view fields.old.items) (map field_view fields.new.items)) }
{
    let name = name_under(alloc, prefix, raw)?;
    fields.push((name, value))?;
    Ok(())
}

// The members of an object that stands in a text already read.
fn nested_members(alloc: Global, text: &[u8], levels: u32) -> Result<Vec<Member<'_>>, AllocError>
    requires { (ms : List Pair) × IsObject levels text.now ms }
    ensures object { IfOk result (λ v. IsObject levels text.now (map pair_view v.items)) }
    ensures formed { IfOk result (λ v. All (λ m. IsFormedPair levels (pair_view m)) v.items) }
{
    match members_at(alloc, behind_first(text), levels) {
        Ok((members, _)) => Ok(members),
        Err(Halt::OutOfMemory) => Err(AllocError),
        Err(Halt::At(_)) => unreachable!(),
    }
}

#[cycle(fields)]
fn push_members(
    alloc: Global,
    members: &[Member],
    prefix: &str,
    levels: u32,
    fields: &mut Vec<(String, Value)>,
) -> Result<(), AllocError>
    requires { All (λ m. IsFormedPair levels (pair_view m)) members.now }
    ensures { OnOk result (Grows levels prefix.now (map pair_view members.now) (map field_view fields.old.items) (map field_view fields.new.items)) }
{
    for member in members {
        push_member(alloc, member.name, &member.value, prefix, levels, fields)?;
    }
    Ok(())
}

#[cycle(fields)]
fn push_member(
    alloc: Global,
    raw: &[u8],
    value: &Raw,
    prefix: &str,
    levels: u32,
    fields: &mut Vec<(String, Value)>,
) -> Result<(), AllocError>
    requires name { IsInside raw.now }
    requires value { IsFormed levels (value_view value.now) }
    ensures { OnOk result (Grows levels prefix.now ((record { name = raw.now; value = value_view value.now }) ∷ []) (map field_view fields.old.items) (map field_view fields.new.items)) }
{
    match *value {
        Raw::Null => Ok(()),
        Raw::Object(text) => push_object(alloc, raw, text, prefix, levels, fields),
        Raw::Text(inside) => keep(alloc, prefix, raw, text_value(alloc, inside)?, fields),
        Raw::Number(literal) => keep(alloc, prefix, raw, number_value(alloc, literal)?, fields),
        Raw::True => keep(alloc, prefix, raw, plain_value(alloc, b"true")?, fields),
        Raw::False => keep(alloc, prefix, raw, plain_value(alloc, b"false")?, fields),
        Raw::Array(text) => keep(alloc, prefix, raw, plain_value(alloc, text)?, fields),
    }
}

#[cycle(fields)]
fn push_object(
    alloc: Global,
    raw: &[u8],
    text: &[u8],
    prefix: &str,
    levels: u32,
    fields: &mut Vec<(String, Value)>,
) -> Result<(), AllocError>
    requires name { IsInside raw.now }
    requires object { IsObjectIn levels text.now }
    ensures { OnOk result (Grows levels prefix.now ((record { name = raw.now; value = object text.now }) ∷ []) (map field_view fields.old.items) (map field_view fields.new.items)) }
{
    let mut name = name_under(alloc, prefix, raw)?;
    name.push_str("_")?;
    let members = nested_members(alloc, text, levels - 1)?;
    push_members(alloc, members.as_slice(), name.as_str(), levels - 1, fields)
}

/// The fields of the object that a text is, in the order of the text: a text says what it says, a
/// number without fraction and exponent is whole where it has 64 bits, another number and an array
/// stand as their text, true and false as those words, and null gives nothing. A nested object gives
/// its own fields, under its name and `_` before theirs. The texts that are refused, and their
/// places, are those of `read_object`.
pub fn flatten(alloc: Global, text: &[u8]) -> Result<Vec<(String, Value)>, JsonRefusal>
    // What is given are the fields of the members of an object that the text is.
    ensures found { IfOk result (λ v. (ms : List Pair) × IsObjectText text.now ms × AreFlat 63 [] ms (map field_view v.items)) }
    // An object's fields are given.
    ensures only { (ms : List Pair) → IsObjectText text.now ms → Flattens (λ v. map field_view v.items) result (Ok ms) }
    // They are the fields of the members that the text has, and a refusal is that of the text.
    ensures place { Flattens (λ v. map field_view v.items) result (object_of text.now) }
{
    let members = read_object(alloc, text)?;
    let mut fields = Vec::new(alloc);
    match push_members(alloc, members.as_slice(), "", LEVELS, &mut fields) {
        Ok(()) => Ok(fields),
        Err(AllocError) => Err(JsonRefusal::OutOfMemory),
    }
}
