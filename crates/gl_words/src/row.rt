// The words of a row, put in and taken out.
ghost use Rattle.std.specs.Prelude.{◌≡◌, ℕ, List, map, OnOk, OnErr};
ghost use Rattle.std.specs.Char.{to_ascii_lowercase};
ghost use Rattle.gl_query.specs.Required.{has_required, is_number};
ghost use Rattle.gl_words.specs.Inside.{Changes, StaysBesides, is_same, kept_in};
ghost use Rattle.gl_words.specs.Positions.{with_position, without_position};
ghost use Rattle.gl_words.specs.Texts.{field_has, some_has, text_has};

use crate::table::{put_word, take_word};
use crate::word::Bucket;
use gl_fields::{Field, Value};
use gl_indexset::Row;
use gl_query::next_token;
use std::alloc::{AllocError, Global};
use std::collections::HashMap;

// Digits alone.
fn is_number(token: &[u8]) -> bool
    ensures { result ≡ is_number token.now }
{
    token.iter().all(|byte| byte.is_ascii_digit())
}

// Puts a position to a token that isn't digits alone.
fn put_token(
    words: &mut HashMap<u64, Bucket>,
    alloc: Global,
    name: &[u8],
    token: &[u8],
    position: u64,
) -> Result<(), AllocError>
    ensures ok { OnOk result (Changes (with_position position) (is_same name.now (map to_ascii_lowercase token.now)) (kept_in words.old) (kept_in words.new)) }
    ensures err { OnErr result ((g s : List ℕ) → kept_in words.new g s ≡ kept_in words.old g s) }
{
    if is_number(token) {
        return Ok(());
    }
    put_word(words, alloc, name, token, position)
}

// Puts a position to each token of a text.
fn put_text(
    words: &mut HashMap<u64, Bucket>,
    alloc: Global,
    name: &[u8],
    text: &[u8],
    position: u64,
) -> Result<(), AllocError>
    ensures ok { OnOk result (Changes (with_position position) (text_has name.now text.now) (kept_in words.old) (kept_in words.new)) }
    ensures err { OnErr result (StaysBesides position (text_has name.now text.now) (kept_in words.old) (kept_in words.new)) }
{
    let mut text = text;
    while let Some((token, rest)) = next_token(text) {
        put_token(words, alloc, name, token, position)?;
        text = rest;
    }
    Ok(())
}

fn put_field(
    words: &mut HashMap<u64, Bucket>,
    alloc: Global,
    field: &Field,
    position: u64,
) -> Result<(), AllocError>
    ensures ok { OnOk result (Changes (with_position position) (field_has field.now) (kept_in words.old) (kept_in words.new)) }
    ensures err { OnErr result (StaysBesides position (field_has field.now) (kept_in words.old) (kept_in words.new)) }
{
    match &field.value {
        Value::Text(text) => put_text(
            words,
            alloc,
            field.name.as_str().as_bytes(),
            text.as_str().as_bytes(),
            position,
        ),
        Value::Whole(_) => Ok(()),
    }
}

fn put_fields(
    words: &mut HashMap<u64, Bucket>,
    alloc: Global,
    fields: &[Field],
    position: u64,
) -> Result<(), AllocError>
    ensures ok { OnOk result (Changes (with_position position) (some_has fields.now) (kept_in words.old) (kept_in words.new)) }
    ensures err { OnErr result (StaysBesides position (some_has fields.now) (kept_in words.old) (kept_in words.new)) }
{
    let mut left = fields;
    while let [field, rest @ ..] = left {
        put_field(words, alloc, field, position)?;
        left = rest;
    }
    Ok(())
}

/// Puts the position of a row to each of its words. After an error it may stand at some of them.
pub(crate) fn put_row(
    words: &mut HashMap<u64, Bucket>,
    alloc: Global,
    row: &Row,
) -> Result<(), AllocError>
    ensures ok { OnOk result (Changes (with_position row.now.position) (λ field token. has_required (field, token) row.now.fields) (kept_in words.old) (kept_in words.new)) }
    ensures err { OnErr result (StaysBesides row.now.position (λ field token. has_required (field, token) row.now.fields) (kept_in words.old) (kept_in words.new)) }
{
    let fields = row.fields.get();
    let _count = fields.len();
    put_fields(words, alloc, fields.as_slice(), row.position)
}

// Takes a position from a token that isn't digits alone.
fn take_token(words: &mut HashMap<u64, Bucket>, name: &[u8], token: &[u8], position: u64)
    ensures { Changes (without_position position) (is_same name.now (map to_ascii_lowercase token.now)) (kept_in words.old) (kept_in words.new) }
{
    if is_number(token) {
        return;
    }
    take_word(words, name, token, position);
}

// Takes a position from each token of a text.
fn take_text(words: &mut HashMap<u64, Bucket>, name: &[u8], text: &[u8], position: u64)
    ensures { Changes (without_position position) (text_has name.now text.now) (kept_in words.old) (kept_in words.new) }
{
    let mut text = text;
    while let Some((token, rest)) = next_token(text) {
        take_token(words, name, token, position);
        text = rest;
    }
}

fn take_field(words: &mut HashMap<u64, Bucket>, field: &Field, position: u64)
    ensures { Changes (without_position position) (field_has field.now) (kept_in words.old) (kept_in words.new) }
{
    match &field.value {
        Value::Text(text) => take_text(
            words,
            field.name.as_str().as_bytes(),
            text.as_str().as_bytes(),
            position,
        ),
        Value::Whole(_) => {}
    }
}

fn take_fields(words: &mut HashMap<u64, Bucket>, fields: &[Field], position: u64)
    ensures { Changes (without_position position) (some_has fields.now) (kept_in words.old) (kept_in words.new) }
{
    let mut left = fields;
    while let [field, rest @ ..] = left {
        take_field(words, field, position);
        left = rest;
    }
}

/// Takes the position of a row from each of its words. It takes no memory.
pub(crate) fn take_row(words: &mut HashMap<u64, Bucket>, row: &Row)
    ensures { Changes (without_position row.now.position) (λ field token. has_required (field, token) row.now.fields) (kept_in words.old) (kept_in words.new) }
{
    let fields = row.fields.get();
    let _count = fields.len();
    take_fields(words, fields.as_slice(), row.position);
}
