// What a string says.
ghost use Rattle.std.specs.Prelude.{◌≡◌, ◌==◌, ◌<◌, ◌^◌, ◌++◌, ◌∷◌, [], true, List, ℕ, Option, None, Some, Ok, length, map, IfOk, OnOk, IfSome};
ghost use Rattle.std.specs.List.{list_any};
ghost use Rattle.std.specs.Str.{IsUtf8};
ghost use Rattle.std.specs.String.{string_bytes};
ghost use Rattle.gl_json.specs.Chars.{AreChars, inside, is_char};
ghost use Rattle.gl_json.specs.Escapes.{meaning, hex_value, code_unit, is_high, is_low, replacement, lone, scalar_text, surrogate_pair, unit_alone, unit_text, char_text, waits, Says, said_by, chars_of, text_of, decoded};
ghost use Rattle.gl_json.specs.Flattening.{IsInside};
ghost use Rattle.gl_json.specs.declared.chars.Char.{Char};
ghost use Rattle.gl_json.specs.Places.{Answers, Halts};

use crate::bytes;
use crate::chars::{self, Char};
use crate::read::refusal_of;
use crate::refusal::{Halt, JsonRefusal};
use std::alloc::{AllocError, Global};
use std::str;

// U+FFFD.
const REPLACEMENT: [u8; 3] = [0xef, 0xbf, 0xbd];

/// The text that a string says, from the bytes between its quotes. `\u` escapes of two surrogates
/// are one character, and one without its pair is U+FFFD.
pub fn unescape(alloc: Global, raw: &[u8]) -> Result<String, JsonRefusal>
    // What is read is what these bytes say.
    ensures found { IfOk result (λ s. Says raw.now (string_bytes s)) }
    // The inside of a string is read.
    ensures only { (cs : List Char) → AreChars cs → raw.now ≡ inside cs → Answers (λ s. string_bytes s) result (Ok (decoded cs)) }
    // Which place it is.
    ensures place { Answers (λ s. string_bytes s) result (text_of raw.now) }
{
    text_of(alloc, raw)
}

// A text as it stands.
fn plain(bytes: &[u8]) -> &str
    requires { IsUtf8 bytes.now }
    ensures { result.now ≡ bytes.now }
{
    match str::from_utf8(bytes) {
        Ok(text) => text,
        Err(_) => unreachable!(),
    }
}

/// What the bytes between the quotes of a string say, where they say it as it is written: in them no backslash stands.
#[tactic(auto, using(crate::proofs::Saying::read_as_written))]
pub fn as_written(raw: &[u8]) -> Option<&str>
    requires { IsInside raw.now }
    ensures written { IfSome result (λ text. text_of raw.now ≡ Ok text.now) }
    ensures escaped { result ≡ None → list_any (λ b. b == 92) raw.now ≡ true }
{
    if raw.contains(&b'\\') {
        return None;
    }
    Some(plain(raw))
}

#[tactic(auto, unfolding(crate::specs::Escapes::text_of))]
fn text_of(alloc: Global, raw: &[u8]) -> Result<String, JsonRefusal>
    ensures { Answers (λ s. string_bytes s) result (text_of raw.now) }
{
    match said(alloc, raw) {
        Ok(text) => Ok(text),
        Err(Halt::At(stop)) => Err(refusal_of(raw, stop)),
        Err(Halt::OutOfMemory) => Err(JsonRefusal::OutOfMemory),
    }
}

fn said(alloc: Global, raw: &[u8]) -> Result<String, Halt>
    ensures { Halts (λ s. string_bytes s) result (said_by None (chars_of (length raw.now) raw.now)) }
{
    let mut text = Vec::with_capacity(alloc, raw.len())?;
    let mut waiting = None;
    let mut rest = raw;
    while !rest.is_empty() {
        let behind = chars::past_plain(rest);
        if behind.len() < rest.len() {
            push_plain(&mut text, waiting, bytes::before(behind, rest))?;
            waiting = None;
            rest = behind;
            continue;
        }
        let (char, behind) = chars::char_at(rest)?;
        push_char(&mut text, waiting, char)?;
        waiting = waits(char);
        rest = behind;
    }
    push_lone(&mut text, waiting)?;
    match String::from_utf8(text) {
        Ok(text) => Ok(text),
        Err(_) => unreachable!(),
    }
}

fn meaning(byte: u8) -> u8
    ensures { result ≡ meaning byte }
{
    match byte {
        b'b' => 8,
        b'f' => 12,
        b'n' => b'\n',
        b'r' => b'\r',
        b't' => b'\t',
        _ => byte,
    }
}

fn hex_value(digit: u8) -> u32
    ensures value { result ≡ hex_value digit }
    ensures few { result < 16 }
{
    if 48 <= digit && digit <= 57 {
        return (digit - 48) as u32;
    }
    if 65 <= digit && digit <= 70 {
        return (digit - 55) as u32;
    }
    if 97 <= digit && digit <= 102 {
        return (digit - 87) as u32;
    }
    0
}

fn code_unit(a: u8, b: u8, c: u8, d: u8) -> u32
    ensures value { result ≡ code_unit a b c d }
    ensures few { result < 65536 }
{
    hex_value(a) * 4096 + hex_value(b) * 256 + hex_value(c) * 16 + hex_value(d)
}

fn is_high(unit: u32) -> bool
    ensures { result ≡ is_high unit }
{
    55296 <= unit && unit <= 56319
}

fn is_low(unit: u32) -> bool
    ensures { result ≡ is_low unit }
{
    56320 <= unit && unit <= 57343
}

#[tactic(auto, unfolding(crate::specs::Escapes::waits))]
fn waits(char: Char) -> Option<u32>
    ensures waits { result ≡ waits char }
    ensures high { IfSome result (λ h. is_high h ≡ true) }
{
    match char {
        Char::Unicode(a, b, c, d) => {
            let unit = code_unit(a, b, c, d);
            if is_high(unit) { Some(unit) } else { None }
        }
        _ => None,
    }
}

fn push_lone(text: &mut Vec<u8>, waiting: Option<u32>) -> Result<(), AllocError>
    ensures { OnOk result (text.new.items ≡ text.old.items ++ lone waiting) }
{
    if waiting.is_some() {
        text.extend_from_slice(REPLACEMENT.as_slice())?;
    }
    Ok(())
}

fn push_plain(text: &mut Vec<u8>, waiting: Option<u32>, plain: &[u8]) -> Result<(), AllocError>
    ensures { OnOk result (text.new.items ≡ (text.old.items ++ lone waiting) ++ plain.now) }
{
    push_lone(text, waiting)?;
    text.extend_from_slice(plain)
}

fn push_scalar(text: &mut Vec<u8>, code: u32) -> Result<(), AllocError>
    requires { code < 1114112 }
    ensures { OnOk result (text.new.items ≡ text.old.items ++ scalar_text code) }
{
    match char::from_u32(code) {
        Some(char) => {
            let mut buffer = [0; 4];
            text.extend_from_slice(char.encode_utf8(&mut buffer).as_bytes())?;
        }
        None => text.extend_from_slice(REPLACEMENT.as_slice())?,
    }
    Ok(())
}

fn push_alone(text: &mut Vec<u8>, unit: u32) -> Result<(), AllocError>
    requires { unit < 65536 }
    ensures { OnOk result (text.new.items ≡ text.old.items ++ unit_alone unit) }
{
    if is_high(unit) {
        return Ok(());
    }
    push_scalar(text, unit)
}

fn push_unit(text: &mut Vec<u8>, waiting: Option<u32>, unit: u32) -> Result<(), AllocError>
    requires high { IfSome waiting (λ h. is_high h ≡ true) }
    requires few { unit < 65536 }
    ensures { OnOk result (text.new.items ≡ text.old.items ++ unit_text waiting unit) }
{
    match waiting {
        None => push_alone(text, unit),
        Some(high) => {
            if is_low(unit) {
                return push_scalar(text, 65536 + (high - 55296) * 1024 + (unit - 56320));
            }
            text.extend_from_slice(REPLACEMENT.as_slice())?;
            push_alone(text, unit)
        }
    }
}

#[tactic(auto, unfolding(crate::specs::Escapes::char_text))]
fn push_char(text: &mut Vec<u8>, waiting: Option<u32>, char: Char) -> Result<(), AllocError>
    requires { IfSome waiting (λ h. is_high h ≡ true) }
    ensures { OnOk result (text.new.items ≡ text.old.items ++ char_text waiting char) }
{
    if let Char::Unicode(a, b, c, d) = char {
        return push_unit(text, waiting, code_unit(a, b, c, d));
    }
    push_lone(text, waiting)?;
    match char {
        Char::One(a) => text.push(a)?,
        Char::Two(a, b) => text.extend_from_slice([a, b].as_slice())?,
        Char::Three(a, b, c) => text.extend_from_slice([a, b, c].as_slice())?,
        Char::Four(a, b, c, d) => text.extend_from_slice([a, b, c, d].as_slice())?,
        Char::Escape(b) => text.push(meaning(b))?,
        Char::Unicode(_, _, _, _) => {}
    }
    Ok(())
}
