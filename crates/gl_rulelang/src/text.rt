ghost use Rattle.std.specs.Prelude.{◌≡◌, ◌<◌, ◌≤◌, ◌^◌, ◌==◌, not, false, length, [], ◌∷◌, ◌++◌, ◌-◌, drop, take, slice_index, slice_index_or, IfNone, option_map, IfOk, IfSome, IsTrue, Some, None, pos};
ghost use Rattle.std.specs.List.{prefix_len};
ghost use Rattle.std.specs.Option.{SomeIff};
ghost use Rattle.gl_rulelang.specs.Tokens.{escaped, unescaped};
ghost use Rattle.std.specs.Char.{is_ascii_digit};
ghost use Rattle.gl_base.specs.Digits.{decimal};
ghost use Rattle.gl_rulelang.specs.Bytes.{in_class, is_letter, is_name_byte, is_blank, is_escape, string_len, comment_len};

use gl_base::Text;
use std::alloc::{AllocError, Global};

/// Kinds of bytes that stand in a row.
#[derive(Clone, Copy, Debug, PartialEq, Eq)]
pub enum Class {
    /// Letters, digits and `_`.
    Name,
    Digit,
    /// All but the backslash.
    Plain,
    /// All but the line feed.
    Line,
    /// All but those that a backslash spells: `"`, the backslash, line feed, carriage return and tab.
    Bare,
}

pub fn is_letter(byte: u8) -> bool
    ensures { result ≡ is_letter byte }
{
    byte.is_ascii_alphabetic() || byte == b'_'
}

/// Space, tab, carriage return and line feed.
pub fn is_blank(byte: u8) -> bool
    ensures { result ≡ is_blank byte }
{
    byte == b' ' || byte == b'\t' || byte == b'\r' || byte == b'\n'
}

fn is_in(class: Class, byte: u8) -> bool
    ensures { result ≡ in_class class byte }
{
    match class {
        Class::Name => is_letter(byte) || byte.is_ascii_digit(),
        Class::Digit => byte.is_ascii_digit(),
        Class::Plain => byte != b'\\',
        Class::Line => byte != b'\n',
        Class::Bare => {
            byte != b'"' && byte != b'\\' && byte != b'\n' && byte != b'\r' && byte != b'\t'
        }
    }
}

/// How many bytes of this class stand at the front.
pub fn run_len(class: Class, bytes: &[u8]) -> usize
    ensures len { result ≡ prefix_len (in_class class) bytes.now }
    ensures within { result ≤ length bytes.now }
{
    for (i, byte) in bytes.iter().enumerate() {
        if !is_in(class, *byte) {
            return i;
        }
    }
    bytes.len()
}

fn is_escape(byte: u8) -> bool
    ensures { result ≡ is_escape byte }
{
    byte == b'"' || byte == b'\\' || byte == b'n' || byte == b'r' || byte == b't'
}

/// How many bytes stand before the quote that ends a string.
pub fn string_len(bytes: &[u8]) -> Option<usize>
    ensures len { result ≡ string_len false bytes.now }
    ensures within { IfSome result (λ len. len < length bytes.now) }
{
    let mut is_escaped = false;
    for (i, byte) in bytes.iter().enumerate() {
        if is_escaped {
            if !is_escape(*byte) {
                return None;
            }
            is_escaped = false;
        } else if *byte == b'"' {
            return Some(i);
        } else {
            is_escaped = *byte == b'\\';
        }
    }
    None
}

/// How many bytes there are up to the end of a comment that `/*` began, with its end.
pub fn comment_len(bytes: &[u8]) -> Option<usize>
    ensures len { result ≡ comment_len false bytes.now }
    ensures within { IfSome result (λ len. len ≤ length bytes.now) }
{
    let mut behind_star = false;
    for (i, byte) in bytes.iter().enumerate() {
        if behind_star && *byte == b'/' {
            return Some(i + 1);
        }
        behind_star = *byte == b'*';
    }
    None
}

/// The number that these digits write, where it is below 2 to the power of 63.
pub fn number(digits: &str) -> Option<i64>
    requires digits { prefix_len is_ascii_digit digits.now ≡ length digits.now }
    requires some { 0 < length digits.now }
    ensures { SomeIff result (decimal 0 digits.now < 2 ^ 63) (pos (decimal 0 digits.now)) }
{
    digits.parse::<i64>().ok()
}

fn escaped(letter: u8) -> char
    requires { letter < 128 }
    ensures { result ≡ escaped letter }
{
    match letter {
        b'n' => '\n',
        b'r' => '\r',
        b't' => '\t',
        _ => letter as char,
    }
}

/// The text behind so many bytes, the last of which is ASCII.
pub fn behind(text: &str, len: usize) -> &str
    requires some { 0 < len }
    requires within { len ≤ length text.now }
    requires ascii { slice_index text.now (len - 1) < 128 }
    ensures { result.now ≡ drop len text.now }
{
    text.split_at(len).1
}

/// So many bytes of the text, the last of which is ASCII.
pub fn before(text: &str, len: usize) -> &str
    requires some { 0 < len }
    requires within { len ≤ length text.now }
    requires ascii { slice_index text.now (len - 1) < 128 }
    ensures { result.now ≡ take len text.now }
{
    text.split_at(len).0
}

/// What is spelled behind a quote up to the next, which so many bytes stand before.
pub fn quoted(text: &str, len: usize) -> &str
    requires { string_len false text.now ≡ Some len }
    ensures { result.now ≡ take len text.now }
{
    text.split_at(len).0
}

/// What stands before the first backslash, and the text from there on.
fn split_plain(text: &str) -> (&str, &str)
    ensures plain { unescaped text.now ≡ result.0.now ++ unescaped result.1.now }
    ensures escape { slice_index_or result.1.now 0 92 ≡ 92 }
    ensures shorter { length result.1.now ≤ length text.now }
{
    text.split_at(run_len(Class::Plain, text.as_bytes()))
}

/// The ASCII letter behind a backslash, where there is one.
fn letter_of(text: &str) -> Option<u8>
    requires { slice_index_or text.now 0 92 ≡ 92 }
    ensures letter { IfSome result (λ letter. (letter < 128) × (2 ≤ length text.now) × (slice_index text.now 1 ≡ letter)
        × (unescaped text.now ≡ escaped letter ∷ unescaped (drop 2 text.now))) }
    ensures none { IfNone result (unescaped text.now ≡ unescaped (drop 1 text.now)) }
{
    match text.as_bytes() {
        [_, letter, ..] if *letter < 128 => Some(*letter),
        _ => None,
    }
}

/// The string that these bytes spell between their quotes.
pub fn unescape(alloc: Global, spelled: &str) -> Result<Text, AllocError>
    ensures { IfOk result (λ t. t ≡ unescaped spelled.now) }
{
    let mut out = String::new(alloc);
    let mut rest = spelled;
    while !rest.is_empty() {
        let (plain, escape) = split_plain(rest);
        out.push_str(plain)?;
        if escape.is_empty() {
            return Ok(Text::from_string(out));
        }
        match letter_of(escape) {
            Some(letter) => {
                out.push(escaped(letter))?;
                rest = behind(escape, 2);
            }
            None => rest = behind(escape, 1),
        }
    }
    Ok(Text::from_string(out))
}
