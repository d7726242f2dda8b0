// Structured data and the message behind it.
ghost use Rattle.std.specs.Prelude.{◌≡◌, ◌==◌, ◌&&◌, ◌≤◌, ◌<◌, ◌+◌, ◌-◌, ◌++◌, ◌∷◌, [], ℕ, List, true, false, length, slice_index, take, drop, IfOk, IfSome, IfNone, Some, option_map};
ghost use Rattle.std.specs.List.{prefix_len};
ghost use Rattle.gl_syslogtext.specs.Sections.{Gives, split};
ghost use Rattle.gl_syslogtext.specs.Data.{is_sd_byte, sd_name_at, is_special, escapes, value_len, unescaped, value_at, param_at, params_at, element_at, many_at, elements_at, data_at, has_bom, without_bom, message_of};
ghost use Rattle.std.specs.String.{string_bytes};

use crate::Element;
use crate::sections::byte_at;
use crate::stamp::cut;
use crate::unread::Unread;
use gl_base::{Items, Text};
use std::alloc::{AllocError, Global};

pub const MAX_SD_NAME: usize = 32;

pub fn is_sd_byte(b: u8) -> bool
    ensures value { result ≡ is_sd_byte b }
{
    (b >= 33 && b <= 126) && !(b == b'=' || b == b']' || b == b'"')
}

/// How many bytes of a name stand at the front.
fn sd_name_len(bytes: &[u8]) -> usize
    ensures len { result ≡ prefix_len is_sd_byte bytes.now }
    ensures within { result ≤ length bytes.now }
{
    for (i, byte) in bytes.iter().enumerate() {
        if !is_sd_byte(*byte) {
            return i;
        }
    }
    bytes.len()
}

/// A name at the front, and what follows it.
#[tactic(auto, unfolding(crate::specs::Data::sd_name_at))]
fn sd_name_at(text: &str) -> Result<(&str, &str), Unread>
    ensures name { Gives (λ x. (x.0.now, x.1.now)) result (sd_name_at text.now) }
    ensures shorter { IfOk result (λ x. length x.1.now < length text.now) }
{
    let len = sd_name_len(text.as_bytes());
    if len < 1 || len > MAX_SD_NAME {
        return Err(Unread::Other);
    }
    Ok(cut(text, len))
}

pub fn is_special(b: u8) -> bool
    ensures { result ≡ is_special b }
{
    b == b'"' || b == b'\\' || b == b']'
}

/// Whether the byte at a place is a backslash that escapes the next one.
fn escapes_at(bytes: &[u8], at: usize) -> bool
    requires { at < length bytes.now }
    ensures { result ≡ escapes (slice_index bytes.now at) (drop (at + 1) bytes.now) }
{
    bytes[at] == b'\\' && is_special(byte_at(bytes, at + 1))
}

/// How many bytes of a value stand before the quote that ends it.
fn value_len(bytes: &[u8]) -> Option<usize>
    ensures len { result ≡ value_len false bytes.now }
    ensures within { IfSome result (λ n. n < length bytes.now) }
{
    let mut is_escaped = false;
    for i in 0..bytes.len() {
        if is_escaped {
            is_escaped = false;
        } else if bytes[i] == b'"' {
            return Some(i);
        } else if bytes[i] == b']' {
            return None;
        } else {
            is_escaped = escapes_at(bytes, i);
        }
    }
    None
}

/// The value that is spelled in so many bytes.
fn before_quote(text: &str, len: usize) -> &str
    requires { value_len false text.now ≡ Some len }
    ensures { result.now ≡ take len text.now }
{
    text.split_at(len).0
}

/// The byte at the front, where it is one that a backslash escapes.
fn special_front(text: &str) -> bool
    ensures value { result ≡ is_special (slice_index text.now 0) }
    ensures some { result ≡ true → 0 < length text.now }
    ensures ascii { result ≡ true → slice_index text.now 0 < 128 }
{
    is_special(byte_at(text.as_bytes(), 0))
}

/// What stands before the first backslash and behind it.
fn split_backslash(text: &str) -> Option<(&str, &str)>
    ensures { option_map (λ x. (x.0.now, x.1.now)) result ≡ split 92 text.now }
{
    text.split_once('\\')
}

/// What stands for itself before the first backslash, and what stands behind that.
fn next_backslash(text: &str) -> Option<(&str, &str)>
    ensures cut { IfSome result (λ x. unescaped false text.now ≡ x.0.now ++ unescaped false (92 ∷ x.1.now)) }
    ensures shorter { IfSome result (λ x. length x.1.now < length text.now) }
    ensures none { IfNone result (unescaped false text.now ≡ text.now) }
{
    match split_backslash(text) {
        Some((plain, behind)) => Some((plain, behind)),
        None => None,
    }
}

/// Takes what a backslash and the text behind it begin with, and gives the rest.
fn push_escaped<'t>(out: &mut String<Global>, behind: &'t str) -> Result<&'t str, AllocError>
    ensures spelled { IfOk result (λ rest. string_bytes out.new ++ unescaped false rest.now ≡ string_bytes out.old ++ unescaped false (92 ∷ behind.now)) }
    ensures shorter { IfOk result (λ rest. length rest.now ≤ length behind.now) }
{
    if special_front(behind) {
        let (escaped, rest) = cut(behind, 1);
        out.push_str(escaped)?;
        return Ok(rest);
    }
    out.push_str("\\")?;
    Ok(behind)
}

/// A value without the backslashes that escape.
fn unescape(alloc: Global, spelled: &str) -> Result<Text, AllocError>
    ensures { IfOk result (λ t. t ≡ unescaped false spelled.now) }
{
    let mut out = String::new(alloc);
    let mut rest = spelled;
    while let Some((plain, behind)) = next_backslash(rest) {
        out.push_str(plain)?;
        rest = push_escaped(&mut out, behind)?;
    }
    out.push_str(rest)?;
    Ok(Text::from_string(out))
}

/// Whether `="` stands at the front.
fn is_equals_quote(text: &str) -> bool
    ensures value { result ≡ (slice_index text.now 0 == 61 && slice_index text.now 1 == 34) }
    ensures within { result ≡ true → 2 ≤ length text.now }
    ensures ascii { result ≡ true → slice_index text.now 1 < 128 }
{
    byte_at(text.as_bytes(), 0) == b'=' && byte_at(text.as_bytes(), 1) == b'"'
}

/// The value up to its quote, and what follows the quote.
fn value_at(alloc: Global, text: &str) -> Result<(Text, &str), Unread>
    ensures value { Gives (λ x. (x.0, x.1.now)) result (value_at text.now) }
    ensures shorter { IfOk result (λ x. length x.1.now < length text.now) }
{
    match value_len(text.as_bytes()) {
        None => Err(Unread::Other),
        Some(len) => {
            let value = unescape(alloc, before_quote(text, len))?;
            Ok((value, behind_quote(text, len)))
        }
    }
}

/// What follows the quote behind so many bytes.
fn behind_quote(text: &str, len: usize) -> &str
    requires ends { value_len false text.now ≡ Some len }
    requires within { len < length text.now }
    ensures behind { result.now ≡ drop (len + 1) text.now }
    ensures shorter { length result.now < length text.now }
{
    cut(text, len + 1).1
}

/// A parameter behind a space, and what follows it.
#[tactic(auto, unfolding(crate::specs::Data::param_at))]
fn param_at(alloc: Global, text: &str) -> Result<((Text, Text), &str), Unread>
    requires { slice_index text.now 0 ≡ 32 }
    ensures param { Gives (λ x. (x.0, x.1.now)) result (param_at text.now) }
    ensures shorter { IfOk result (λ x. length x.1.now < length text.now) }
{
    let (_, behind) = cut(text, 1);
    let (name, rest) = sd_name_at(behind)?;
    if !is_equals_quote(rest) {
        return Err(Unread::Other);
    }
    let (_, spelled) = cut(rest, 2);
    let (value, after) = value_at(alloc, spelled)?;
    Ok(((Text::from_str(alloc, name)?, value), after))
}

/// The parameters at the front, and what follows them.
fn params_at(alloc: Global, text: &str) -> Result<(Items<(Text, Text)>, &str), Unread>
    ensures params { Gives (λ x. (x.0, x.1.now)) result (params_at text.now) }
    ensures shorter { IfOk result (λ x. length x.1.now ≤ length text.now) }
{
    let mut params = Vec::new(alloc);
    let mut rest = text;
    'params: while byte_at(rest.as_bytes(), 0) == b' ' {
        let (param, after) = param_at(alloc, rest)?;
        params.push(param)?;
        rest = after;
    }
    Ok((Items::from_vec(params), rest))
}

/// An element at the front, and what follows it.
#[tactic(auto, unfolding(crate::specs::Data::element_at))]
fn element_at(alloc: Global, text: &str) -> Result<(Element, &str), Unread>
    requires { slice_index text.now 0 ≡ 91 }
    ensures element { Gives (λ x. (x.0, x.1.now)) result (element_at text.now) }
    ensures shorter { IfOk result (λ x. length x.1.now < length text.now) }
{
    let (_, behind) = cut(text, 1);
    let (id, rest) = sd_name_at(behind)?;
    let (params, rest) = params_at(alloc, rest)?;
    if byte_at(rest.as_bytes(), 0) != b']' {
        return Err(Unread::Other);
    }
    let (_, after) = cut(rest, 1);
    let id = Text::from_str(alloc, id)?;
    Ok((Element { id, params }, after))
}

fn elements_at(alloc: Global, text: &str) -> Result<(Items<Element>, &str), Unread>
    ensures { Gives (λ x. (x.0, x.1.now)) result (elements_at text.now) }
{
    let mut elements = Vec::new(alloc);
    let mut rest = text;
    'elements: while byte_at(rest.as_bytes(), 0) == b'[' {
        let (element, after) = element_at(alloc, rest)?;
        elements.push(element)?;
        rest = after;
    }
    Ok((Items::from_vec(elements), rest))
}

/// Structured data at the front, and what follows it.
#[tactic(auto, unfolding(crate::specs::Data::data_at))]
pub fn data_at(alloc: Global, text: &str) -> Result<(Items<Element>, &str), Unread>
    ensures { Gives (λ x. (x.0, x.1.now)) result (data_at text.now) }
{
    let first = byte_at(text.as_bytes(), 0);
    if first == b'-' {
        return Ok((Items::new(alloc), cut(text, 1).1));
    }
    if first != b'[' {
        return Err(Unread::Other);
    }
    elements_at(alloc, text)
}

pub fn has_bom(msg: &str) -> bool
    ensures { result ≡ has_bom msg.now }
{
    let bytes = msg.as_bytes();
    byte_at(bytes, 0) == 239 && byte_at(bytes, 1) == 187 && byte_at(bytes, 2) == 191
}

/// A message without the byte order mark that it begins with.
fn behind_bom(msg: &str) -> &str
    requires { has_bom msg.now ≡ true }
    ensures { result.now ≡ drop 3 msg.now }
{
    msg.split_at(3).1
}

/// Whether a byte order mark stands before the message, and the message.
#[tactic(auto, unfolding(crate::specs::Data::message_of))]
pub fn message_of(alloc: Global, text: &str) -> Result<(bool, Option<Text>), Unread>
    ensures { Gives (λ x. x) result (message_of text.now) }
{
    if text.is_empty() {
        return Ok((false, None));
    }
    if byte_at(text.as_bytes(), 0) != b' ' {
        return Err(Unread::Other);
    }
    let (_, msg) = cut(text, 1);
    if has_bom(msg) {
        return Ok((true, Some(Text::from_str(alloc, behind_bom(msg))?)));
    }
    Ok((false, Some(Text::from_str(alloc, msg)?)))
}
