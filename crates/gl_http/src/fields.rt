// The fields of a head, by the places that the parser gives.
ghost use Rattle.std.specs.Prelude.{◌≡◌, ◌≤◌, IfOk, All, true, length, map, option_map};
ghost use Rattle.std.specs.List.{list_all};
ghost use Rattle.std.specs.Str.{str_eq_ignore_ascii_case};
ghost use Rattle.httparse.specs.Spans.{IsHeaderWithin, header_bytes};
ghost use Rattle.std.specs.Char.{is_ascii_digit};
ghost use Rattle.gl_base.specs.Digits.{decimal};
ghost use Rattle.gl_http.specs.Fields as fields;

use gl_base::Text;
use httparse::spans::HeaderSpan;
use std::alloc::{AllocError, Global};
use std::str;

// The digits of a length.
const MAX_DIGITS: usize = 18;

// What stands before a token, in any case of letters (RFC 6750, section 2.1).
const SCHEME: &[u8] = b"Bearer ";

// The characters of a token.
const MAX_TOKEN: usize = 128;

fn is_named(found: &[u8], name: &[u8]) -> bool
    ensures { result ≡ str_eq_ignore_ascii_case found.now name.now }
{
    found.eq_ignore_ascii_case(name)
}

/// The value of the first field of this name.
pub fn first_value<'b>(buf: &'b [u8], headers: &[HeaderSpan], name: &[u8]) -> Option<&'b [u8]>
    requires { All (IsHeaderWithin (length buf.now)) headers.now }
    ensures { option_map (λ s. s.now) result ≡ fields.first_value name.now (map (header_bytes buf.now) headers.now) }
{
    for header in headers {
        let found = header.name.of(buf);
        let value = header.value.of(buf);
        if is_named(found, name) {
            return Some(value);
        }
    }
    None
}

fn is_alike(name: &[u8], text: &[u8], found: &[u8], value: &[u8]) -> bool
    ensures { result ≡ fields.is_alike name.now text.now (found.now, value.now) }
{
    if !is_named(found, name) {
        return true;
    }
    value == text
}

// Whether each field of this name has this value.
fn are_alike(buf: &[u8], headers: &[HeaderSpan], name: &[u8], text: &[u8]) -> bool
    requires { All (IsHeaderWithin (length buf.now)) headers.now }
    ensures { result ≡ list_all (fields.is_alike name.now text.now) (map (header_bytes buf.now) headers.now) }
{
    for header in headers {
        let found = header.name.of(buf);
        let value = header.value.of(buf);
        if !is_alike(name, text, found, value) {
            return false;
        }
    }
    true
}

fn are_digits(bytes: &[u8]) -> bool
    ensures { result ≡ list_all is_ascii_digit bytes.now }
{
    bytes.iter().all(|b| b.is_ascii_digit())
}

fn is_length(text: &[u8]) -> bool
    ensures { result ≡ fields.is_length text.now }
{
    if text.is_empty() || text.len() > MAX_DIGITS {
        return false;
    }
    are_digits(text)
}

// The number that at most 18 digits write.
fn number(digits: &[u8]) -> u64
    requires few { length digits.now ≤ 18 }
    requires digits { list_all is_ascii_digit digits.now ≡ true }
    ensures { result ≡ decimal 0 digits.now }
{
    let mut n = 0;
    for d in digits {
        n = n * 10 + (*d - b'0') as u64;
    }
    n
}

/// The length of the body, if one is stated; `None` where no one length is stated lawfully.
pub fn stated_length(buf: &[u8], headers: &[HeaderSpan]) -> Option<Option<u64>>
    requires { All (IsHeaderWithin (length buf.now)) headers.now }
    ensures { result ≡ fields.stated_length (map (header_bytes buf.now) headers.now) }
{
    match first_value(buf, headers, b"Content-Length") {
        None => Some(None),
        Some(text) => {
            if !is_length(text) {
                return None;
            }
            if !are_alike(buf, headers, b"Content-Length", text) {
                return None;
            }
            Some(Some(number(text)))
        }
    }
}

fn are_printable(bytes: &[u8]) -> bool
    ensures { result ≡ list_all fields.is_printable bytes.now }
{
    bytes.iter().all(|b| *b >= 32 && *b <= 126)
}

fn ascii_text(alloc: Global, bytes: &[u8]) -> Result<Text, AllocError>
    requires { list_all fields.is_printable bytes.now ≡ true }
    ensures { IfOk result (λ text. text ≡ bytes.now) }
{
    match str::from_utf8(bytes) {
        Ok(text) => Text::from_str(alloc, text),
        Err(_) => unreachable!(),
    }
}

fn token_in(alloc: Global, value: Option<&[u8]>) -> Result<Option<Text>, AllocError>
    ensures { IfOk result (λ o. o ≡ fields.token_in (option_map (λ s. s.now) value.entry)) }
{
    let Some(value) = value else {
        return Ok(None);
    };
    if value.len() <= SCHEME.len() || value.len() > SCHEME.len() + MAX_TOKEN {
        return Ok(None);
    }
    let (scheme, token) = value.split_at(SCHEME.len());
    if !is_named(scheme, SCHEME) {
        return Ok(None);
    }
    if !are_printable(token) {
        return Ok(None);
    }
    Ok(Some(ascii_text(alloc, token)?))
}

/// The token of the first Authorization.
pub fn token_of(
    alloc: Global,
    buf: &[u8],
    headers: &[HeaderSpan],
) -> Result<Option<Text>, AllocError>
    requires { All (IsHeaderWithin (length buf.now)) headers.now }
    ensures { IfOk result (λ o. o ≡ fields.token_of (map (header_bytes buf.now) headers.now)) }
{
    token_in(alloc, first_value(buf, headers, b"Authorization"))
}
