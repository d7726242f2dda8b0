// The characters of a string.
ghost use Rattle.std.specs.Prelude.{◌≡◌, ◌==◌, ◌<◌, length, IfSome};
ghost use Rattle.std.specs.List.{list_all};
ghost use Rattle.std.specs.Int.{is_in_range};
ghost use Rattle.gl_json.specs.Chars.{is_tail, is_second, is_plain, is_escape, is_hex};
ghost use Rattle.gl_json.specs.JsonReading.{Gives, past, one_at, unicode_at, escape_at, two_at, three_at, four_at, char_at, chars_end, string_at};

use crate::bytes::{self, Stop};

// How many bytes are tested together.
const GROUP: usize = 16;

/// A character of a string as it is written: the bytes of its UTF-8, or an escape.
#[derive(Clone, Copy, Debug, PartialEq, Eq)]
pub enum Char {
    One(u8),
    Two(u8, u8),
    Three(u8, u8, u8),
    Four(u8, u8, u8, u8),
    /// A backslash and this byte.
    Escape(u8),
    /// A backslash, `u` and four hexadecimal digits.
    Unicode(u8, u8, u8, u8),
}

fn is_escape(byte: u8) -> bool
    ensures { result ≡ is_escape byte }
{
    byte == b'"'
        || byte == b'\\'
        || byte == b'/'
        || byte == b'b'
        || byte == b'f'
        || byte == b'n'
        || byte == b'r'
        || byte == b't'
}

fn is_plain(byte: u8) -> bool
    ensures { result ≡ is_plain byte }
{
    32 <= byte && byte <= 127 && byte != b'"' && byte != b'\\'
}

fn tail_at(bytes: &[u8]) -> Result<(u8, &[u8]), Stop>
    ensures { Gives (λ x. (x.0, x.1.now)) result (one_at is_tail bytes.now) }
{
    bytes::byte_at(bytes, 128, 191)
}

/// The second byte of a character of three or four bytes.
#[tactic(auto, unfolding(crate::specs::JsonReading::one_at))]
fn second_at(bytes: &[u8], first: u8) -> Result<(u8, &[u8]), Stop>
    ensures { Gives (λ x. (x.0, x.1.now)) result (one_at (is_second first) bytes.now) }
{
    match first {
        224 => bytes::byte_at(bytes, 160, 191),
        237 => bytes::byte_at(bytes, 128, 159),
        240 => bytes::byte_at(bytes, 144, 191),
        244 => bytes::byte_at(bytes, 128, 143),
        _ => bytes::byte_at(bytes, 128, 191),
    }
}

#[tactic(auto, unfolding(crate::specs::JsonReading::unicode_at))]
fn unicode_at(bytes: &[u8]) -> Result<(Char, &[u8]), Stop>
    ensures { Gives (λ x. (x.0, x.1.now)) result (unicode_at bytes.now) }
{
    let (a, rest) = bytes::hex_at(bytes)?;
    let (b, rest) = bytes::hex_at(rest)?;
    let (c, rest) = bytes::hex_at(rest)?;
    let (d, rest) = bytes::hex_at(rest)?;
    Ok((Char::Unicode(a, b, c, d), rest))
}

#[tactic(auto, unfolding(crate::specs::JsonReading::escape_at))]
fn escape_at(bytes: &[u8]) -> Result<(Char, &[u8]), Stop>
    ensures { Gives (λ x. (x.0, x.1.now)) result (escape_at bytes.now) }
{
    match bytes {
        [] => Err(Stop::At { left: 0 }),
        [byte, rest @ ..] => {
            if is_escape(*byte) {
                return Ok((Char::Escape(*byte), rest));
            }
            if *byte == b'u' {
                return unicode_at(rest);
            }
            Err(Stop::At { left: bytes.len() })
        }
    }
}

#[tactic(auto, unfolding(crate::specs::JsonReading::two_at))]
fn two_at(a: u8, bytes: &[u8]) -> Result<(Char, &[u8]), Stop>
    ensures { Gives (λ x. (x.0, x.1.now)) result (two_at a bytes.now) }
{
    let (b, rest) = tail_at(bytes)?;
    Ok((Char::Two(a, b), rest))
}

#[tactic(auto, unfolding(crate::specs::JsonReading::three_at))]
fn three_at(a: u8, bytes: &[u8]) -> Result<(Char, &[u8]), Stop>
    ensures { Gives (λ x. (x.0, x.1.now)) result (three_at a bytes.now) }
{
    let (b, rest) = second_at(bytes, a)?;
    let (c, rest) = tail_at(rest)?;
    Ok((Char::Three(a, b, c), rest))
}

#[tactic(auto, unfolding(crate::specs::JsonReading::four_at))]
fn four_at(a: u8, bytes: &[u8]) -> Result<(Char, &[u8]), Stop>
    ensures { Gives (λ x. (x.0, x.1.now)) result (four_at a bytes.now) }
{
    let (b, rest) = second_at(bytes, a)?;
    let (c, rest) = tail_at(rest)?;
    let (d, rest) = tail_at(rest)?;
    Ok((Char::Four(a, b, c, d), rest))
}

/// A character, and the bytes behind it.
#[tactic(auto, unfolding(crate::specs::JsonReading::char_at))]
pub fn char_at(bytes: &[u8]) -> Result<(Char, &[u8]), Stop>
    ensures { Gives (λ x. (x.0, x.1.now)) result (char_at bytes.now) }
{
    match bytes {
        [] => Err(Stop::At { left: 0 }),
        [a, rest @ ..] => {
            if *a == b'\\' {
                return escape_at(rest);
            }
            if is_plain(*a) {
                return Ok((Char::One(*a), rest));
            }
            if 194 <= *a && *a <= 223 {
                return two_at(*a, rest);
            }
            if 224 <= *a && *a <= 239 {
                return three_at(*a, rest);
            }
            if 240 <= *a && *a <= 244 {
                return four_at(*a, rest);
            }
            Err(Stop::At { left: bytes.len() })
        }
    }
}

/// Whether all bytes stand for themselves. Each is tested, so that no test waits for another.
fn are_plain(bytes: &[u8]) -> bool
    ensures { result ≡ list_all is_plain bytes.now }
{
    let mut all = true;
    let mut rest = bytes;
    while let [byte, behind @ ..] = rest {
        all &= is_plain(*byte);
        rest = behind;
    }
    all
}

/// What stands behind a group of bytes that stand for themselves.
fn behind_group(bytes: &[u8]) -> Option<&[u8]>
    ensures same { IfSome result (λ rest. past is_plain rest.now ≡ past is_plain bytes.now) }
    ensures fewer { IfSome result (λ rest. length rest.now < length bytes.now) }
{
    if bytes.len() < GROUP {
        return None;
    }
    if !is_plain(bytes[0]) {
        return None;
    }
    let (group, rest) = bytes.split_at(GROUP);
    if are_plain(group) { Some(rest) } else { None }
}

/// What stands behind bytes that stand for themselves.
pub fn past_plain(bytes: &[u8]) -> &[u8]
    ensures { result.now ≡ past is_plain bytes.now }
{
    let mut rest = bytes;
    while let Some(behind) = behind_group(rest) {
        rest = behind;
    }
    past_each_plain(rest)
}

#[tactic(auto, unfolding(crate::specs::JsonReading::past))]
fn past_each_plain(bytes: &[u8]) -> &[u8]
    ensures { result.now ≡ past is_plain bytes.now }
{
    let mut rest = bytes;
    while let [byte, behind @ ..] = rest {
        if !is_plain(*byte) {
            return rest;
        }
        rest = behind;
    }
    rest
}

/// What stands from the quote on that ends a string, or the end of the bytes.
fn chars_end(bytes: &[u8]) -> Result<&[u8], Stop>
    ensures { Gives (λ x. x.now) result (chars_end (length bytes.now) bytes.now) }
{
    let mut rest = past_plain(bytes);
    while let [byte, ..] = rest {
        if *byte == b'"' {
            return Ok(rest);
        }
        let (_, behind) = char_at(rest)?;
        rest = past_plain(behind);
    }
    Ok(rest)
}

/// Behind the quote that opens a string: what stands up to the quote that ends it, and what
/// stands behind that.
#[tactic(auto, unfolding(crate::specs::JsonReading::string_at))]
pub fn string_at(bytes: &[u8]) -> Result<(&[u8], &[u8]), Stop>
    ensures { Gives (λ x. (x.0.now, x.1.now)) result (string_at bytes.now) }
{
    let rest = chars_end(bytes)?;
    let (_, behind) = bytes::sign_at(rest, b'"')?;
    Ok((bytes::before(rest, bytes), behind))
}
