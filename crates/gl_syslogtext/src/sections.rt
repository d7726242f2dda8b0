// The sections of a message's header.
ghost use Rattle.std.specs.Prelude.{◌≡◌, ◌+◌, ◌==◌, ◌≤◌, ◌<◌, ◌-◌, ◌^◌, true, length, slice_index, take, drop, pos, IfOk, option_map, Some};
ghost use Rattle.std.specs.List.{list_all};
ghost use Rattle.std.specs.Char.{is_ascii_digit, is_ascii_graphic};
ghost use Rattle.gl_base.specs.Digits.{decimal};
ghost use Rattle.gl_syslogtext.specs.Sections.{Gives, split, pri_value, pri_in, pri_at, name_of, name_at, two_at, hour_minute_at, clock_at, is_date, date_at};

use crate::unread::Unread;
use gl_base::Text;
use jiff::civil::Date;
use std::alloc::Global;

pub const MAX_HOST: usize = 255;

pub const MAX_APP: usize = 48;

pub const MAX_PROC_ID: usize = 128;

pub const MAX_MSG_ID: usize = 32;

pub const MAX_PRI: usize = 191;

/// What stands before the first space and behind it.
pub fn split_space(text: &str) -> Result<(&str, &str), Unread>
    ensures { Gives (λ x. (x.0.now, x.1.now)) result (split 32 text.now) }
{
    match text.split_once(' ') {
        Some(parts) => Ok(parts),
        None => Err(Unread::Other),
    }
}

fn split_close(text: &str) -> Result<(&str, &str), Unread>
    ensures { Gives (λ x. (x.0.now, x.1.now)) result (split 62 text.now) }
{
    match text.split_once('>') {
        Some(parts) => Ok(parts),
        None => Err(Unread::Other),
    }
}

pub fn are_digits(bytes: &[u8]) -> bool
    ensures { result ≡ list_all is_ascii_digit bytes.now }
{
    bytes.iter().all(|b| b.is_ascii_digit())
}

/// The number that at most three digits write.
fn number(digits: &[u8]) -> usize
    requires few { length digits.now ≤ 3 }
    requires digits { list_all is_ascii_digit digits.now ≡ true }
    ensures { result ≡ decimal 0 digits.now }
{
    let mut n = 0;
    for d in digits {
        n = n * 10 + (*d - b'0') as usize;
    }
    n
}

#[tactic(auto, unfolding(crate::specs::Sections::pri_value))]
fn pri_value(digits: &[u8]) -> Result<u8, Unread>
    ensures { Gives (λ x. x) result (pri_value digits.now) }
{
    if digits.is_empty() || digits.len() > 3 {
        return Err(Unread::Other);
    }
    if !are_digits(digits) {
        return Err(Unread::Other);
    }
    if digits[0] == b'0' && digits.len() != 1 {
        return Err(Unread::Other);
    }
    let n = number(digits);
    if n > MAX_PRI {
        return Err(Unread::Other);
    }
    Ok(n as u8)
}

fn pri_in(front: &[u8]) -> Result<u8, Unread>
    ensures { Gives (λ x. x) result (pri_in front.now) }
{
    match front {
        [b'<', digits @ ..] => pri_value(digits),
        _ => Err(Unread::Other),
    }
}

/// The priority at the front of a text, and what follows it.
#[tactic(auto, unfolding(crate::specs::Sections::pri_at))]
pub fn pri_at(text: &str) -> Result<(u8, &str), Unread>
    ensures { Gives (λ x. (x.0, x.1.now)) result (pri_at text.now) }
{
    let (front, rest) = split_close(text)?;
    let pri = pri_in(front.as_bytes())?;
    Ok((pri, rest))
}

pub fn are_printable(bytes: &[u8]) -> bool
    ensures { result ≡ list_all is_ascii_graphic bytes.now }
{
    bytes.iter().all(|b| b.is_ascii_graphic())
}

#[tactic(auto, unfolding(crate::specs::Sections::name_of))]
fn name_of(alloc: Global, text: &str, most: usize) -> Result<Option<Text>, Unread>
    ensures { Gives (λ x. x) result (name_of most text.now) }
{
    if text == "-" {
        return Ok(None);
    }
    if text.is_empty() || text.len() > most {
        return Err(Unread::Other);
    }
    if !are_printable(text.as_bytes()) {
        return Err(Unread::Other);
    }
    Ok(Some(Text::from_str(alloc, text)?))
}

/// A name up to the next space, and what follows that.
#[tactic(auto, unfolding(crate::specs::Sections::name_at))]
pub fn name_at(alloc: Global, text: &str, most: usize) -> Result<(Option<Text>, &str), Unread>
    ensures { Gives (λ x. (x.0, x.1.now)) result (name_at most text.now) }
{
    let (front, rest) = split_space(text)?;
    let name = name_of(alloc, front, most)?;
    Ok((name, rest))
}

/// The byte at a place, 0 behind the end.
pub fn byte_at(text: &[u8], at: usize) -> u8
    ensures byte { result ≡ slice_index text.now at }
    ensures within { 0 < result → at < length text.now }
{
    if at < text.len() {
        return text[at];
    }
    0
}

#[tactic(auto, unfolding(crate::specs::Sections::two_at))]
pub fn two_at(text: &[u8], at: usize) -> Result<u8, Unread>
    requires { at < 2 ^ 32 }
    ensures value { Gives (λ x. x) result (two_at at text.now) }
    ensures few { IfOk result (λ n. n ≤ 99) }
    ensures within { IfOk result (λ n. at + 2 ≤ length text.now) }
    ensures ascii { IfOk result (λ n. slice_index text.now (at + 1) < 128) }
{
    let tens = byte_at(text, at);
    let ones = byte_at(text, at + 1);
    if !tens.is_ascii_digit() || !ones.is_ascii_digit() {
        return Err(Unread::Other);
    }
    Ok((tens - b'0') * 10 + (ones - b'0'))
}

#[tactic(auto, unfolding(crate::specs::Sections::hour_minute_at))]
pub fn hour_minute_at(text: &[u8], at: usize) -> Result<(u8, u8), Unread>
    requires { at < 2 ^ 31 }
    ensures value { Gives (λ x. x) result (hour_minute_at at text.now) }
    ensures few { IfOk result (λ x. (x.0 ≤ 23) × (x.1 ≤ 59)) }
{
    let hour = two_at(text, at)?;
    let minute = two_at(text, at + 3)?;
    if byte_at(text, at + 2) != b':' || hour > 23 || minute > 59 {
        return Err(Unread::Other);
    }
    Ok((hour, minute))
}

#[tactic(auto, unfolding(crate::specs::Sections::clock_at))]
pub fn clock_at(text: &[u8], at: usize) -> Result<(u8, u8, u8), Unread>
    requires { at < 2 ^ 30 }
    ensures value { Gives (λ x. x) result (clock_at at text.now) }
    ensures within { IfOk result (λ x. at + 8 ≤ length text.now) }
    ensures ascii { IfOk result (λ x. slice_index text.now (at + 7) < 128) }
{
    let (hour, minute) = hour_minute_at(text, at)?;
    let second = two_at(text, at + 6)?;
    if byte_at(text, at + 5) != b':' || second > 59 {
        return Err(Unread::Other);
    }
    Ok((hour, minute, second))
}

pub fn is_date(year: u16, month: u8, day: u8) -> bool
    requires year { year ≤ 9999 }
    requires month { month ≤ 99 }
    requires day { day ≤ 99 }
    ensures { result ≡ is_date year month day }
{
    Date::new(year as i16, month as i8, day as i8).is_ok()
}

/// The date at the front of a text.
#[tactic(auto, unfolding(crate::specs::Sections::date_at))]
pub fn date_at(text: &[u8]) -> Result<(u16, u8, u8), Unread>
    ensures { Gives (λ x. x) result (date_at text.now) }
{
    let century = two_at(text, 0)?;
    let years = two_at(text, 2)?;
    let month = two_at(text, 5)?;
    let day = two_at(text, 8)?;
    let year = century as u16 * 100 + years as u16;
    if byte_at(text, 4) != b'-' || byte_at(text, 7) != b'-' || !is_date(year, month, day) {
        return Err(Unread::Other);
    }
    Ok((year, month, day))
}
