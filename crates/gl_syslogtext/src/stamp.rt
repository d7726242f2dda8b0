// The time stamp of a message.
ghost use Rattle.std.specs.Prelude.{◌≡◌, ◌==◌, ◌≤◌, ◌<◌, ◌-◌, ◌^◌, length, slice_index, take, drop, IfOk};
ghost use Rattle.std.specs.List.{prefix_len};
ghost use Rattle.std.specs.Char.{is_ascii_digit};
ghost use Rattle.gl_syslogtext.specs.Sections.{Gives, minutes, fraction_at, shift_of, offset_of, time_of, stamp_of, stamp_at};

use crate::Stamp;
use crate::sections::{byte_at, clock_at, date_at, hour_minute_at, split_space};
use crate::unread::Unread;
use gl_base::Text;
use std::alloc::Global;

/// Where the fraction of a second, or the offset, begins.
const CLOCK_END: usize = 19;

pub const MAX_FRACTION: usize = 6;

/// How many digits stand at the front.
pub fn digits_len(bytes: &[u8]) -> usize
    ensures len { result ≡ prefix_len is_ascii_digit bytes.now }
    ensures within { result ≤ length bytes.now }
{
    for (i, byte) in bytes.iter().enumerate() {
        if !byte.is_ascii_digit() {
            return i;
        }
    }
    bytes.len()
}

/// A text cut behind so many bytes, the last of which is ASCII.
pub fn cut(text: &str, len: usize) -> (&str, &str)
    requires some { 0 < len }
    requires within { len ≤ length text.now }
    requires ascii { slice_index text.now (len - 1) < 128 }
    ensures before { result.0.now ≡ take len text.now }
    ensures behind { result.1.now ≡ drop len text.now }
{
    text.split_at(len)
}

#[tactic(auto, unfolding(crate::specs::Sections::fraction_at))]
fn fraction_at(text: &str) -> Result<(&str, &str), Unread>
    ensures { Gives (λ x. (x.0.now, x.1.now)) result (fraction_at text.now) }
{
    if byte_at(text.as_bytes(), 0) != b'.' {
        return Ok(("", text));
    }
    let (_, behind) = cut(text, 1);
    let len = digits_len(behind.as_bytes());
    if len < 1 || len > MAX_FRACTION {
        return Err(Unread::Other);
    }
    Ok(cut(behind, len))
}

fn minutes(sign: u8, hour: u8, minute: u8) -> i16
    requires hour { hour ≤ 23 }
    requires minute { minute ≤ 59 }
    ensures { result ≡ minutes sign (hour, minute) }
{
    let count = hour as i16 * 60 + minute as i16;
    if sign == b'+' { count } else { -count }
}

#[tactic(auto, unfolding(crate::specs::Sections::shift_of))]
fn shift_of(text: &[u8]) -> Result<i16, Unread>
    ensures { Gives (λ x. x) result (shift_of text.now) }
{
    let (hour, minute) = hour_minute_at(text, 1)?;
    let sign = byte_at(text, 0);
    if text.len() != 6 || (sign != b'+' && sign != b'-') {
        return Err(Unread::Other);
    }
    Ok(minutes(sign, hour, minute))
}

#[tactic(auto, unfolding(crate::specs::Sections::offset_of))]
fn offset_of(text: &str) -> Result<Option<i16>, Unread>
    ensures { Gives (λ x. x) result (offset_of text.now) }
{
    if text == "Z" {
        return Ok(None);
    }
    Ok(Some(shift_of(text.as_bytes())?))
}

#[tactic(auto, unfolding(crate::specs::Sections::time_of))]
fn time_of(alloc: Global, text: &str) -> Result<Stamp, Unread>
    ensures { Gives (λ x. x) result (time_of text.now) }
{
    let (year, month, day) = date_at(text.as_bytes())?;
    let (hour, minute, second) = clock_at(text.as_bytes(), 11)?;
    let (_, rest) = cut(text, CLOCK_END);
    let (fraction, zone) = fraction_at(rest)?;
    let offset_minutes = offset_of(zone)?;
    if byte_at(text.as_bytes(), 10) != b'T' {
        return Err(Unread::Other);
    }
    Ok(Stamp {
        year,
        month,
        day,
        hour,
        minute,
        second,
        fraction: Text::from_str(alloc, fraction)?,
        offset_minutes,
    })
}

#[tactic(auto, unfolding(crate::specs::Sections::stamp_of))]
fn stamp_of(alloc: Global, text: &str) -> Result<Option<Stamp>, Unread>
    ensures { Gives (λ x. x) result (stamp_of text.now) }
{
    if text == "-" {
        return Ok(None);
    }
    Ok(Some(time_of(alloc, text)?))
}

/// A time stamp up to the next space, and what follows that.
#[tactic(auto, unfolding(crate::specs::Sections::stamp_at))]
pub fn stamp_at(alloc: Global, text: &str) -> Result<(Option<Stamp>, &str), Unread>
    ensures { Gives (λ x. (x.0, x.1.now)) result (stamp_at text.now) }
{
    let (front, rest) = split_space(text)?;
    let stamp = stamp_of(alloc, front)?;
    Ok((stamp, rest))
}
