// Times in milliseconds since 1970 began in UTC.
ghost use Rattle.std.specs.Prelude.{◌≡◌, ◌≤◌, ◌&&◌, nat_le, pos, IfSome, Some, None, if◌then◌else◌};
ghost use Rattle.jiff_core.specs.Calendar.{days_from_civil, IsEpochDay, IsWithin};
ghost use Rattle.gl_syslogtext.specs.Sections.{is_date};
ghost use Rattle.gl_syslog.specs.Moments.{clock_ms, civil_ms, fraction_ms, offset_ms, stamp_ms, kept_or, year_of, bsd_ms, bsd_time};

use gl_syslogtext::{BsdStamp, Stamp};
use jiff::civil::Date;

const DAY_MS: i64 = 86_400_000;

/// The last millisecond of the year 9999.
const MAX_MOMENT: i64 = 253_402_300_799_999;

const MAX_YEAR: u16 = 9999;

/// Milliseconds of a day at a time on its clock.
fn clock_ms(hour: u8, minute: u8, second: u8) -> u32
    ensures { result ≡ clock_ms hour minute second }
{
    ((hour as u32 * 60 + minute as u32) * 60 + second as u32) * 1000
}

/// The days from 1970-01-01 to a date, where there is the date.
fn day_number(year: u16, month: u8, day: u8) -> Option<i32>
    ensures value { result ≡ (if nat_le year 9999 && is_date year month day then Some (days_from_civil (pos year) month day) else None) }
    ensures bound { IfSome result IsEpochDay }
{
    if year > MAX_YEAR || month > 12 || day > 31 {
        return None;
    }
    match Date::new(year as i16, month as i8, day as i8) {
        Ok(date) => Some(date.to_plain().to_unix_epoch_day()),
        Err(_) => None,
    }
}

/// The time of a date, where there is the date, so many milliseconds after it began.
#[tactic(auto, unfolding(crate::specs::Moments::civil_ms))]
fn civil_ms(year: u16, month: u8, day: u8, clock: u32) -> Option<i64>
    ensures value { result ≡ civil_ms year month day clock }
    ensures bound { IfSome result (IsWithin 400000000000000) }
{
    let days = day_number(year, month, day)?;
    Some(days as i64 * DAY_MS + clock as i64)
}

/// The digits of a fraction of a second, cut to milliseconds.
fn fraction_ms(digits: &[u8]) -> u16
    ensures { result ≡ fraction_ms digits.now }
{
    let (tenths, hundredths, thousandths) = match digits {
        [] => (b'0', b'0', b'0'),
        [a] => (*a, b'0', b'0'),
        [a, b] => (*a, *b, b'0'),
        [a, b, c, ..] => (*a, *b, *c),
    };
    tenths.saturating_sub(b'0') as u16 * 100
        + hundredths.saturating_sub(b'0') as u16 * 10
        + thousandths.saturating_sub(b'0') as u16
}

fn offset_ms(minutes: Option<i16>) -> i64
    ensures value { result ≡ offset_ms minutes }
    ensures bound { IsWithin 2000000000 result }
{
    match minutes {
        Some(minutes) => minutes as i64 * 60_000,
        None => 0,
    }
}

/// The time of a stamp, in UTC.
#[tactic(auto, unfolding(crate::specs::Moments::stamp_ms))]
pub fn stamp_ms(stamp: &Stamp) -> Option<i64>
    ensures { result ≡ stamp_ms stamp.now }
{
    let clock = clock_ms(stamp.hour, stamp.minute, stamp.second);
    let time = civil_ms(stamp.year, stamp.month, stamp.day, clock)?;
    let fraction = fraction_ms(stamp.fraction.as_str().as_bytes());
    Some(time + fraction as i64 - offset_ms(stamp.offset_minutes))
}

/// A time from 1970 to the end of 9999, and else the receive moment.
pub fn kept_or(moment: u64, time: Option<i64>) -> i64
    requires { moment ≤ 253402300799999 }
    ensures { result ≡ kept_or moment time }
{
    match time {
        Some(time) => {
            if time >= 0 && time <= MAX_MOMENT {
                time
            } else {
                moment as i64
            }
        }
        None => moment as i64,
    }
}

/// The year of a moment.
fn year_of(moment: u64) -> u16
    requires { moment ≤ 253402300799999 }
    ensures value { result ≡ year_of moment }
    ensures above { 1970 ≤ result }
    ensures below { result ≤ 9999 }
{
    let day = moment / DAY_MS as u64;
    match jiff_core::civil::Date::from_unix_epoch_day(day as i64) {
        Ok(date) => date.year as u16,
        Err(_) => unreachable!(),
    }
}

#[tactic(auto, unfolding(crate::specs::Moments::bsd_ms))]
fn bsd_ms(year: u16, stamp: BsdStamp) -> Option<i64>
    ensures value { result ≡ bsd_ms year stamp }
    ensures bound { IfSome result (IsWithin 400000000000000) }
{
    let clock = clock_ms(stamp.hour, stamp.minute, stamp.second);
    civil_ms(year, stamp.month, stamp.day, clock)
}

/// The time of a stamp without a year that was received at this moment.
#[tactic(auto, unfolding(crate::specs::Moments::bsd_time))]
pub fn bsd_time(moment: u64, stamp: BsdStamp) -> Option<i64>
    requires { moment ≤ 253402300799999 }
    ensures { result ≡ bsd_time moment stamp }
{
    let year = year_of(moment);
    let time = bsd_ms(year, stamp)?;
    if time <= moment as i64 + DAY_MS {
        return Some(time);
    }
    bsd_ms(year - 1, stamp)
}
