// The moment that a number of seconds is.
ghost use Rattle.std.specs.Prelude.{◌≡◌, ◌==◌, ◌≤◌, ◌<◌, ◌+◌, ◌-◌, ◌*◌, ◌^◌, ◌++◌, true, false, List, ℕ, length, take, min, IfSome};
ghost use Rattle.std.specs.List.{list_all};
ghost use Rattle.gl_base.specs.Bytes.{is_digit, behind_first};
ghost use Rattle.gl_base.specs.Digits.{decimal, within};
ghost use Rattle.gl_json.specs.Numbers.{is_exp};
ghost use Rattle.gl_gelf.specs.Decimals.{significand, exponent, milliseconds, moment_of};

use crate::number::number_of;
use gl_base::bytes::{behind_first, next_is};
use gl_base::whole::digits_within;

/// The greatest moment, in milliseconds: the end of the year 9999.
const MAX_MOMENT: u64 = 253_402_300_799_999;

// Above what any text can bring: no text has so many bytes.
const MAX_EXPONENT: u128 = 100_000_000_000_000_000_000;

fn is_zero(digits: &[u8]) -> bool
    ensures { result ≡ (decimal 0 digits.now == 0) }
{
    let mut rest = digits;
    while let [digit, behind @ ..] = rest {
        if *digit > b'0' {
            return false;
        }
        rest = behind;
    }
    true
}

/// Whether the digits before and behind a point are zeros.
fn is_nothing(int: &[u8], frac: &[u8]) -> bool
    ensures { result ≡ (significand int.now frac.now == 0) }
{
    if !is_zero(int) {
        return false;
    }
    is_zero(frac)
}

/// The number that digits write, up to `MAX_EXPONENT`.
fn capped(digits: &[u8]) -> u128
    requires { list_all is_digit digits.now ≡ true }
    ensures { result ≡ min (decimal 0 digits.now) 100000000000000000000 }
{
    let mut n = 0u128;
    let mut rest = digits;
    while let [digit, behind @ ..] = rest {
        n = (n * 10 + u128::from(*digit - b'0')).min(MAX_EXPONENT);
        rest = behind;
    }
    n
}

/// The number of an exponent, up to `MAX_EXPONENT`.
fn exponent(exp: &[u8]) -> u128
    requires { is_exp exp.now ≡ true }
    ensures { result ≡ min (exponent (behind_first exp.now)) 100000000000000000000 }
{
    match exp {
        [] | [_] => 0,
        [_, b'+' | b'-', digits @ ..] => capped(digits),
        [_, digits @ ..] => capped(digits),
    }
}

fn front(digits: &[u8], count: u128) -> &[u8]
    ensures { result.now ≡ take count digits.now }
{
    if count < digits.len() as u128 {
        return &digits[..count as usize];
    }
    digits
}

/// A number with zeros put behind it, up to `MAX_MOMENT`.
fn padded(number: u64, zeros: u128) -> Option<u64>
    requires { number ≤ 253402300799999 }
    ensures value { result ≡ within 253402300799999 (number * 10 ^ zeros) }
    ensures few { IfSome result (λ n. n ≤ 253402300799999) }
{
    if number == 0 {
        return Some(0);
    }
    let mut n = number;
    let mut left = zeros;
    while left > 0 {
        n *= 10;
        if n > MAX_MOMENT {
            return None;
        }
        left -= 1;
    }
    Some(n)
}

/// So many seconds in milliseconds, cut down to a whole number, up to `MAX_MOMENT`.
fn milliseconds(int: &[u8], frac: &[u8], exp: &[u8]) -> Option<u64>
    requires some { 0 < significand int.now frac.now }
    requires int { list_all is_digit int.now ≡ true }
    requires frac { list_all is_digit frac.now ≡ true }
    requires exp { is_exp exp.now ≡ true }
    ensures value { result ≡ within 253402300799999 (milliseconds int.now frac.now exp.now) }
    ensures few { IfSome result (λ n. n ≤ 253402300799999) }
{
    let places = int.len() as u128 + 3;
    let exponent = exponent(exp);
    if next_is(behind_first(exp), b'-') {
        return shifted(int, frac, places.saturating_sub(exponent));
    }
    shifted(int, frac, places + exponent)
}

/// The number that the first so many digits write, with zeros behind the last one, up to `MAX_MOMENT`.
fn shifted(int: &[u8], frac: &[u8], count: u128) -> Option<u64>
    requires int { list_all is_digit int.now ≡ true }
    requires frac { list_all is_digit frac.now ≡ true }
    ensures few { IfSome result (λ n. n ≤ 253402300799999) }
    ensures value { result ≡ within 253402300799999 (decimal 0 (take count (int.now ++ frac.now)) * 10 ^ (count - length (int.now ++ frac.now))) }
{
    let behind = count.saturating_sub(int.len() as u128);
    let whole = digits_within(0, front(int, count), MAX_MOMENT)?;
    let all = digits_within(whole, front(frac, behind), MAX_MOMENT)?;
    padded(all, behind.saturating_sub(frac.len() as u128))
}

/// The moment so many seconds behind 1970, in milliseconds, where the text is a number that isn't
/// below 0, up to the end of the year 9999.
#[tactic(auto, unfolding(crate::specs::Decimals::moment_of))]
pub fn moment_of(text: &[u8]) -> Option<u64>
    ensures value { result ≡ moment_of text.now }
    ensures few { IfSome result (λ n. n ≤ 253402300799999) }
{
    let number = number_of(text)?;
    if is_nothing(number.int, number.frac) {
        return Some(0);
    }
    if number.negative {
        return None;
    }
    milliseconds(number.int, number.frac, number.exp)
}
