//! Whole numbers that digits write, within a bound.
ghost use Rattle.std.specs.Prelude.{◌≡◌, ◌≤◌, ◌^◌, IfSome};
ghost use Rattle.gl_base.specs.Digits.{digits_within, magnitude_from, signed_number, whole_of};

use crate::bytes::is_digit;

// One more than the greatest number of 64 bits with a sign.
const MAX_MAGNITUDE: u64 = 0x8000_0000_0000_0000;

/// The number that digits write behind `start`, where none on the way is above `most`. `None` also where
/// a byte is no digit.
#[tactic(auto, unfolding(crate::specs::Digits::digits_within))]
pub fn digits_within(start: u64, digits: &[u8], most: u64) -> Option<u64>
    requires { start ≤ most }
    ensures value { result ≡ digits_within most start digits.now }
    ensures few { IfSome result (λ n. n ≤ most) }
{
    let mut n = start;
    let mut rest = digits;
    while let [d, behind @ ..] = rest {
        if !is_digit(*d) {
            return None;
        }
        let next = u128::from(n) * 10 + u128::from(*d - b'0');
        if next > u128::from(most) {
            return None;
        }
        n = next as u64;
        rest = behind;
    }
    Some(n)
}

/// The number that digits write, up to 2^63: what a number of 64 bits may have behind its sign.
pub fn magnitude(digits: &[u8]) -> Option<u64>
    ensures value { result ≡ magnitude_from 0 digits.now }
    ensures few { IfSome result (λ n. n ≤ 2 ^ 63) }
{
    digits_within(0, digits, MAX_MAGNITUDE)
}

/// The number of 64 bits with this sign and magnitude. 2^63 itself has to be negative.
pub fn signed_number(negative: bool, magnitude: Option<u64>) -> Option<i64>
    requires { IfSome magnitude (λ n. n ≤ 2 ^ 63) }
    ensures { result ≡ signed_number negative magnitude }
{
    let n = magnitude?;
    if negative {
        let number = -i128::from(n);
        return Some(number as i64);
    }
    if n < MAX_MAGNITUDE {
        return Some(n as i64);
    }
    None
}

/// The whole number of 64 bits that digits write, behind a `-` where it is negative. No digits behind a
/// `-` are 0, and no bytes at all are none.
#[tactic(auto, unfolding(crate::specs::Digits::whole_of))]
pub fn whole_of(literal: &[u8]) -> Option<i64>
    ensures { result ≡ whole_of literal.now }
{
    match literal {
        [] => None,
        [byte, digits @ ..] => {
            if *byte == b'-' {
                return signed_number(true, magnitude(digits));
            }
            signed_number(false, magnitude(literal))
        }
    }
}
