// The text of a whole number, without memory.
ghost use Rattle.std.specs.Prelude.{◌≡◌, ◌<◌, ◌≤◌, ◌^◌, length, drop};
ghost use Rattle.std.specs.Fmt.{decimal, signed_decimal};

use std::marker::Model;
use std::str;

// The most bytes of a number's text.
const MAX_LEN: usize = 20;

/// The decimal text of a whole number, with `-` where it is negative. It holds the text itself and takes no
/// memory. Contracts see it as its bytes.
#[derive(Drop)]
pub struct Decimal {
    digits: [u8; MAX_LEN],
    at: usize,
}

impl Model for Decimal {
    ghost use Rattle.std.specs.Prelude.{ℕ, ◌≤◌, List, drop};
    ghost use Rattle.std.specs.Str.{IsUtf8};

    ghost Value = { List ℕ };

    ghost view = { λ d. drop d.at d.digits };

    ghost invariant = { λ d. (d.at ≤ 20) × IsUtf8 (drop d.at d.digits) };
}

// Writes the digits at the end, and answers where they begin.
fn write_digits(number: u64, digits: &mut [u8]) -> usize
    requires room { length digits.old ≡ 20 }
    requires small { number ≤ 2 ^ 63 }
    ensures digits { drop result digits.new ≡ decimal number }
    ensures left { 0 < result }
    ensures within { result ≤ 20 }
{
    let mut at = MAX_LEN;
    let mut rest = number;
    while rest >= 10 {
        at -= 1;
        digits[at] = b'0' + (rest % 10) as u8;
        rest /= 10;
    }
    at -= 1;
    digits[at] = b'0' + rest as u8;
    at
}

// Writes the text at the end, and answers where it begins.
fn write_decimal(number: i64, digits: &mut [u8]) -> usize
    requires { length digits.old ≡ 20 }
    ensures text { drop result digits.new ≡ signed_decimal number }
    ensures within { result ≤ 20 }
{
    let at = write_digits(number.unsigned_abs(), digits);
    if number < 0 {
        digits[at - 1] = b'-';
        return at - 1;
    }
    at
}

impl Decimal {
    /// The text of this number.
    pub fn new(number: i64) -> Decimal
        ensures { result ≡ signed_decimal number }
    {
        let mut digits = [0u8; MAX_LEN];
        let at = write_decimal(number, &mut digits);
        Decimal { digits, at }
    }

    pub fn as_str(&self) -> &str
        ensures { result.now ≡ self.now }
    {
        let text = str::from_utf8(&self.digits[self.at..]);
        text.unwrap()
    }
}
