// Numbers as JSON writes them.
ghost use Rattle.std.specs.Prelude.{◌≡◌, ◌≤◌, true, false, length, MatchOption};
ghost use Rattle.std.specs.List.{prefix_len, list_all};
ghost use Rattle.gl_base.specs.Bytes.{is_digit, behind_first};
ghost use Rattle.gl_json.specs.Numbers.{is_int, is_frac, is_exp, are_digits, are_signed_digits};
ghost use Rattle.gl_gelf.specs.Decimals.{unsigned, digits_of, behind_digits, point_at, behind_frac, is_number, whole_in};
ghost use Rattle.gl_gelf.specs.NumberParts.{IsNumberIn};

use gl_base::bytes::{behind_first, is_digit, is_e, is_sign, next_is};
use gl_base::whole::whole_of;

/// The parts of a number.
#[derive(Clone, Copy, Debug)]
pub struct Number<'a> {
    pub negative: bool,
    /// The digits before the point.
    pub int: &'a [u8],
    /// The digits behind the point.
    pub frac: &'a [u8],
    /// The exponent with its letter and its sign.
    pub exp: &'a [u8],
}

/// How many digits stand at the front.
fn digits_len(bytes: &[u8]) -> usize
    ensures len { result ≡ prefix_len is_digit bytes.now }
    ensures within { result ≤ length bytes.now }
{
    for (i, byte) in bytes.iter().enumerate() {
        if !is_digit(*byte) {
            return i;
        }
    }
    bytes.len()
}

/// The digits at the front, and what stands behind them.
fn split_digits(bytes: &[u8]) -> (&[u8], &[u8])
    ensures digits { result.0.now ≡ digits_of bytes.now }
    ensures rest { result.1.now ≡ behind_digits bytes.now }
{
    bytes.split_at(digits_len(bytes))
}

fn all_digits(bytes: &[u8]) -> bool
    ensures { result ≡ list_all is_digit bytes.now }
{
    bytes.iter().all(|byte| is_digit(*byte))
}

fn are_digits(bytes: &[u8]) -> bool
    ensures value { result ≡ are_digits bytes.now }
    ensures digits { result ≡ true → list_all is_digit bytes.now ≡ true }
{
    match bytes {
        [] => false,
        [first, rest @ ..] => is_digit(*first) && all_digits(rest),
    }
}

fn is_int(bytes: &[u8]) -> bool
    ensures value { result ≡ is_int bytes.now }
    ensures digits { result ≡ true → list_all is_digit bytes.now ≡ true }
{
    match bytes {
        [] => false,
        [digit] => is_digit(*digit),
        [first, rest @ ..] => b'1' <= *first && *first <= b'9' && are_digits(rest),
    }
}

fn are_signed_digits(bytes: &[u8]) -> bool
    ensures { result ≡ are_signed_digits bytes.now }
{
    match bytes {
        [] => false,
        [first, rest @ ..] => {
            if is_sign(*first) {
                return are_digits(rest);
            }
            are_digits(bytes)
        }
    }
}

fn is_exp(bytes: &[u8]) -> bool
    ensures { result ≡ is_exp bytes.now }
{
    match bytes {
        [] => true,
        [letter, rest @ ..] => is_e(*letter) && are_signed_digits(rest),
    }
}

#[tactic(auto, unfolding(crate::specs::Decimals::unsigned))]
fn unsigned(text: &[u8]) -> &[u8]
    ensures { result.now ≡ unsigned text.now }
{
    if next_is(text, b'-') {
        return behind_first(text);
    }
    text
}

/// The digits behind a point, if there is one, and what stands behind them.
#[tactic(auto, unfolding(crate::specs::Decimals::point_at, crate::specs::Decimals::behind_frac))]
fn point_at(rest: &[u8]) -> Option<(&[u8], &[u8])>
    ensures { MatchOption result (is_frac (point_at rest.now) ≡ false) (λ r. (is_frac (point_at rest.now) ≡ true) × (r.0.now ≡ behind_first (point_at rest.now)) × (list_all is_digit r.0.now ≡ true) × (r.1.now ≡ behind_frac rest.now)) }
{
    if !next_is(rest, b'.') {
        return Some((&rest[..0], rest));
    }
    let (frac, behind) = split_digits(behind_first(rest));
    if !are_digits(frac) {
        return None;
    }
    Some((frac, behind))
}

/// The parts of a text, where it is a number (RFC 8259, section 6).
#[tactic(auto, unfolding(crate::specs::Decimals::is_number))]
pub fn number_of(text: &[u8]) -> Option<Number<'_>>
    ensures { MatchOption result (is_number text.now ≡ false) (λ n. IsNumberIn n text.now) }
{
    let negative = next_is(text, b'-');
    let (int, rest) = split_digits(unsigned(text));
    if !is_int(int) {
        return None;
    }
    let (frac, exp) = point_at(rest)?;
    if !is_exp(exp) {
        return None;
    }
    Some(Number {
        negative,
        int,
        frac,
        exp,
    })
}

/// The whole number that a text is, where it has 64 bits.
pub fn whole_in(text: &[u8]) -> Option<i64>
    ensures { result ≡ whole_in text.now }
{
    match number_of(text) {
        Some(_) => whole_of(text),
        None => None,
    }
}
