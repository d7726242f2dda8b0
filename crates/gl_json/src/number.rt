// Numbers, each part of which is read to its end.
ghost use Rattle.std.specs.Prelude.{◌≡◌};
ghost use Rattle.gl_base.specs.Bytes.{is_digit, is_sign, is_e};
ghost use Rattle.gl_json.specs.JsonReading.{Gives, digits_at, int_at, minus_at, frac_at, signed_at, exp_at, number_at};

use crate::bytes::{self, Stop};
use gl_base::bytes::{is_e, is_sign};

/// One digit or more.
#[tactic(auto, unfolding(crate::specs::JsonReading::digits_at))]
fn digits_at(bytes: &[u8]) -> Result<&[u8], Stop>
    ensures { Gives (λ x. x.now) result (digits_at bytes.now) }
{
    let (_, rest) = bytes::digit_at(bytes)?;
    Ok(bytes::past_digits(rest))
}

#[tactic(auto, unfolding(crate::specs::JsonReading::int_at))]
fn int_at(bytes: &[u8]) -> Result<&[u8], Stop>
    ensures { Gives (λ x. x.now) result (int_at bytes.now) }
{
    match bytes {
        [] => Err(Stop::At { left: 0 }),
        [byte, rest @ ..] => {
            if *byte == b'0' {
                return Ok(rest);
            }
            digits_at(bytes)
        }
    }
}

#[tactic(auto, unfolding(crate::specs::JsonReading::minus_at))]
fn minus_at(bytes: &[u8]) -> Result<&[u8], Stop>
    ensures { Gives (λ x. x.now) result (minus_at bytes.now) }
{
    match bytes {
        [] => Err(Stop::At { left: 0 }),
        [byte, rest @ ..] => {
            if *byte == b'-' {
                return int_at(rest);
            }
            int_at(bytes)
        }
    }
}

#[tactic(auto, unfolding(crate::specs::JsonReading::frac_at))]
fn frac_at(bytes: &[u8]) -> Result<&[u8], Stop>
    ensures { Gives (λ x. x.now) result (frac_at bytes.now) }
{
    match bytes {
        [] => Ok(bytes),
        [byte, rest @ ..] => {
            if *byte == b'.' {
                return digits_at(rest);
            }
            Ok(bytes)
        }
    }
}

#[tactic(auto, unfolding(crate::specs::JsonReading::signed_at))]
fn signed_at(bytes: &[u8]) -> Result<&[u8], Stop>
    ensures { Gives (λ x. x.now) result (signed_at bytes.now) }
{
    match bytes {
        [] => Err(Stop::At { left: 0 }),
        [byte, rest @ ..] => {
            if is_sign(*byte) {
                return digits_at(rest);
            }
            digits_at(bytes)
        }
    }
}

#[tactic(auto, unfolding(crate::specs::JsonReading::exp_at))]
fn exp_at(bytes: &[u8]) -> Result<&[u8], Stop>
    ensures { Gives (λ x. x.now) result (exp_at bytes.now) }
{
    match bytes {
        [] => Ok(bytes),
        [byte, rest @ ..] => {
            if is_e(*byte) {
                return signed_at(rest);
            }
            Ok(bytes)
        }
    }
}

/// What stands behind a number.
#[tactic(auto, unfolding(crate::specs::JsonReading::number_at))]
pub fn number_at(bytes: &[u8]) -> Result<&[u8], Stop>
    ensures { Gives (λ x. x.now) result (number_at bytes.now) }
{
    let int = minus_at(bytes)?;
    let frac = frac_at(int)?;
    exp_at(frac)
}
