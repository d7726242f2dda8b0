// What stands at the front of a text.
ghost use Rattle.std.specs.Prelude.{◌≡◌, ◌==◌, IsTrue, not};
ghost use Rattle.std.specs.Int.{is_in_range};
ghost use Rattle.gl_base.specs.Bytes.{is_digit};
ghost use Rattle.gl_json.specs.Chars.{is_hex};
ghost use Rattle.gl_json.specs.Grammar.{is_blank};
ghost use Rattle.gl_json.specs.JsonReading.{Gives, past, trimmed, one_at, sign_at, word_at, before};

use gl_base::bytes::is_digit;

/// Why a text isn't read.
#[derive(Clone, Copy, Debug, PartialEq, Eq)]
pub enum Stop {
    /// How many bytes stand from the first one on that isn't taken.
    At { left: usize },
    /// A level too many opens.
    Deep,
}

/// Space, tab, line feed and carriage return.
fn is_blank(byte: u8) -> bool
    ensures { result ≡ is_blank byte }
{
    byte == b' ' || byte == b'\t' || byte == b'\n' || byte == b'\r'
}

fn is_hex(byte: u8) -> bool
    ensures { result ≡ is_hex byte }
{
    byte.is_ascii_hexdigit()
}

/// What stands behind white space.
#[tactic(auto, unfolding(crate::specs::JsonReading::past))]
pub fn trimmed(bytes: &[u8]) -> &[u8]
    ensures { result.now ≡ trimmed bytes.now }
{
    let mut rest = bytes;
    while let [byte, behind @ ..] = rest {
        if !is_blank(*byte) {
            return rest;
        }
        rest = behind;
    }
    rest
}

/// What stands behind digits.
#[tactic(auto, unfolding(crate::specs::JsonReading::past))]
pub fn past_digits(bytes: &[u8]) -> &[u8]
    ensures { result.now ≡ past is_digit bytes.now }
{
    let mut rest = bytes;
    while let [byte, behind @ ..] = rest {
        if !is_digit(*byte) {
            return rest;
        }
        rest = behind;
    }
    rest
}

/// A byte in this range.
#[tactic(auto, unfolding(crate::specs::JsonReading::one_at))]
pub fn byte_at(bytes: &[u8], least: u8, most: u8) -> Result<(u8, &[u8]), Stop>
    ensures { Gives (λ x. (x.0, x.1.now)) result (one_at (is_in_range least most) bytes.now) }
{
    match bytes {
        [] => Err(Stop::At { left: 0 }),
        [byte, rest @ ..] => {
            if *byte < least || most < *byte {
                return Err(Stop::At { left: bytes.len() });
            }
            Ok((*byte, rest))
        }
    }
}

#[tactic(auto, unfolding(crate::specs::JsonReading::one_at))]
pub fn digit_at(bytes: &[u8]) -> Result<(u8, &[u8]), Stop>
    ensures { Gives (λ x. (x.0, x.1.now)) result (one_at is_digit bytes.now) }
{
    byte_at(bytes, b'0', b'9')
}

/// A digit of a hexadecimal number.
#[tactic(auto, unfolding(crate::specs::JsonReading::one_at))]
pub fn hex_at(bytes: &[u8]) -> Result<(u8, &[u8]), Stop>
    ensures { Gives (λ x. (x.0, x.1.now)) result (one_at is_hex bytes.now) }
{
    match bytes {
        [] => Err(Stop::At { left: 0 }),
        [byte, rest @ ..] => {
            if !is_hex(*byte) {
                return Err(Stop::At { left: bytes.len() });
            }
            Ok((*byte, rest))
        }
    }
}

/// What stands behind this byte.
#[tactic(auto, unfolding(crate::specs::JsonReading::one_at))]
pub fn sign_at(bytes: &[u8], sign: u8) -> Result<(u8, &[u8]), Stop>
    ensures { Gives (λ x. (x.0, x.1.now)) result (sign_at sign bytes.now) }
{
    match bytes {
        [] => Err(Stop::At { left: 0 }),
        [byte, rest @ ..] => {
            if *byte != sign {
                return Err(Stop::At { left: bytes.len() });
            }
            Ok((*byte, rest))
        }
    }
}

/// What stands behind these bytes.
#[tactic(auto, unfolding(crate::specs::JsonReading::word_at))]
pub fn word_at<'a>(word: &[u8], bytes: &'a [u8]) -> Result<&'a [u8], Stop>
    ensures { Gives (λ x. x.now) result (word_at word.now bytes.now) }
{
    let mut rest = bytes;
    for letter in word {
        match rest {
            [] => return Err(Stop::At { left: 0 }),
            [byte, behind @ ..] => {
                if *byte != *letter {
                    return Err(Stop::At { left: rest.len() });
                }
                rest = behind;
            }
        }
    }
    Ok(rest)
}

/// The bytes before those that are left.
pub fn before<'a>(rest: &[u8], bytes: &'a [u8]) -> &'a [u8]
    ensures { result.now ≡ before rest.now bytes.now }
{
    &bytes[..bytes.len().saturating_sub(rest.len())]
}
