//! What a byte of a number is, and what stands at the front of bytes.
ghost use Rattle.std.specs.Prelude.{◌≡◌};
ghost use Rattle.gl_base.specs.Bytes.{is_digit, is_sign, is_e, next_is, behind_first};

/// One of `0` to `9`.
pub fn is_digit(byte: u8) -> bool
    ensures { result ≡ is_digit byte }
{
    byte.is_ascii_digit()
}

/// `+` or `-`.
pub fn is_sign(byte: u8) -> bool
    ensures { result ≡ is_sign byte }
{
    byte == b'+' || byte == b'-'
}

/// The letter of an exponent.
pub fn is_e(byte: u8) -> bool
    ensures { result ≡ is_e byte }
{
    byte == b'e' || byte == b'E'
}

/// Whether this byte comes first.
pub fn next_is(bytes: &[u8], sign: u8) -> bool
    ensures { result ≡ next_is sign bytes.now }
{
    match bytes {
        [] => false,
        [byte, ..] => *byte == sign,
    }
}

/// The bytes but the first, none of none.
pub fn behind_first(bytes: &[u8]) -> &[u8]
    ensures { result.now ≡ behind_first bytes.now }
{
    match bytes {
        [] => bytes,
        [_, rest @ ..] => rest,
    }
}
