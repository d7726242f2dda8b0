// What a query asks of the text of a whole number.
ghost use Rattle.std.specs.Prelude.{◌≡◌, ◌++◌, OnOk};
ghost use Rattle.std.specs.Fmt.{signed_decimal};
ghost use Rattle.std.specs.Str.{bytes_eq};
ghost use Rattle.gl_query.specs.Patterns.{pattern_holds};

use crate::pattern::pattern_holds;
use crate::term::Piece;
use gl_text::Decimal;
use std::alloc::AllocError;

/// Whether this is the number's text.
pub(crate) fn is_decimal(number: i64, text: &[u8]) -> bool
    ensures { result ≡ bytes_eq (signed_decimal number) text.now }
{
    Decimal::new(number).as_str().as_bytes() == text
}

/// Whether a pattern covers a token of the number's text, or the whole.
pub(crate) fn decimal_holds(pattern: &[Piece], number: i64) -> bool
    ensures { result ≡ pattern_holds pattern.now (signed_decimal number) }
{
    pattern_holds(pattern, Decimal::new(number).as_str().as_bytes())
}

/// Writes the number's text.
pub(crate) fn push_decimal(out: &mut Vec<u8>, number: i64) -> Result<(), AllocError>
    ensures { OnOk result (out.new.items ≡ out.old.items ++ signed_decimal number) }
{
    out.extend_from_slice(Decimal::new(number).as_str().as_bytes())
}
