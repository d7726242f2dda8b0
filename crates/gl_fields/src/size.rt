// How many bytes the decimal of a number has.
ghost use Rattle.std.specs.Prelude.{◌≡◌, ◌≤◌, length};
ghost use Rattle.std.specs.Fmt.{decimal, signed_decimal};

/// How many digits the decimal of a number has.
fn decimal_len(number: u64) -> usize
    ensures len { result ≡ length (decimal number) }
    ensures few { result ≤ 20 }
{
    let mut len = 1;
    let mut rest = number;
    while rest >= 10 {
        rest /= 10;
        len += 1;
    }
    len
}

/// How many bytes the decimal of a number has, with `-` where it is negative.
pub fn signed_decimal_len(number: i64) -> usize
    ensures { result ≡ length (signed_decimal number) }
{
    let digits = decimal_len(number.unsigned_abs());
    if number < 0 { digits + 1 } else { digits }
}
