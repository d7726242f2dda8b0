// The whole number that a text writes.
ghost use Rattle.std.specs.Prelude.{◌≡◌};
ghost use Rattle.gl_text.specs.Numbers.{whole_number};

/// The whole number that the text writes: decimal digits, with or without `-` before them, from
/// -9,223,372,036,854,775,808 to 9,223,372,036,854,775,807. `None` where it writes none: no sign but `-`,
/// no blank, and no number past these ends.
pub fn whole_number(text: &str) -> Option<i64>
    ensures { result ≡ whole_number text.now }
{
    if text.starts_with('+') {
        return None;
    }
    text.parse::<i64>().ok()
}
