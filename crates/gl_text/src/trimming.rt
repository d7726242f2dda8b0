// A text without the spaces at its ends.
ghost use Rattle.std.specs.Prelude.{◌≡◌, reverse};
ghost use Rattle.gl_text.specs.Changing.{past_spaces, trimmed};

/// The text without the spaces at both ends. No other blank is left out.
pub fn trimmed(text: &str) -> &str
    ensures { result.now ≡ trimmed text.now }
{
    before_spaces(past_spaces(text))
}

// Without those at its front.
fn past_spaces(text: &str) -> &str
    ensures { result.now ≡ past_spaces text.now }
{
    let mut rest = text;
    while let Some(behind) = rest.strip_prefix(' ') {
        rest = behind;
    }
    rest
}

// Without those at its end.
fn before_spaces(text: &str) -> &str
    ensures { result.now ≡ reverse (past_spaces (reverse text.now)) }
{
    let mut rest = text;
    while let Some(before) = rest.strip_suffix(' ') {
        rest = before;
    }
    rest
}
