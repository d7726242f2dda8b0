// Whether a part stands in a text.
ghost use Rattle.std.specs.Prelude.{◌≡◌};
ghost use Rattle.gl_text.specs.Texts.{contains};

use memchr::memmem;

/// Whether the part stands in the text, searched for many bytes at a time. The empty part stands in each.
pub fn contains(text: &str, part: &str) -> bool
    ensures { result ≡ contains part.now text.now }
{
    memmem::find(text.as_bytes(), part.as_bytes()).is_some()
}
