// Whether a text begins with a part, ends with it or holds it, in this case of its letters or in any.
ghost use Rattle.std.specs.Prelude.{◌≡◌, IfOk};
ghost use Rattle.gl_text.specs.Texts.{begins_with, ends_with, contains};
ghost use Rattle.gl_text.specs.Changing.{lowercase};

use crate::case::lowercase;
use crate::find::contains;
use std::alloc::{AllocError, Global};

/// Whether the text begins with the part. Each begins with the empty one.
pub fn starts_with(text: &str, part: &str) -> bool
    ensures { result ≡ begins_with part.now text.now }
{
    text.starts_with(part)
}

/// Whether the text ends with the part. Each ends with the empty one.
pub fn ends_with(text: &str, part: &str) -> bool
    ensures { result ≡ ends_with part.now text.now }
{
    text.ends_with(part)
}

/// Whether the text begins with the part, where the case of ASCII letters plays no part.
pub fn starts_with_any_case(text: &str, part: &str) -> bool
    ensures { result ≡ begins_with (lowercase part.now) (lowercase text.now) }
{
    let bytes = text.as_bytes();
    let sought = part.as_bytes();
    if bytes.len() < sought.len() {
        return false;
    }
    bytes[..sought.len()].eq_ignore_ascii_case(sought)
}

/// Whether the text ends with the part, where the case of ASCII letters plays no part.
pub fn ends_with_any_case(text: &str, part: &str) -> bool
    ensures { result ≡ ends_with (lowercase part.now) (lowercase text.now) }
{
    let bytes = text.as_bytes();
    let sought = part.as_bytes();
    if bytes.len() < sought.len() {
        return false;
    }
    bytes[bytes.len() - sought.len()..].eq_ignore_ascii_case(sought)
}

/// Whether the part stands in the text, where the case of ASCII letters plays no part. It takes memory for both in
/// lower case, so that its time is that of `contains`.
pub fn contains_any_case(alloc: Global, text: &str, part: &str) -> Result<bool, AllocError>
    ensures { IfOk result (λ yes. yes ≡ contains (lowercase part.now) (lowercase text.now)) }
{
    let text = lowercase(alloc, text)?;
    let part = lowercase(alloc, part)?;
    Ok(contains(text.as_str(), part.as_str()))
}
