// A text with another in the place of a part.
ghost use Rattle.std.specs.Prelude.{◌≡◌, ◌+◌, ◌≤◌, ◌<◌, ◌++◌, nat_le, length, cond, Some, None, IfOk, true, false, if◌then◌else◌};
ghost use Rattle.std.specs.String.{string_bytes, string_len};
ghost use Rattle.gl_text.specs.Changing.{replaced};

use crate::find::first_at;
use gl_base::Text;
use std::alloc::{AllocError, Global};

/// The text with `new` in the place of each occurrence of the part, taken from the left; an empty part changes
/// nothing. `None` where that would have more than `at_most` bytes: then no more than so many are taken.
pub fn replaced(
    alloc: Global,
    text: &str,
    part: &str,
    new: &str,
    at_most: usize,
) -> Result<Option<Text>, AllocError>
    ensures { IfOk result (λ t. t ≡ (if nat_le (length (replaced part.now new.now text.now)) at_most then Some (replaced part.now new.now text.now) else None)) }
{
    let mut out = String::new(alloc);
    if part.is_empty() {
        return within(out, text, at_most);
    }
    let mut rest = text;
    while let Some(at) = first_at(rest, part) {
        if !push_within(&mut out, &rest[..at], at_most)? {
            return Ok(None);
        }
        if !push_within(&mut out, new, at_most)? {
            return Ok(None);
        }
        rest = &rest[at + part.len()..];
    }
    within(out, rest, at_most)
}

// What was written and this behind it, where both have no more bytes than so many.
fn within(mut out: String, rest: &str, at_most: usize) -> Result<Option<Text>, AllocError>
    requires { string_len out ≤ at_most }
    ensures { IfOk result (λ t. t ≡ (if nat_le (length (string_bytes out ++ rest.now)) at_most then Some (string_bytes out ++ rest.now) else None)) }
{
    if !push_within(&mut out, rest, at_most)? {
        return Ok(None);
    }
    Ok(Some(Text::from_string(out)))
}

// Writes a part, where all that is written then has no more bytes than so many, and answers whether it does.
fn push_within(out: &mut String, part: &str, at_most: usize) -> Result<bool, AllocError>
    requires { string_len out.old ≤ at_most }
    ensures wrote { IfOk result (λ yes. yes ≡ true → (string_bytes out.new ≡ string_bytes out.old ++ part.now) × (string_len out.new ≤ at_most)) }
    ensures over { IfOk result (λ yes. yes ≡ false → at_most < string_len out.old + length part.now) }
{
    if part.len() > at_most - out.len() {
        return Ok(false);
    }
    out.push_str(part)?;
    Ok(true)
}
