// Characters of a text by their numbers.
ghost use Rattle.std.specs.Prelude.{◌≡◌, ◌≤◌, nat_le, length, if◌then◌else◌, Some, None, IfSome, IsCharBoundary};
ghost use Rattle.std.specs.Str.{chars};
ghost use Rattle.gl_text.specs.Texts.{bytes_of, characters};

// How many bytes the first `count` characters have; `None` where there are fewer.
fn bytes_of(text: &str, count: u64) -> Option<usize>
    ensures value { result ≡ (if nat_le count (length (chars text.now)) then Some (bytes_of count text.now) else None) }
    ensures cut { IfSome result (λ n. IsCharBoundary text.now n) }
{
    let mut characters = text.chars();
    for _passed in 0..count {
        characters.next()?;
    }
    Some(text.len() - characters.as_str().len())
}

/// The characters from `begin`, the first being 0, to before `end`, as the bytes from which to before which
/// they go. `None` where `begin` isn't below `end`, or the text has fewer than `end` characters.
pub fn characters(text: &str, begin: u64, end: u64) -> Option<(usize, usize)>
    ensures value { result ≡ characters begin end text.now }
    ensures cuts { IfSome result (λ span. (span.0 ≤ span.1) × IsCharBoundary text.now span.0 × IsCharBoundary text.now span.1) }
{
    if begin >= end {
        return None;
    }
    let last = bytes_of(text, end)?;
    let first = bytes_of(text, begin)?;
    Some((first, last))
}

/// How many characters the text has.
pub fn character_count(text: &str) -> usize
    ensures { result ≡ length (chars text.now) }
{
    text.chars().count()
}
