// Where a part stands in a text, and the pieces between its occurrences.
ghost use Rattle.std.specs.Prelude.{◌≡◌, ◌+◌, ◌≤◌, length, IfSome, IsCharBoundary};
ghost use Rattle.gl_text.specs.Texts.{first_at, contains, piece};

/// Behind how many bytes the part first stands in the text.
pub fn first_at(text: &str, part: &str) -> Option<usize>
    ensures value { result ≡ first_at part.now text.now }
    ensures begins { IfSome result (λ k. IsCharBoundary text.now k) }
    ensures ends { IfSome result (λ k. IsCharBoundary text.now (k + length part.now)) }
{
    text.find(part)
}

/// Whether the part stands in the text. The empty part stands in each.
pub fn contains(text: &str, part: &str) -> bool
    ensures { result ≡ contains part.now text.now }
{
    first_at(text, part).is_some()
}

/// The piece of this index, from 1, of those into which the occurrences of `by`, taken from the left,
/// part the text: the bytes from which to before which it goes. `None` where the index is 0, `by` is
/// empty, or there are fewer pieces.
pub fn piece(text: &str, by: &str, index: u64) -> Option<(usize, usize)>
    ensures value { result ≡ piece by.now index text.now }
    ensures cuts { IfSome result (λ span. (span.0 ≤ span.1) × IsCharBoundary text.now span.0 × IsCharBoundary text.now span.1) }
{
    if index == 0 || by.is_empty() {
        return None;
    }
    let mut at = 0;
    for _passed in 1..index {
        at += first_at(&text[at..], by)? + by.len();
    }
    let rest = &text[at..];
    let len = first_at(rest, by).unwrap_or(rest.len());
    Some((at, at + len))
}
