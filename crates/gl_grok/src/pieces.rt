// The pieces of a text.
ghost use Rattle.std.specs.Prelude.{◌≡◌, ◌<◌, ◌++◌, ◌∷◌, ◌==◌, length, map, take, option_map, MatchOption, IfSome};
ghost use Rattle.std.specs.List.{list_all, list_any};
ghost use Rattle.gl_grok.specs.Pieces.{byte, is_name_byte, is_pattern_name, reference_in, split, behind_percent, pieces};
ghost use Rattle.gl_grok.specs.Fronts.{piece_of, at_percent};

use gl_fields::is_field_name;

const MAX_NAME: usize = 64;

// A name, a colon and a field name of 255 bytes.
const MAX_INSIDE: usize = MAX_NAME + 1 + 255;

/// The name of a pattern, and the field that what it matches is given to.
#[derive(Clone, Copy)]
pub struct Reference<'t> {
    pub name: &'t str,
    pub field: Option<&'t str>,
}

/// What stands before the first `%` of a text, the reference that it begins, if it does, and what stands behind.
#[derive(Clone, Copy)]
pub struct Front<'t> {
    pub before: &'t str,
    pub reference: Option<Reference<'t>>,
    pub after: &'t str,
}

fn has_name_bytes(name: &[u8]) -> bool
    ensures { result ≡ list_all is_name_byte name.now }
{
    name.iter().all(|b| b.is_ascii_alphanumeric() || *b == b'_')
}

fn is_pattern_name(name: &str) -> bool
    ensures { result ≡ is_pattern_name name.now }
{
    !name.is_empty() && name.len() <= MAX_NAME && has_name_bytes(name.as_bytes())
}

/// The reference that stands between `%{` and `}`.
fn read_reference(text: &str) -> Option<Reference<'_>>
    ensures { option_map piece_of result ≡ reference_in text.now }
{
    match text.split_once(':') {
        Some((name, field)) if is_pattern_name(name) && is_field_name(field) => Some(Reference {
            name,
            field: Some(field),
        }),
        None if is_pattern_name(text) => Some(Reference {
            name: text,
            field: None,
        }),
        _ => None,
    }
}

/// Whether a `}` stands where the longest reference has it, or before.
fn closes_soon(text: &str) -> bool
    ensures { result ≡ list_any (λ b. b == 125) (take 321 text.now) }
{
    text.as_bytes()
        .iter()
        .take(MAX_INSIDE + 1)
        .any(|b| *b == b'}')
}

/// The reference that a `%` before this text begins, and the text behind it.
fn behind_percent(text: &str) -> Option<(Reference<'_>, &str)>
    ensures { option_map (λ x. (piece_of x.0, x.1.now)) result ≡ behind_percent text.now }
{
    let Some(text) = text.strip_prefix('{') else {
        return None;
    };
    // A text with many `%{` and no `}` is gone through once, and not once for each.
    if !closes_soon(text) {
        return None;
    }
    let (inside, after) = text.split_once('}')?;
    let reference = read_reference(inside)?;
    Some((reference, after))
}

fn split_percent(text: &str) -> Option<(&str, &str)>
    ensures { option_map (λ x. (x.0.now, x.1.now)) result ≡ split 37 text.now }
{
    text.split_once('%')
}

/// The first `%` of a text, with what stands around it; none where it has no `%`.
pub fn first_percent(text: &str) -> Option<Front<'_>>
    ensures pieces { MatchOption result (pieces text.now ≡ map byte text.now) (λ f. pieces text.now ≡ map byte f.before.now ++ at_percent f.reference ∷ pieces f.after.now) }
    ensures shorter { IfSome result (λ f. length f.after.now < length text.now) }
{
    let Some((before, behind)) = split_percent(text) else {
        return None;
    };
    match behind_percent(behind) {
        Some((reference, after)) => Some(Front {
            before,
            reference: Some(reference),
            after,
        }),
        None => Some(Front {
            before,
            reference: None,
            after: behind,
        }),
    }
}
