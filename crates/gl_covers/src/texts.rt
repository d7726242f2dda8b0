// The rows that may have a text.
ghost use Rattle.std.specs.Prelude.{◌≡◌, false, true, List, Option, map, IfOk};
ghost use Rattle.std.specs.Char.{to_ascii_lowercase};
ghost use Rattle.gl_indexset.specs.declared.row.Row.{Row};
ghost use Rattle.gl_query.specs.Required.{is_number, lower_tokens};
ghost use Rattle.gl_words.specs.Candidates.{positions};
ghost use Rattle.gl_words.specs.Words.{StandsFor};
ghost use Rattle.gl_covers.specs.Covers.{Terms, covered, looked_in, term_cover, text_cover, token_in};
ghost use Rattle.gl_covers.specs.Suspects.{found_by, with_token};

use crate::merging::{merged, narrower};
use gl_base::Items;
use gl_query::{Term, next_token};
use gl_words::Postings;
use std::alloc::{AllocError, Global};

fn is_number(token: &[u8]) -> bool
    ensures { result ≡ is_number token.now }
{
    token.iter().all(|byte| byte.is_ascii_digit())
}

// The positions of the rows that have a token in one of the three fields that a text without a field is looked for in.
fn in_one_of_three(alloc: Global, words: &Postings, token: &[u8]) -> Result<Items<u64>, AllocError>
    requires { is_number (map to_ascii_lowercase token.now) ≡ false }
    ensures { (rows : List Row) → StandsFor words.now rows → IfOk result (λ found. found ≡ positions (covered rows (token_in (looked_in None) (map to_ascii_lowercase token.now)))) }
{
    let message = words.positions(b"message".as_slice(), token);
    let full_message = words.positions(b"full_message".as_slice(), token);
    let source = words.positions(b"source".as_slice(), token);
    let both = merged(alloc, message, full_message)?;
    merged(alloc, both.as_slice(), source)
}

// The positions of the rows that have a token in the field, or in one of the three.
fn of_token(
    alloc: Global,
    words: &Postings,
    field: &Option<Items<u8>>,
    token: &[u8],
) -> Result<Items<u64>, AllocError>
    requires { is_number (map to_ascii_lowercase token.now) ≡ false }
    ensures { (rows : List Row) → StandsFor words.now rows → IfOk result (λ found. found ≡ positions (covered rows (token_in (looked_in field.now) (map to_ascii_lowercase token.now)))) }
{
    match field {
        Some(name) => Items::from_slice(alloc, words.positions(name.as_slice(), token)),
        None => in_one_of_three(alloc, words, token),
    }
}

// The positions of before, or those of the rows that have a token more, where they are fewer. One of digits alone counts for nothing.
fn narrowed(
    alloc: Global,
    words: &Postings,
    field: &Option<Items<u8>>,
    found: Option<Items<u64>>,
    token: &[u8],
) -> Result<Option<Items<u64>>, AllocError>
    ensures { (rows : List Row) (so_far : Option Terms) → StandsFor words.now rows → found ≡ found_by rows so_far
        → IfOk result (λ found. found ≡ found_by rows (with_token rows so_far (looked_in field.now) (map to_ascii_lowercase token.now))) }
{
    if is_number(token) {
        return Ok(found);
    }
    let next = of_token(alloc, words, field, token)?;
    Ok(narrower(found, Some(next)))
}

// The positions of the rows that have the rarest word of a text.
fn of_text(
    alloc: Global,
    words: &Postings,
    field: &Option<Items<u8>>,
    text: &[u8],
) -> Result<Option<Items<u64>>, AllocError>
    ensures { (rows : List Row) → StandsFor words.now rows → IfOk result (λ found. found ≡ found_by rows (text_cover rows (looked_in field.now) (lower_tokens text.now))) }
{
    let mut found = None;
    let mut text = text;
    while let Some((token, rest)) = next_token(text) {
        found = narrowed(alloc, words, field, found, token)?;
        text = rest;
    }
    Ok(found)
}

// The positions of the rows that have a term of a term's cover.
fn of_term(alloc: Global, words: &Postings, term: &Term) -> Result<Option<Items<u64>>, AllocError>
    ensures { (rows : List Row) → StandsFor words.now rows → IfOk result (λ found. found ≡ found_by rows (term_cover rows term.now)) }
{
    match term {
        Term::Text(field, text) => of_text(alloc, words, field, text.as_slice()),
        Term::All => Ok(None),
        Term::Exists(_) => Ok(None),
        Term::Pattern(_, _) => Ok(None),
        Term::Within(_, _, _) => Ok(None),
    }
}

/// The positions of the rows that have a term of a term's cover, if they are wanted.
pub(crate) fn of_wanted(
    alloc: Global,
    words: &Postings,
    wanted: bool,
    term: &Term,
) -> Result<Option<Items<u64>>, AllocError>
    ensures { (rows : List Row) → StandsFor words.now rows → wanted ≡ true → IfOk result (λ found. found ≡ found_by rows (term_cover rows term.now)) }
{
    if wanted {
        of_term(alloc, words, term)
    } else {
        Ok(None)
    }
}
