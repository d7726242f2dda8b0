// What a word and a phrase of a query say.
ghost use Rattle.std.specs.Prelude.{◌≡◌, ◌==◌, ◌<◌, ◌≤◌, ◌^◌, length, not, ◌&&◌, false, IfOk, IfSome};
ghost use Rattle.std.specs.List.{list_any};
ghost use Rattle.gl_query.specs.Words.{plain, piece_of, pieces, is_wildcard, is_any_run, word_term, number_of, bound_of, limit_of, comparison_term};

use crate::lexer::{byte_at, is_escape};
use crate::term::{Limit, Piece, Term};
use crate::token::{Comparison, Edge};
use gl_base::Items;
use gl_base::whole::{magnitude, signed_number};
use std::alloc::{AllocError, Global};

/// A word or a phrase without the backslashes that take a byte as it is.
#[tactic(auto, using(crate::proofs::Wording::plain_skips, crate::proofs::Wording::plain_goes, crate::proofs::Wording::plain_over))]
pub(crate) fn plain(alloc: Global, word: &[u8]) -> Result<Items<u8>, AllocError>
    ensures { IfOk result (λ t. t ≡ plain false word.now) }
{
    let mut text = Vec::new(alloc);
    let mut escaped = false;
    for b in word {
        let skipped = is_escape(escaped, *b);
        if !skipped {
            text.push(*b)?;
        }
        escaped = skipped;
    }
    Ok(Items::from_vec(text))
}

fn piece_of(escaped: bool, b: u8) -> Piece
    ensures { result ≡ piece_of escaped b }
{
    if escaped {
        return Piece::Byte(b);
    }
    if b == b'*' {
        return Piece::AnyRun;
    }
    if b == b'?' {
        return Piece::AnyOne;
    }
    Piece::Byte(b)
}

#[tactic(auto, using(crate::proofs::Wording::pieces_skips, crate::proofs::Wording::pieces_goes, crate::proofs::Wording::pieces_over))]
fn pieces(alloc: Global, word: &[u8]) -> Result<Items<Piece>, AllocError>
    ensures { IfOk result (λ t. t ≡ pieces false word.now) }
{
    let mut pattern = Vec::new(alloc);
    let mut escaped = false;
    for b in word {
        let skipped = is_escape(escaped, *b);
        if !skipped {
            pattern.push(piece_of(escaped, *b))?;
        }
        escaped = skipped;
    }
    Ok(Items::from_vec(pattern))
}

fn is_wildcard(piece: Piece) -> bool
    ensures { result ≡ is_wildcard piece }
{
    match piece {
        Piece::Byte(_) => false,
        Piece::AnyRun => true,
        Piece::AnyOne => true,
    }
}

fn has_wildcard(pattern: &[Piece]) -> bool
    ensures { result ≡ list_any is_wildcard pattern.now }
{
    pattern.iter().any(|piece| is_wildcard(*piece))
}

fn is_any_run(word: &[u8]) -> bool
    ensures { result ≡ is_any_run word.now }
{
    word == b"*".as_slice()
}

/// What a word asks of a field, or of the three.
pub(crate) fn word_term(
    alloc: Global,
    field: Option<Items<u8>>,
    word: &[u8],
) -> Result<Term, AllocError>
    ensures { IfOk result (λ t. t ≡ word_term field word.now) }
{
    let pattern = pieces(alloc, word)?;
    if !has_wildcard(pattern.as_slice()) {
        let text = plain(alloc, word)?;
        return Ok(Term::Text(field, text));
    }
    match field {
        Some(name) => Ok(Term::Pattern(Some(name), pattern)),
        None => {
            if is_any_run(word) {
                return Ok(Term::All);
            }
            Ok(Term::Pattern(None, pattern))
        }
    }
}

/// The number that a word is.
pub(crate) fn number_of(word: &[u8]) -> Option<i64>
    ensures { result ≡ number_of word.now }
{
    if byte_at(word, 0) == b'-' {
        if word.len() < 2 {
            return None;
        }
        return signed_number(true, magnitude(&word[1..]));
    }
    if word.is_empty() {
        return None;
    }
    signed_number(false, magnitude(word))
}

/// The end of a range that a word is: a number, or none where it is `*`.
pub(crate) fn bound_of(word: &[u8]) -> Option<Option<i64>>
    ensures { result ≡ bound_of word.now }
{
    if is_any_run(word) {
        return Some(None);
    }
    let number = number_of(word)?;
    Some(Some(number))
}

pub(crate) fn limit_of(edge: Edge, bound: Option<i64>) -> Limit
    ensures { result ≡ limit_of edge bound }
{
    match bound {
        None => Limit::Unbounded,
        Some(number) => match edge {
            Edge::Including => Limit::Included(number),
            Edge::Excluding => Limit::Excluded(number),
        },
    }
}

pub(crate) fn comparison_term(name: Items<u8>, comparison: Comparison, number: i64) -> Term
    ensures { result ≡ comparison_term name comparison number }
{
    match comparison {
        Comparison::Above => Term::Within(name, Limit::Excluded(number), Limit::Unbounded),
        Comparison::AtLeast => Term::Within(name, Limit::Included(number), Limit::Unbounded),
        Comparison::Below => Term::Within(name, Limit::Unbounded, Limit::Excluded(number)),
        Comparison::AtMost => Term::Within(name, Limit::Unbounded, Limit::Included(number)),
    }
}
