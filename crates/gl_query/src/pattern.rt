// Words with wildcards.
ghost use Rattle.std.specs.Prelude.{◌≡◌, ◌<◌, ◌≤◌, length, Some, None, MatchOption};
ghost use Rattle.std.specs.List.{list_any};
ghost use Rattle.gl_query.specs.Texts.{text_tokens, some_end};
ghost use Rattle.gl_query.specs.Patterns.{is_continuation, same_byte, rest_of_character, is_any_run, behind, covers, pattern_holds};
ghost use Rattle.gl_query.specs.Attempts.{Tried};

use crate::term::Piece;
use crate::texts::next_token;

fn is_continuation(b: u8) -> bool
    ensures { result ≡ is_continuation b }
{
    b >= 128 && b < 192
}

fn same_byte(a: u8, b: u8) -> bool
    ensures { result ≡ same_byte a b }
{
    a.to_ascii_lowercase() == b.to_ascii_lowercase()
}

// The text without the rest of a character at its front.
#[tactic(auto, using(crate::proofs::Covering::rest_goes, crate::proofs::Covering::rest_stops, crate::proofs::Covering::rest_over))]
fn rest_of_character(text: &[u8]) -> &[u8]
    ensures rest { result.now ≡ rest_of_character text.now }
    ensures shorter { length result.now ≤ length text.now }
{
    for (n, b) in text.iter().enumerate() {
        if !is_continuation(*b) {
            return &text[n..];
        }
    }
    &text[text.len()..]
}

fn is_any_run(piece: Piece) -> bool
    ensures { result ≡ is_any_run piece }
{
    match piece {
        Piece::AnyRun => true,
        Piece::AnyOne => false,
        Piece::Byte(_) => false,
    }
}

// What stands behind the byte or the character that a piece takes.
fn behind(piece: Piece, text: &[u8]) -> Option<&[u8]>
    ensures { MatchOption result (behind piece text.now ≡ None) (λ rest. (behind piece text.now ≡ Some rest.now) × (length rest.now < length text.now)) }
{
    match text.split_first() {
        None => None,
        Some((first, rest)) => match piece {
            Piece::Byte(byte) => {
                if same_byte(byte, *first) {
                    return Some(rest);
                }
                None
            }
            Piece::AnyOne => Some(rest_of_character(rest)),
            Piece::AnyRun => None,
        },
    }
}

// How far a pattern goes before its first `*`.
#[derive(Clone, Copy)]
enum Attempt<'a> {
    // It has none, and covers the text.
    Covered,
    // It covers no part of the text.
    Failed,
    // This stands behind the `*`, and this part of the text is left for both.
    Run(&'a [Piece], &'a [u8]),
}

fn try_front<'a>(pattern: &'a [Piece], text: &'a [u8]) -> Attempt<'a>
    ensures { Tried pattern.now text.now result }
{
    let mut left = pattern;
    let mut text = text;
    while let Some((piece, more)) = left.split_first() {
        if is_any_run(*piece) {
            return Attempt::Run(more, text);
        }
        match behind(*piece, text) {
            None => return Attempt::Failed,
            Some(rest) => {
                left = more;
                text = rest;
            }
        }
    }
    if text.is_empty() {
        return Attempt::Covered;
    }
    Attempt::Failed
}

// Whether the pattern covers some end of the text. Where it fails behind a later `*`, no other run of
// an earlier one helps, so only the last is tried again.
fn covers_some_end(pattern: &[Piece], text: &[u8]) -> bool
    ensures { result ≡ some_end (covers pattern.now) text.now }
{
    let mut pattern = pattern;
    let mut text = text;
    loop {
        match try_front(pattern, text) {
            Attempt::Covered => return true,
            Attempt::Failed => match text.split_first() {
                None => return false,
                Some((_, rest)) => text = rest,
            },
            Attempt::Run(more, rest) => {
                pattern = more;
                text = rest;
            }
        }
    }
}

/// Whether the pattern covers the text. It takes no memory, and time as the text times the pattern.
fn covers(pattern: &[Piece], text: &[u8]) -> bool
    ensures { result ≡ covers pattern.now text.now }
{
    match try_front(pattern, text) {
        Attempt::Covered => true,
        Attempt::Failed => false,
        Attempt::Run(more, rest) => covers_some_end(more, rest),
    }
}

fn covers_token(pattern: &[Piece], text: &[u8]) -> bool
    ensures { result ≡ list_any (covers pattern.now) (text_tokens text.now) }
{
    let mut text = text;
    while let Some((token, rest)) = next_token(text) {
        if covers(pattern, token) {
            return true;
        }
        text = rest;
    }
    false
}

/// Whether the pattern covers a token of the text, or the whole.
pub(crate) fn pattern_holds(pattern: &[Piece], text: &[u8]) -> bool
    ensures { result ≡ pattern_holds pattern.now text.now }
{
    covers(pattern, text) || covers_token(pattern, text)
}
