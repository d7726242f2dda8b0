// Tokens of a query's text.
ghost use Rattle.std.specs.Prelude.{◌≡◌, ◌+◌, ◌==◌, ◌<◌, ◌≤◌, ◌^◌, ◌&&◌, ◌||◌, not, length, false, IfOk, IfSome, slice_index};
ghost use Rattle.gl_query.specs.Tokens.{ends_word, either_token, word_end, phrase_end, word_or_field, named_token, word_token, phrase_token, sign_token, text_token, token_at};

use crate::token::{Comparison, Edge, Token};
use gl_base::Items;
use std::alloc::{AllocError, Global};

pub(crate) fn ends_word(b: u8) -> bool
    ensures { result ≡ ends_word b }
{
    b == b' '
        || b == b'('
        || b == b')'
        || b == b'"'
        || b == b':'
        || b == b'['
        || b == b']'
        || b == b'{'
        || b == b'}'
        || b == b'<'
        || b == b'>'
        || b == b'!'
        || b == b'&'
        || b == b'|'
}

// Whether this byte ends a word, and is no part of it.
fn is_end(escaped: bool, b: u8) -> bool
    ensures { result ≡ (not escaped && ends_word b) }
{
    !escaped && ends_word(b)
}

// Whether this byte is a backslash that takes the next one as it is.
pub(crate) fn is_escape(escaped: bool, b: u8) -> bool
    ensures { result ≡ (not escaped && b == 92) }
{
    !escaped && b == b'\\'
}

fn is_quote(escaped: bool, b: u8) -> bool
    ensures { result ≡ (not escaped && b == 34) }
{
    !escaped && b == b'"'
}

// Whether a backslash stands before this byte in vain.
fn is_misled(escaped: bool, b: u8) -> bool
    ensures { result ≡ (escaped && not (b == 34 || b == 92)) }
{
    escaped && !(b == b'"' || b == b'\\')
}

// Where the word at the front ends; none where a lone backslash ends the text.
#[tactic(auto, using(crate::proofs::Lexing::word_end_stops, crate::proofs::Lexing::word_end_goes, crate::proofs::Lexing::word_end_over))]
fn word_end(text: &[u8]) -> Option<usize>
    ensures end { result ≡ word_end 0 false text.now }
    ensures within { IfSome result (λ n. n ≤ length text.now) }
{
    let mut escaped = false;
    for (n, b) in text.iter().enumerate() {
        if is_end(escaped, *b) {
            return Some(n);
        }
        escaped = is_escape(escaped, *b);
    }
    if escaped {
        return None;
    }
    Some(text.len())
}

// Where a phrase ends behind its first quote, before the quote that ends it.
#[tactic(auto, using(crate::proofs::Lexing::phrase_end_stops, crate::proofs::Lexing::phrase_end_misled, crate::proofs::Lexing::phrase_end_goes, crate::proofs::Lexing::phrase_end_over))]
fn phrase_end(text: &[u8]) -> Option<usize>
    ensures end { result ≡ phrase_end 0 false text.now }
    ensures within { IfSome result (λ n. n < length text.now) }
{
    let mut escaped = false;
    for (n, b) in text.iter().enumerate() {
        if is_quote(escaped, *b) {
            return Some(n);
        }
        if is_misled(escaped, *b) {
            return None;
        }
        escaped = is_escape(escaped, *b);
    }
    None
}

fn either_token(is_long: bool, long: Token, short: Token) -> (Token, usize)
    ensures token { result ≡ either_token is_long long short }
    ensures few { result.1 ≤ 2 }
{
    if is_long { (long, 2) } else { (short, 1) }
}

#[tactic(auto, unfolding(crate::specs::Tokens::sign_token))]
fn sign_token(first: u8, second: u8) -> Option<(Token, usize)>
    ensures token { result ≡ sign_token first second }
    ensures few { IfSome result (λ t. t.1 ≤ 2) }
{
    match first {
        b'(' => Some((Token::Open, 1)),
        b')' => Some((Token::Close, 1)),
        b'[' => Some((Token::Begin(Edge::Including), 1)),
        b']' => Some((Token::End(Edge::Including), 1)),
        b'{' => Some((Token::Begin(Edge::Excluding), 1)),
        b'}' => Some((Token::End(Edge::Excluding), 1)),
        b'!' => Some((Token::Not, 1)),
        b':' => Some((Token::Unreadable, 1)),
        b'>' => Some(either_token(
            second == b'=',
            Token::Compare(Comparison::AtLeast),
            Token::Compare(Comparison::Above),
        )),
        b'<' => Some(either_token(
            second == b'=',
            Token::Compare(Comparison::AtMost),
            Token::Compare(Comparison::Below),
        )),
        b'&' => Some(either_token(second == b'&', Token::And, Token::Unreadable)),
        b'|' => Some(either_token(second == b'|', Token::Or, Token::Unreadable)),
        _ => None,
    }
}

fn word_or_field(
    alloc: Global,
    word: &[u8],
    before_colon: bool,
) -> Result<(Token, usize), AllocError>
    requires { length word.now < 2 ^ 63 }
    ensures token { IfOk result (λ t. t ≡ word_or_field word.now (length word.now) before_colon) }
    ensures within { IfOk result (λ t. t.1 ≤ length word.now + 1) }
{
    if before_colon {
        if word == b"_exists_".as_slice() {
            return Ok((Token::Exists, word.len() + 1));
        }
        return Ok((
            Token::Field(Items::from_slice(alloc, word)?),
            word.len() + 1,
        ));
    }
    Ok((Token::Word(Items::from_slice(alloc, word)?), word.len()))
}

fn named_token(alloc: Global, word: &[u8], before_colon: bool) -> Result<(Token, usize), AllocError>
    requires { length word.now < 2 ^ 63 }
    ensures token { IfOk result (λ t. t ≡ named_token word.now (length word.now) before_colon) }
    ensures within { IfOk result (λ t. t.1 ≤ length word.now + 1) }
{
    if word == b"AND".as_slice() {
        return Ok((Token::And, word.len()));
    }
    if word == b"OR".as_slice() {
        return Ok((Token::Or, word.len()));
    }
    if word == b"NOT".as_slice() {
        return Ok((Token::Not, word.len()));
    }
    if word == b"TO".as_slice() {
        return Ok((Token::To, word.len()));
    }
    word_or_field(alloc, word, before_colon)
}

// The byte at a place, 0 behind the end.
pub(crate) fn byte_at(text: &[u8], at: usize) -> u8
    ensures { result ≡ slice_index text.now at }
{
    if at < text.len() {
        return text[at];
    }
    0
}

fn word_token(alloc: Global, text: &[u8]) -> Result<(Token, usize), AllocError>
    requires { length text.now < 2 ^ 63 }
    ensures token { IfOk result (λ t. t ≡ word_token text.now (word_end 0 false text.now)) }
    ensures within { IfOk result (λ t. t.1 ≤ length text.now + 1) }
{
    match word_end(text) {
        None => Ok((Token::Unreadable, 1)),
        Some(end) => {
            let before_colon = byte_at(text, end) == b':';
            named_token(alloc, &text[..end], before_colon)
        }
    }
}

fn phrase_token(alloc: Global, text: &[u8]) -> Result<(Token, usize), AllocError>
    requires { length text.now < 2 ^ 63 }
    ensures token { IfOk result (λ t. t ≡ phrase_token text.now (phrase_end 0 false text.now)) }
    ensures within { IfOk result (λ t. t.1 ≤ length text.now + 1) }
{
    match phrase_end(text) {
        None => Ok((Token::Unreadable, 1)),
        Some(end) => Ok((
            Token::Phrase(Items::from_slice(alloc, &text[..end])?),
            end + 2,
        )),
    }
}

fn text_token(alloc: Global, text: &[u8]) -> Result<(Token, usize), AllocError>
    requires short { length text.now < 2 ^ 63 }
    requires some { 0 < length text.now }
    ensures token { IfOk result (λ t. t ≡ text_token text.now) }
    ensures within { IfOk result (λ t. t.1 ≤ length text.now + 1) }
{
    if byte_at(text, 0) == b'"' {
        return phrase_token(alloc, &text[1..]);
    }
    word_token(alloc, text)
}

/// The longest token at the front of a text that begins with no space, and how many bytes it has.
#[tactic(auto, unfolding(crate::specs::Tokens::token_at))]
pub(crate) fn token_at(alloc: Global, text: &[u8]) -> Result<(Token, usize), AllocError>
    requires short { length text.now < 2 ^ 63 }
    requires some { 0 < length text.now }
    ensures token { IfOk result (λ t. t ≡ token_at text.now) }
    ensures within { IfOk result (λ t. t.1 ≤ length text.now + 2) }
{
    match sign_token(byte_at(text, 0), byte_at(text, 1)) {
        Some(sign) => Ok(sign),
        None => text_token(alloc, text),
    }
}
