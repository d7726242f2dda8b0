ghost use Rattle.std.specs.Prelude.{length, true, IfOk, IfSome, ◌≡◌, ◌∷◌, ◌^◌, ◌<◌, ◌≤◌, ◌+◌, ◌-◌, ◌*◌, ◌≢◌, MatchOption, All};
ghost use Rattle.std.specs.List.{list_all};
ghost use Rattle.std.specs.Str.{bytes_eq};
ghost use Rattle.std.specs.Int.{is_in_range};
ghost use Rattle.percent_encoding.specs.Percent.{percent_decode};
ghost use Rattle.gl_cli.specs.Script as script;
ghost use Rattle.gl_cli.specs.Parsing.{rest_words, IsFirstAt};

use crate::line::Line;
use gl_base::{Items, Text, whole};
use gl_fields::LAST_MOMENT;
use percent_encoding::percent_decode;
use std::alloc::{AllocError, Global};

/// Where the first space stands.
fn space_in(text: &[u8]) -> Option<usize>
    ensures { MatchOption result (All (λ b. b ≢ 32) text.now) (λ place. IsFirstAt text.now 32 place) }
{
    text.iter().position(|b| *b == b' ')
}

/// The first word, and what stands behind the space after it.
fn split_word(text: &[u8]) -> (&[u8], Option<&[u8]>)
    ensures { script.words_of text.now ≡ result.0.now ∷ rest_words result.1 }
{
    match space_in(text) {
        Some(place) => (&text[..place], Some(&text[place + 1..])),
        None => (text, None),
    }
}

/// Whether a word may be a number: no zero stands before another digit.
fn is_plain(text: &[u8]) -> bool
    ensures { result ≡ script.is_plain text.now }
{
    text.len() > 1 && text[0] != b'0' || text.len() == 1
}

/// The number that a word writes, where it is in its range.
fn number_in(text: &[u8], least: u64, most: u64) -> Option<u64>
    ensures value { result ≡ script.number_in least most text.now }
    ensures few { IfSome result (λ n. n ≤ most) }
{
    if !is_plain(text) {
        return None;
    }
    let number = whole::digits_within(0, text, most)?;
    if least <= number { Some(number) } else { None }
}

/// What the words behind `at` ask for.
fn at_line(rest: Option<&[u8]>) -> Option<Line>
    ensures { result ≡ script.at_line (rest_words rest.entry) }
{
    let (word, more) = split_word(rest?);
    match more {
        Some(_) => None,
        None => match number_in(word, 0, LAST_MOMENT) {
            Some(moment) => Some(Line::At { moment }),
            None => None,
        },
    }
}

/// The first two words, and what stands behind the space after them.
fn two_words(text: &[u8]) -> Option<(&[u8], &[u8], &[u8])>
    ensures { MatchOption result (length (script.words_of text.now) < 3)
        (λ words. script.words_of text.now ≡ words.0.now ∷ words.1.now ∷ script.words_of words.2.now) }
{
    match split_word(text) {
        (_, None) => None,
        (first, Some(rest)) => match split_word(rest) {
            (_, None) => None,
            (second, Some(more)) => Some((first, second, more)),
        },
    }
}

/// Whether all bytes are printable and none is a space.
fn is_printable(word: &[u8]) -> bool
    ensures { result ≡ list_all (is_in_range 33 126) word.now }
{
    word.iter().all(|b| (33..=126).contains(b))
}

/// Whether a word is a name of at most so many bytes.
fn is_name(word: &[u8], most: usize) -> bool
    ensures { result ≡ script.is_name most word.now }
{
    !word.is_empty() && word.len() <= most && is_printable(word)
}

/// A printable word as a text.
fn name_text(alloc: Global, word: &[u8]) -> Result<Text, AllocError>
    requires { list_all (is_in_range 33 126) word.now ≡ true }
    ensures { IfOk result (λ text. text ≡ word.now) }
{
    match str::from_utf8(word) {
        Ok(text) => Text::from_str(alloc, text),
        Err(_) => unreachable!(),
    }
}

/// What the words behind `udp` ask for.
fn udp_line(alloc: Global, rest: Option<&[u8]>) -> Result<Option<Line>, AllocError>
    ensures { IfOk result (λ line. line ≡ script.udp_line (rest_words rest.entry)) }
{
    match rest {
        None => Ok(None),
        Some(text) => match two_words(text) {
            None => Ok(None),
            Some((input, peer, payload)) => {
                if !is_name(input, 64) || !is_name(peer, 255) {
                    return Ok(None);
                }
                let input = name_text(alloc, input)?;
                let peer = name_text(alloc, peer)?;
                let payload = payload_of(alloc, payload)?;
                Ok(Some(Line::Udp {
                    input,
                    peer,
                    payload,
                }))
            }
        },
    }
}

/// The number of a connection that a word writes.
fn connection_in(word: &[u8]) -> Option<u32>
    ensures { result ≡ script.connection_in word.now }
{
    match number_in(word, 0, 4_294_967_295) {
        Some(number) => Some(number as u32),
        None => None,
    }
}

/// The payload that the last words of a line write.
fn payload_of(alloc: Global, text: &[u8]) -> Result<Items<u8>, AllocError>
    ensures { IfOk result (λ payload. payload ≡ percent_decode text.now) }
{
    let mut bytes = Vec::with_capacity(alloc, text.len())?;
    percent_decode(text).append_to(&mut bytes)?;
    Ok(Items::from_vec(bytes))
}

/// What the words behind `tcp` and the name of an input ask for.
fn tcp_line_of(alloc: Global, input: &[u8], rest: &[u8]) -> Result<Option<Line>, AllocError>
    ensures { IfOk result (λ line. line ≡ script.tcp_line (input.now ∷ script.words_of rest.now)) }
{
    match two_words(rest) {
        None => Ok(None),
        Some((number, peer, payload)) => {
            if !is_name(input, 64) || !is_name(peer, 255) {
                return Ok(None);
            }
            match connection_in(number) {
                None => Ok(None),
                Some(number) => Ok(Some(Line::Tcp {
                    input: name_text(alloc, input)?,
                    number,
                    peer: name_text(alloc, peer)?,
                    payload: payload_of(alloc, payload)?,
                })),
            }
        }
    }
}

/// What the words behind `tcp` ask for.
fn tcp_line(alloc: Global, rest: Option<&[u8]>) -> Result<Option<Line>, AllocError>
    ensures { IfOk result (λ line. line ≡ script.tcp_line (rest_words rest.entry)) }
{
    match rest {
        None => Ok(None),
        Some(text) => match split_word(text) {
            (_, None) => Ok(None),
            (input, Some(more)) => tcp_line_of(alloc, input, more),
        },
    }
}

/// What the words behind `end` ask for.
fn end_line(alloc: Global, rest: Option<&[u8]>) -> Result<Option<Line>, AllocError>
    ensures { IfOk result (λ line. line ≡ script.end_line (rest_words rest.entry)) }
{
    match rest {
        None => Ok(None),
        Some(text) => match split_word(text) {
            (_, None) => Ok(None),
            (input, Some(more)) => end_line_of(alloc, input, more),
        },
    }
}

/// What the words behind `end` and the name of an input ask for.
fn end_line_of(alloc: Global, input: &[u8], rest: &[u8]) -> Result<Option<Line>, AllocError>
    ensures { IfOk result (λ line. line ≡ script.end_line (input.now ∷ script.words_of rest.now)) }
{
    let (word, more) = split_word(rest);
    match more {
        Some(_) => Ok(None),
        None => {
            if !is_name(input, 64) {
                return Ok(None);
            }
            match connection_in(word) {
                None => Ok(None),
                Some(number) => Ok(Some(Line::End {
                    input: name_text(alloc, input)?,
                    number,
                })),
            }
        }
    }
}

/// What the words behind `finish` ask for.
fn finish_line(rest: Option<&[u8]>) -> Option<Line>
    ensures { result ≡ script.finish_line (rest_words rest.entry) }
{
    let (word, more) = split_word(rest?);
    match more {
        Some(_) => None,
        None => match number_in(word, 0, 0) {
            Some(worker) => Some(Line::Finish {
                worker: worker as u32,
            }),
            None => None,
        },
    }
}

/// What the words behind `claim` ask for.
fn claim_line(rest: Option<&[u8]>) -> Option<Line>
    ensures { result ≡ script.claim_line (rest_words rest.entry) }
{
    let (first, more) = split_word(rest?);
    let (second, more) = split_word(more?);
    match more {
        Some(_) => None,
        None => match number_in(first, 0, 0) {
            None => None,
            Some(worker) => match number_in(second, 1, 256) {
                None => None,
                Some(limit) => Some(Line::Claim {
                    worker: worker as u32,
                    limit: limit as u32,
                }),
            },
        },
    }
}

/// What a line asks for, or none where it isn't of the form.
pub fn line_of(alloc: Global, text: &[u8]) -> Result<Option<Line>, AllocError>
    ensures { IfOk result (λ line. line ≡ script.line_of text.now) }
{
    if text.is_empty() || text[0] == b'#' {
        return Ok(Some(Line::Blank));
    }
    let (word, rest) = split_word(text);
    if is_same(word, b"at") {
        return Ok(at_line(rest));
    }
    if is_same(word, b"udp") {
        return udp_line(alloc, rest);
    }
    if is_same(word, b"tcp") {
        return tcp_line(alloc, rest);
    }
    if is_same(word, b"end") {
        return end_line(alloc, rest);
    }
    if is_same(word, b"claim") {
        return Ok(claim_line(rest));
    }
    if is_same(word, b"finish") {
        return Ok(finish_line(rest));
    }
    if is_same(word, b"list") {
        return Ok(list_line(rest));
    }
    Ok(None)
}

/// What the words behind `list` ask for.
fn list_line(rest: Option<&[u8]>) -> Option<Line>
    ensures { result ≡ script.list_line (rest_words rest.entry) }
{
    match rest {
        None => Some(Line::Listing),
        Some(_) => None,
    }
}

/// Whether two texts are the same.
fn is_same(one: &[u8], other: &[u8]) -> bool
    ensures { result ≡ bytes_eq one.now other.now }
{
    one == other
}
