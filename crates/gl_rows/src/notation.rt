// How a row's text is written: repeats, which stand for long texts, and escapes, which stand for bytes.

use percent_encoding::percent_decode;
use std::alloc::{AllocError, Global};
use std::fmt::Write;

/// The number that decimal digits write, or 0.
pub fn number(text: &str) -> u64 {
    text.parse::<u64>().unwrap_or(0)
}

/// The whole number that a text writes, or 0.
pub fn whole(text: &str) -> i64 {
    text.parse::<i64>().unwrap_or(0)
}

/// The bytes of a word: unless it stands for itself, `%` and two hexadecimal digits stand for a byte.
pub fn bytes_of(alloc: Global, word: &str, as_it_stands: bool) -> Result<Vec<u8>, AllocError> {
    if as_it_stands {
        return Vec::from_slice(alloc, word.as_bytes());
    }
    let mut bytes = Vec::new(alloc);
    percent_decode(word.as_bytes()).append_to(&mut bytes)?;
    Ok(bytes)
}

/// The text of a line, with each of its repeats written out.
pub fn expanded(alloc: Global, line: &str) -> Result<String, AllocError> {
    let mut out = String::new(alloc);
    for (i, part) in line.split("%(").enumerate() {
        if i == 0 {
            out.push_str(part)?;
        } else {
            push_repeat(alloc, &mut out, part)?;
        }
    }
    Ok(out)
}

/// Puts the repeat at the front of a text behind another, and then what follows it.
fn push_repeat(alloc: Global, out: &mut String, text: &str) -> Result<(), AllocError> {
    let Some((piece, rest)) = text.split_once('*') else {
        return out.push_str("no repeat");
    };
    let Some((range, rest)) = rest.split_once(')') else {
        return out.push_str("no repeat");
    };
    let (from, to) = range_of(range);
    if is_marked(piece) {
        push_turns(out, piece, from, to)?;
    } else {
        push_same(alloc, out, piece, to.max(from) - to.min(from))?;
    }
    out.push_str(rest)
}

/// Whether a piece isn't the same in each turn.
fn is_marked(piece: &str) -> bool {
    piece.contains("%#") || piece.contains("%+") || piece.contains("%$")
}

/// Puts a piece so many times behind a text, a block of them at once where they are many.
fn push_same(alloc: Global, out: &mut String, piece: &str, count: u64) -> Result<(), AllocError> {
    let block = piece.repeat(alloc, 1024)?;
    for _ in 0..count / 1024 {
        out.push_str(block.as_str())?;
    }
    for _ in 0..count % 1024 {
        out.push_str(piece)?;
    }
    Ok(())
}

/// Puts a piece behind a text for each number from one to before another, which may be the lesser one.
fn push_turns(out: &mut String, piece: &str, from: u64, to: u64) -> Result<(), AllocError> {
    for step in 0..to.max(from) - to.min(from) {
        let turn = if from <= to {
            from.saturating_add(step)
        } else {
            from.saturating_sub(step)
        };
        push_piece(out, piece, turn)?;
    }
    Ok(())
}

/// The first number of a repeat, and the one before which it ends: `5..9`, downwards `9..5`, or `4` for `0..4`.
fn range_of(range: &str) -> (u64, u64) {
    match range.split_once("..") {
        Some((from, to)) => (number(from), number(to)),
        None => (0, number(range)),
    }
}

/// Puts a piece of a repeat behind a text.
fn push_piece(out: &mut String, piece: &str, turn: u64) -> Result<(), AllocError> {
    for (i, part) in piece.split('%').enumerate() {
        if i == 0 {
            out.push_str(part)?;
        } else {
            push_marked(out, part, turn)?;
        }
    }
    Ok(())
}

/// Puts what a `%` of a piece stands for behind a text: with `#` the number of the turn, with `+` the next number, and
/// with `$` the byte of that number. Before anything else it stands for itself.
fn push_marked(out: &mut String, part: &str, turn: u64) -> Result<(), AllocError> {
    if let Some(rest) = part.strip_prefix('#') {
        write!(out, "{turn}{rest}")
    } else if let Some(rest) = part.strip_prefix('+') {
        let next = turn.saturating_add(1);
        write!(out, "{next}{rest}")
    } else if let Some(rest) = part.strip_prefix('$') {
        let byte = turn % 256;
        write!(out, "%{byte:02x}{rest}")
    } else {
        write!(out, "%{part}")
    }
}
