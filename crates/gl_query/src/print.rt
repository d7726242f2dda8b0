// Writing a query.
ghost use Rattle.std.specs.Prelude.{◌≡◌, ◌==◌, ◌||◌, ◌≤◌, [], ◌++◌, ◌∷◌, List, length, codes, if◌then◌else◌, IfOk, OnOk};
ghost use Rattle.std.specs.Fmt.{signed_decimal};
ghost use Rattle.std.specs.List.{flat_map};
ghost use Rattle.std.specs.String.{string_bytes};
ghost use Rattle.gl_query.specs.declared.term.Node.{Node};
ghost use Rattle.gl_query.specs.Tokens.{ends_word, tokens_of};
ghost use Rattle.gl_query.specs.Tree.{Tree, Trees, count as count_of, polish, polish_all};
ghost use Rattle.gl_query.specs.Grammar.{IsQuery};
ghost use Rattle.gl_query.specs.QueryReading.{units};
ghost use Rattle.gl_query.specs.Printing.{spelled, name_byte, phrase_byte, piece_text, is_keyword, name_text, phrase_text, pattern_text, field_text, low_text, high_text, term_text, tree_text, members_text, depth, Prints};

use crate::decimal::push_decimal;
use crate::lexer::ends_word;
use crate::query::Query;
use crate::term::{Limit, Node, Piece, Term};
use gl_base::Items;
use std::alloc::{AllocError, Global};

fn push_byte(out: &mut Vec<u8>, b: u8) -> Result<(), AllocError>
    ensures { OnOk result (out.new.items ≡ out.old.items ++ b ∷ []) }
{
    out.push(b)?;
    Ok(())
}

fn push_spelled(out: &mut Vec<u8>, escaped: bool, b: u8) -> Result<(), AllocError>
    ensures { OnOk result (out.new.items ≡ out.old.items ++ spelled escaped b) }
{
    if escaped {
        push_byte(out, b'\\')?;
    }
    push_byte(out, b)
}

fn is_keyword(word: &[u8]) -> bool
    ensures { result ≡ is_keyword word.now }
{
    word == b"AND".as_slice()
        || (word == b"OR".as_slice()
            || (word == b"NOT".as_slice()
                || (word == b"TO".as_slice() || word == b"_exists_".as_slice())))
}

// The backslash before a word that would be a keyword.
fn push_mark(out: &mut Vec<u8>, name: &[u8]) -> Result<(), AllocError>
    ensures { OnOk result (out.new.items ≡ out.old.items ++ (if is_keyword name.now then codes "\\" else [])) }
{
    if is_keyword(name) {
        push_byte(out, b'\\')?;
    }
    Ok(())
}

fn push_name_byte(out: &mut Vec<u8>, b: u8) -> Result<(), AllocError>
    ensures { OnOk result (out.new.items ≡ out.old.items ++ name_byte b) }
{
    push_spelled(out, ends_word(b) || b == b'\\', b)
}

fn push_name(out: &mut Vec<u8>, name: &[u8]) -> Result<(), AllocError>
    ensures { OnOk result (out.new.items ≡ out.old.items ++ name_text name.now) }
{
    push_mark(out, name)?;
    for b in name {
        push_name_byte(out, *b)?;
    }
    Ok(())
}

fn push_phrase_byte(out: &mut Vec<u8>, b: u8) -> Result<(), AllocError>
    ensures { OnOk result (out.new.items ≡ out.old.items ++ phrase_byte b) }
{
    push_spelled(out, b == b'"' || b == b'\\', b)
}

fn push_phrase_bytes(out: &mut Vec<u8>, text: &[u8]) -> Result<(), AllocError>
    ensures { OnOk result (out.new.items ≡ out.old.items ++ flat_map phrase_byte text.now) }
{
    for b in text {
        push_phrase_byte(out, *b)?;
    }
    Ok(())
}

fn push_phrase(out: &mut Vec<u8>, text: &[u8]) -> Result<(), AllocError>
    ensures { OnOk result (out.new.items ≡ out.old.items ++ phrase_text text.now) }
{
    push_byte(out, b'"')?;
    push_phrase_bytes(out, text)?;
    push_byte(out, b'"')
}

fn push_piece(out: &mut Vec<u8>, piece: Piece) -> Result<(), AllocError>
    ensures { OnOk result (out.new.items ≡ out.old.items ++ piece_text piece) }
{
    match piece {
        Piece::Byte(b) => push_spelled(
            out,
            ends_word(b) || (b == b'\\' || (b == b'*' || b == b'?')),
            b,
        ),
        Piece::AnyRun => push_byte(out, b'*'),
        Piece::AnyOne => push_byte(out, b'?'),
    }
}

fn push_pattern(out: &mut Vec<u8>, pattern: &[Piece]) -> Result<(), AllocError>
    ensures { OnOk result (out.new.items ≡ out.old.items ++ pattern_text pattern.now) }
{
    for piece in pattern {
        push_piece(out, *piece)?;
    }
    Ok(())
}

fn push_named_field(out: &mut Vec<u8>, name: &[u8]) -> Result<(), AllocError>
    ensures { OnOk result (out.new.items ≡ out.old.items ++ (name_text name.now ++ codes ":")) }
{
    push_name(out, name)?;
    push_byte(out, b':')
}

fn push_field(out: &mut Vec<u8>, field: &Option<Items<u8>>) -> Result<(), AllocError>
    ensures { OnOk result (out.new.items ≡ out.old.items ++ field_text field.now) }
{
    match field {
        Some(name) => push_named_field(out, name.as_slice()),
        None => Ok(()),
    }
}

fn push_low(out: &mut Vec<u8>, low: Limit) -> Result<(), AllocError>
    ensures { OnOk result (out.new.items ≡ out.old.items ++ low_text low) }
{
    match low {
        Limit::Unbounded => out.extend_from_slice(b"[*".as_slice()),
        Limit::Included(number) => {
            push_byte(out, b'[')?;
            push_decimal(out, number)
        }
        Limit::Excluded(number) => {
            push_byte(out, b'{')?;
            push_decimal(out, number)
        }
    }
}

fn push_high(out: &mut Vec<u8>, high: Limit) -> Result<(), AllocError>
    ensures { OnOk result (out.new.items ≡ out.old.items ++ high_text high) }
{
    match high {
        Limit::Unbounded => out.extend_from_slice(b"*]".as_slice()),
        Limit::Included(number) => {
            push_decimal(out, number)?;
            push_byte(out, b']')
        }
        Limit::Excluded(number) => {
            push_decimal(out, number)?;
            push_byte(out, b'}')
        }
    }
}

fn push_range(out: &mut Vec<u8>, low: Limit, high: Limit) -> Result<(), AllocError>
    ensures { OnOk result (out.new.items ≡ out.old.items ++ (low_text low ++ (codes " TO " ++ high_text high))) }
{
    push_low(out, low)?;
    out.extend_from_slice(b" TO ".as_slice())?;
    push_high(out, high)
}

fn push_term(out: &mut Vec<u8>, term: &Term) -> Result<(), AllocError>
    ensures { OnOk result (out.new.items ≡ out.old.items ++ term_text term.now) }
{
    match term {
        Term::All => push_byte(out, b'*'),
        Term::Exists(name) => {
            out.extend_from_slice(b"_exists_:".as_slice())?;
            push_name(out, name.as_slice())
        }
        Term::Text(field, text) => {
            push_field(out, field)?;
            push_phrase(out, text.as_slice())
        }
        Term::Pattern(field, pattern) => {
            push_field(out, field)?;
            push_pattern(out, pattern.as_slice())
        }
        Term::Within(name, low, high) => {
            push_named_field(out, name.as_slice())?;
            push_range(out, *low, *high)
        }
    }
}

// The sign before every member but the first.
fn push_sign(out: &mut Vec<u8>, done: usize, sign: &[u8]) -> Result<(), AllocError>
    ensures { OnOk result (out.new.items ≡ out.old.items ++ (if done == 0 then [] else sign.now)) }
{
    if done == 0 {
        return Ok(());
    }
    out.extend_from_slice(sign)
}

// Writes the tree at the front of these nodes, and answers the nodes behind it. It calls itself as deep as the tree.
#[cycle(print)]
fn push_node<'a>(out: &mut Vec<u8>, nodes: &'a [Node]) -> Result<&'a [Node], AllocError>
    ensures text { IfOk result (λ left. Prints out.old.items out.new.items left.now nodes.now) }
    ensures shorter { IfOk result (λ left. length left.now ≤ length nodes.now) }
{
    match nodes.split_first() {
        None => Ok(nodes),
        Some((node, rest)) => match node {
            Node::Leaf(term) => {
                push_term(out, term)?;
                Ok(rest)
            }
            Node::Negation => {
                out.extend_from_slice(b"(NOT ".as_slice())?;
                let left = push_node(out, rest)?;
                push_byte(out, b')')?;
                Ok(left)
            }
            Node::Both(count) => push_members(out, b" AND ".as_slice(), *count, rest),
            Node::Either(count) => push_members(out, b" OR ".as_slice(), *count, rest),
        },
    }
}

#[cycle(print)]
fn push_members<'a>(
    out: &mut Vec<u8>,
    sign: &[u8],
    count: usize,
    nodes: &'a [Node],
) -> Result<&'a [Node], AllocError>
    ensures text { IfOk result (λ left. (ts : Trees) (rest : List Node) → count ≡ count_of ts → nodes.now ≡ polish_all ts ++ rest
        → (out.new.items ≡ out.old.items ++ (codes "(" ++ (members_text [] sign.now ts ++ codes ")"))) × (left.now ≡ rest)) }
    ensures shorter { IfOk result (λ left. length left.now ≤ length nodes.now) }
{
    push_byte(out, b'(')?;
    let mut left = nodes;
    for done in 0..count {
        push_sign(out, done, sign)?;
        left = push_node(out, left)?;
    }
    push_byte(out, b')')?;
    Ok(left)
}

/// The text of a query. Each operation stands in parentheses with AND, OR or NOT, each text is a phrase and
/// each comparison a range.
pub fn print_query(alloc: Global, query: &Query) -> Result<String, AllocError>
    ensures text { IfOk result (λ text. (t : Tree) × (query.now ≡ polish t) × (string_bytes text ≡ tree_text t)) }
    ensures only { IfOk result (λ text. (t : Tree) → query.now ≡ polish t → string_bytes text ≡ tree_text t) }
    // It reads back to the same query, where it nests to 64.
    ensures reads_back { IfOk result (λ text. (t : Tree) → query.now ≡ polish t → depth t ≤ 64 → IsQuery (units (tokens_of (string_bytes text))) t) }
{
    let mut text = Vec::new(alloc);
    push_node(&mut text, query.as_slice())?;
    match String::from_utf8(text) {
        Ok(text) => Ok(text),
        Err(_) => unreachable!(),
    }
}
