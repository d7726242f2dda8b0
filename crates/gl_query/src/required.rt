// The terms that a message must have for a query to hold of it.
ghost use Rattle.std.specs.Prelude.{◌≡◌, ◌≤◌, ℕ, [], ◌++◌, List, All, length, map, true, if◌then◌else◌, IfOk, OnOk};
ghost use Rattle.std.specs.Char.{to_ascii_lowercase};
ghost use Rattle.std.specs.List.{list_any};
ghost use Rattle.gl_fields.specs.declared.field.Field.{Field};
ghost use Rattle.gl_query.specs.declared.term.Node.{Node};
ghost use Rattle.gl_query.specs.Matching.{holds};
ghost use Rattle.gl_query.specs.Required.{AreRequired, Gathers, all_required, has_required, in_field, is_number, lower_tokens, required, term_required, terms_of};
ghost use Rattle.gl_query.specs.Texts.{text_tokens};
ghost use Rattle.gl_query.specs.Tree.{Tree, Trees, count as count_of, polish_all};

use crate::term::{Node, Term};
use crate::texts::next_token;
use gl_base::Items;
use std::alloc::{AllocError, Global};

/// A term that a message must have for a query to hold of it.
#[derive(Drop)]
pub struct RequiredTerm {
    /// The name of the field.
    pub field: Items<u8>,
    /// A token that stands in the field, with ASCII letters in lower case.
    pub token: Items<u8>,
}

/// Law: where a query holds of a message's fields, the message has each required term of the query. So
/// whoever looks at no other messages misses none.
pub fn law_required_terms()
    ensures { (t : Tree) (fields : List Field) → holds t fields ≡ true → All (λ term. has_required term fields ≡ true) (required t) }
{}

/// These bytes with ASCII letters in lower case.
pub fn in_lower_case(alloc: Global, token: &[u8]) -> Result<Items<u8>, AllocError>
    ensures { IfOk result (λ lower. lower ≡ map to_ascii_lowercase token.now) }
{
    let mut lower = Vec::with_capacity(alloc, token.len())?;
    for b in token {
        lower.push(b.to_ascii_lowercase())?;
    }
    Ok(Items::from_vec(lower))
}

fn is_number(token: &[u8]) -> bool
    ensures { result ≡ is_number token.now }
{
    token.iter().all(|b| b.is_ascii_digit())
}

// Whether one of a text's tokens is digits alone.
fn has_number(text: &[u8]) -> bool
    ensures { result ≡ list_any is_number (lower_tokens text.now) }
{
    let mut text = text;
    while let Some((token, rest)) = next_token(text) {
        if is_number(token) {
            return true;
        }
        text = rest;
    }
    false
}

fn copied(alloc: Global, name: &[u8]) -> Result<Items<u8>, AllocError>
    ensures { IfOk result (λ copy. copy ≡ name.now) }
{
    let mut copy = Vec::with_capacity(alloc, name.len())?;
    copy.extend_from_slice(name)?;
    Ok(Items::from_vec(copy))
}

// Appends each token of a text with the field's name.
fn push_tokens(
    alloc: Global,
    out: &mut Vec<RequiredTerm>,
    name: &[u8],
    text: &[u8],
) -> Result<(), AllocError>
    ensures { OnOk result (terms_of out.new.items ≡ terms_of out.old.items ++ map {B = List ℕ × List ℕ} (λ token. (name.now, token)) (lower_tokens text.now)) }
{
    let mut text = text;
    while let Some((token, rest)) = next_token(text) {
        let field = copied(alloc, name)?;
        let token = in_lower_case(alloc, token)?;
        out.push(RequiredTerm { field, token })?;
        text = rest;
    }
    Ok(())
}

// Appends what a text in a field requires.
fn push_in_field(
    alloc: Global,
    out: &mut Vec<RequiredTerm>,
    name: &[u8],
    text: &[u8],
) -> Result<(), AllocError>
    ensures { OnOk result (terms_of out.new.items ≡ terms_of out.old.items ++ in_field name.now (lower_tokens text.now)) }
{
    if has_number(text) {
        return Ok(());
    }
    push_tokens(alloc, out, name, text)
}

// Appends what a term requires.
fn push_term(alloc: Global, out: &mut Vec<RequiredTerm>, term: &Term) -> Result<(), AllocError>
    ensures { OnOk result (terms_of out.new.items ≡ terms_of out.old.items ++ term_required term.now) }
{
    match term {
        Term::Text(Some(name), text) => push_in_field(alloc, out, name.as_slice(), text.as_slice()),
        Term::Text(None, _) => Ok(()),
        Term::All => Ok(()),
        Term::Exists(_) => Ok(()),
        Term::Pattern(_, _) => Ok(()),
        Term::Within(_, _, _) => Ok(()),
    }
}

// Appends what a term requires, where it is wanted.
fn push_wanted(
    alloc: Global,
    out: &mut Vec<RequiredTerm>,
    wanted: bool,
    term: &Term,
) -> Result<(), AllocError>
    ensures { OnOk result (terms_of out.new.items ≡ terms_of out.old.items ++ (if wanted then term_required term.now else [])) }
{
    if wanted {
        push_term(alloc, out, term)
    } else {
        Ok(())
    }
}

// Appends what the tree at the front of these nodes requires, where it is wanted, and answers the nodes behind it. It
// calls itself as deep as the tree.
#[cycle(gather)]
fn gather<'a>(
    alloc: Global,
    out: &mut Vec<RequiredTerm>,
    wanted: bool,
    nodes: &'a [Node],
) -> Result<&'a [Node], AllocError>
    ensures terms { IfOk result (λ left. Gathers wanted (terms_of out.old.items) (terms_of out.new.items) left.now nodes.now) }
    ensures shorter { IfOk result (λ left. length left.now ≤ length nodes.now) }
{
    match nodes.split_first() {
        None => Ok(nodes),
        Some((node, rest)) => match node {
            Node::Leaf(term) => {
                push_wanted(alloc, out, wanted, term)?;
                Ok(rest)
            }
            Node::Negation => gather(alloc, out, false, rest),
            Node::Both(count) => gather_members(alloc, out, wanted, *count, rest),
            Node::Either(count) => gather_members(alloc, out, false, *count, rest),
        },
    }
}

#[cycle(gather)]
fn gather_members<'a>(
    alloc: Global,
    out: &mut Vec<RequiredTerm>,
    wanted: bool,
    count: usize,
    nodes: &'a [Node],
) -> Result<&'a [Node], AllocError>
    ensures terms { IfOk result (λ left. (ts : Trees) (rest : List Node) → count ≡ count_of ts → nodes.now ≡ polish_all ts ++ rest
        → (terms_of out.new.items ≡ terms_of out.old.items ++ (if wanted then all_required ts else [])) × (left.now ≡ rest)) }
    ensures shorter { IfOk result (λ left. length left.now ≤ length nodes.now) }
{
    let mut left = nodes;
    for _done in 0..count {
        left = gather(alloc, out, wanted, left)?;
    }
    Ok(left)
}

/// What the tree of these nodes requires.
pub(crate) fn required_terms(alloc: Global, nodes: &[Node]) -> Result<Vec<RequiredTerm>, AllocError>
    ensures { IfOk result (λ terms. AreRequired terms.items nodes.now) }
{
    let mut terms = Vec::new(alloc);
    gather(alloc, &mut terms, true, nodes)?;
    Ok(terms)
}
