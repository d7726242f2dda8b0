// Whether a query holds of a message's fields.
ghost use Rattle.std.specs.Prelude.{◌≡◌, ◌<◌, ◌≤◌, ◌&&◌, ◌||◌, ◌++◌, List, length, not, None};
ghost use Rattle.std.specs.Option.{option_copied};
ghost use Rattle.gl_fields.specs.Fields.{value_of};
ghost use Rattle.gl_query.specs.declared.term.Node.{Node};
ghost use Rattle.gl_query.specs.Tree.{Tree, Trees, count as count_of, polish, polish_all};
ghost use Rattle.gl_query.specs.Evaluation.{Gives};
ghost use Rattle.gl_query.specs.Matching.{says, fits, is_above, is_below, is_within, field_holds, asked, term_holds, holds, all_hold, one_holds};

use crate::decimal::{decimal_holds, is_decimal};
use crate::pattern::pattern_holds;
use crate::query::Query;
use crate::term::{Limit, Node, Piece, Term};
use crate::texts::stands;
use gl_base::Items;
use gl_fields::{FieldMap, Value};
use std::str;

fn says(text: &[u8], value: &Value) -> bool
    ensures { result ≡ says text.now value.now }
{
    match value {
        Value::Text(held) => stands(text, held.as_str().as_bytes()),
        Value::Whole(number) => is_decimal(*number, text),
    }
}

fn fits(pattern: &[Piece], value: &Value) -> bool
    ensures { result ≡ fits pattern.now value.now }
{
    match value {
        Value::Text(held) => pattern_holds(pattern, held.as_str().as_bytes()),
        Value::Whole(number) => decimal_holds(pattern, *number),
    }
}

fn is_above(limit: Limit, number: i64) -> bool
    ensures { result ≡ is_above limit number }
{
    match limit {
        Limit::Unbounded => true,
        Limit::Included(limit) => limit <= number,
        Limit::Excluded(limit) => limit < number,
    }
}

fn is_below(limit: Limit, number: i64) -> bool
    ensures { result ≡ is_below limit number }
{
    match limit {
        Limit::Unbounded => true,
        Limit::Included(limit) => number <= limit,
        Limit::Excluded(limit) => number < limit,
    }
}

fn is_within(low: Limit, high: Limit, value: &Value) -> bool
    ensures { result ≡ is_within low high value.now }
{
    match value {
        Value::Text(_) => false,
        Value::Whole(number) => is_above(low, *number) && is_below(high, *number),
    }
}

// What the field of this name holds. A name that isn't UTF-8 is none of a map's.
fn value_named<'a>(name: &[u8], fields: &'a FieldMap) -> Option<&'a Value>
    ensures { option_copied result ≡ value_of name.now fields.now }
{
    if fields.len() == 0 {
        return None;
    }
    match str::from_utf8(name) {
        Ok(name) => fields.get(name),
        Err(_) => None,
    }
}

fn field_says(text: &[u8], name: &[u8], fields: &FieldMap) -> bool
    ensures { result ≡ field_holds (says text.now) name.now fields.now }
{
    match value_named(name, fields) {
        Some(value) => says(text, value),
        None => false, // It isn't there.
    }
}

fn one_says(text: &[u8], fields: &FieldMap) -> bool
    ensures { result ≡ asked (says text.now) None fields.now }
{
    field_says(text, b"message".as_slice(), fields)
        || (field_says(text, b"full_message".as_slice(), fields)
            || field_says(text, b"source".as_slice(), fields))
}

fn field_fits(pattern: &[Piece], name: &[u8], fields: &FieldMap) -> bool
    ensures { result ≡ field_holds (fits pattern.now) name.now fields.now }
{
    match value_named(name, fields) {
        Some(value) => fits(pattern, value),
        None => false,
    }
}

fn one_fits(pattern: &[Piece], fields: &FieldMap) -> bool
    ensures { result ≡ asked (fits pattern.now) None fields.now }
{
    field_fits(pattern, b"message".as_slice(), fields)
        || (field_fits(pattern, b"full_message".as_slice(), fields)
            || field_fits(pattern, b"source".as_slice(), fields))
}

fn field_is_within(name: &[u8], low: Limit, high: Limit, fields: &FieldMap) -> bool
    ensures { result ≡ field_holds (is_within low high) name.now fields.now }
{
    match value_named(name, fields) {
        Some(value) => is_within(low, high, value),
        None => false,
    }
}

fn text_holds(field: &Option<Items<u8>>, text: &[u8], fields: &FieldMap) -> bool
    ensures { result ≡ asked (says text.now) field.now fields.now }
{
    match field {
        Some(name) => field_says(text, name.as_slice(), fields),
        None => one_says(text, fields),
    }
}

fn pattern_asked(field: &Option<Items<u8>>, pattern: &[Piece], fields: &FieldMap) -> bool
    ensures { result ≡ asked (fits pattern.now) field.now fields.now }
{
    match field {
        Some(name) => field_fits(pattern, name.as_slice(), fields),
        None => one_fits(pattern, fields),
    }
}

fn term_holds(term: &Term, fields: &FieldMap) -> bool
    ensures { result ≡ term_holds term.now fields.now }
{
    match term {
        Term::All => true,
        Term::Exists(name) => value_named(name.as_slice(), fields).is_some(),
        Term::Text(field, text) => text_holds(field, text.as_slice(), fields),
        Term::Pattern(field, pattern) => pattern_asked(field, pattern.as_slice(), fields),
        Term::Within(name, low, high) => field_is_within(name.as_slice(), *low, *high, fields),
    }
}

fn both_hold(one: bool, other: bool) -> bool
    ensures { result ≡ (one && other) }
{
    one && other
}

fn either_holds(one: bool, other: bool) -> bool
    ensures { result ≡ (one || other) }
{
    one || other
}

// Whether the tree at the front of these nodes holds, and the nodes behind it. It calls itself as deep as the tree.
#[cycle(evaluate)]
fn evaluate<'a>(nodes: &'a [Node], fields: &FieldMap) -> (bool, &'a [Node])
    ensures value { Gives fields.now result.0 result.1.now nodes.now }
    ensures shorter { length result.1.now ≤ length nodes.now }
{
    match nodes.split_first() {
        None => (false, nodes),
        Some((node, rest)) => match node {
            Node::Leaf(term) => (term_holds(term, fields), rest),
            Node::Negation => {
                let (one, left) = evaluate(rest, fields);
                (!one, left)
            }
            Node::Both(count) => all_hold(*count, rest, fields),
            Node::Either(count) => one_holds(*count, rest, fields),
        },
    }
}

#[cycle(evaluate)]
fn all_hold<'a>(count: usize, nodes: &'a [Node], fields: &FieldMap) -> (bool, &'a [Node])
    ensures value { (ts : Trees) (rest : List Node) → count ≡ count_of ts → nodes.now ≡ polish_all ts ++ rest
        → (result.0 ≡ all_hold ts fields.now) × (result.1.now ≡ rest) }
    ensures shorter { length result.1.now ≤ length nodes.now }
{
    let mut all = true;
    let mut left = nodes;
    for _done in 0..count {
        let (one, rest) = evaluate(left, fields);
        all = both_hold(all, one);
        left = rest;
    }
    (all, left)
}

#[cycle(evaluate)]
fn one_holds<'a>(count: usize, nodes: &'a [Node], fields: &FieldMap) -> (bool, &'a [Node])
    ensures value { (ts : Trees) (rest : List Node) → count ≡ count_of ts → nodes.now ≡ polish_all ts ++ rest
        → (result.0 ≡ one_holds ts fields.now) × (result.1.now ≡ rest) }
    ensures shorter { length result.1.now ≤ length nodes.now }
{
    let mut one_of = false;
    let mut left = nodes;
    for _done in 0..count {
        let (one, rest) = evaluate(left, fields);
        one_of = either_holds(one_of, one);
        left = rest;
    }
    (one_of, left)
}

/// Whether a query holds of a message's fields. It takes no memory, and time as the fields' texts times
/// the query.
pub fn matches(query: &Query, fields: &FieldMap) -> bool
    // A query is a tree, and that is what holds.
    ensures tree { (t : Tree) × (query.now ≡ polish t) × (result ≡ holds t fields.now) }
    ensures only { (t : Tree) → query.now ≡ polish t → result ≡ holds t fields.now }
{
    let (result, _) = evaluate(query.as_slice(), fields);
    result
}
