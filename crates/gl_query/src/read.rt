// Reading a query.
ghost use Rattle.std.specs.Prelude.{◌≡◌, ◌≢◌, ◌<◌, ◌≤◌, ◌^◌, [], ◌++◌, ◌∷◌, length, drop, min, List, Some, None, IfOk, IfErr, OnOk, MatchResult};
ghost use Rattle.gl_query.specs.declared.query.QueryRefusal.TheVariants.{BadQuery, OutOfMemory};
ghost use Rattle.gl_query.specs.declared.token.Token.{Token};
ghost use Rattle.gl_query.specs.Grammar.{IsQuery};
ghost use Rattle.gl_query.specs.Tokens.{tokens_of, tokens_from};
ghost use Rattle.gl_query.specs.Tree.{Tree, polish};
ghost use Rattle.gl_query.specs.Refused.{IsRefusedAt, TellsRefusal};
ghost use Rattle.gl_query.specs.Refusals.{refusal_of, refused_from, start};
ghost use Rattle.gl_query.specs.Building.{Building, StandsFor, begun};
ghost use Rattle.gl_query.specs.QueryReading.{position_of, built_from, units, ended, read_tree};

use crate::builder::{Builder, is_operator};
use crate::lexer::{byte_at, token_at};
use crate::query::{Query, QueryRefusal};
use crate::required::required_terms;
use crate::step::{Want, step_of};
use crate::term::Node;
use std::alloc::{AllocError, Global};

/// The longest text of a query, in bytes.
pub const MAX_QUERY: usize = 4096;

// A place as it is told: a text that is too long is refused at the limit, or before.
fn bad_query(at: usize) -> QueryRefusal
    ensures { result ≡ BadQuery (min at 4096) }
{
    QueryRefusal::BadQuery {
        at: at.min(MAX_QUERY) as u64,
    }
}

// What stands behind the tokens of a text, and what is wanted there.
fn read_tokens(alloc: Global, text: &[u8]) -> Result<(Want, Builder), QueryRefusal>
    requires { length text.now < 2 ^ 63 }
    ensures taken { IfOk result (λ r. (b : Building) × (built_from begun (units (tokens_of text.now)) ≡ Some b) × StandsFor r.1 b × (b.want ≡ r.0)
        × (refused_from start (tokens_of text.now) (length text.now) ≡ refused_from (position_of b) [] (length text.now))) }
    ensures refused { IfErr result (λ e. e ≢ OutOfMemory
        → IsRefusedAt e (refused_from start (tokens_of text.now) (length text.now))) }
{
    let mut builder = Builder::new(alloc);
    let mut want = Want::Start;
    let mut at = 0;
    while at < text.len() {
        if text[at] == b' ' {
            at += 1;
            continue;
        }
        let (token, len) = token_at(alloc, &text[at..])?;
        let behind = is_operator(&want);
        let step = step_of(alloc, want, token)?;
        match builder.take(behind, step)? {
            None => return Err(bad_query(at)),
            Some(next) => want = next,
        }
        // A token has at least one byte.
        at += len.max(1);
    }
    Ok((want, builder))
}

// The nodes of the tree that a text builds.
fn read_nodes(alloc: Global, text: &[u8]) -> Result<Vec<Node>, QueryRefusal>
    requires { length text.now < 2 ^ 63 }
    ensures tree { IfOk result (λ nodes. (t : Tree) × (read_tree (units (tokens_of text.now)) ≡ Some t) × (nodes.items ≡ polish t)) }
    ensures read { OnOk result (refusal_of text.now ≡ None) }
    ensures refused { IfErr result (λ e. e ≢ OutOfMemory → TellsRefusal e (refusal_of text.now)) }
{
    let (want, builder) = read_tokens(alloc, text)?;
    match builder.finish(&want)? {
        None => Err(bad_query(text.len())),
        Some(nodes) => {
            if text.len() > MAX_QUERY {
                return Err(bad_query(text.len()));
            }
            Ok(nodes)
        }
    }
}

/// Reads a query. Its tree is that of the grammar, and the empty text asks for all.
///
/// `BadQuery` carries the place, in bytes, of the first token that can't follow those before it, or
/// the length where the text ends too early. NOT and parentheses nest to 64, and a text of more than
/// 4,096 bytes is refused there, if not before.
pub fn read_query(alloc: Global, text: &str) -> Result<Query, QueryRefusal>
    // What is read is a query of the grammar, with its tree,
    ensures tree { IfOk result (λ q. (t : Tree) × IsQuery (units (tokens_of text.now)) t × (q ≡ polish t)) }
    // and what is a query of the grammar is read, with no other tree.
    ensures only { (t : Tree) → IsQuery (units (tokens_of text.now)) t → length text.now ≤ 4096
        → MatchResult result (λ q. q ≡ polish t) (λ e. e ≡ OutOfMemory) }
    // What is read isn't refused, and BadQuery comes where a text is refused, with the place.
    ensures read { OnOk result (refusal_of text.now ≡ None) }
    ensures refused { IfErr result (λ e. e ≢ OutOfMemory → TellsRefusal e (refusal_of text.now)) }
{
    match read_nodes(alloc, text.as_bytes()) {
        Ok(nodes) => {
            let required = required_terms(alloc, nodes.as_slice())?;
            Ok(Query::from_nodes(nodes, required))
        }
        Err(refusal) => Err(refusal),
    }
}

/// Law: the tree of a query's tokens is the one that they build step by step.
pub fn law_one_tree()
    ensures built { (ts : List Token) (t : Tree) → IsQuery ts t → read_tree ts ≡ Some t }
    ensures only { (ts : List Token) (t : Tree) → read_tree ts ≡ Some t → IsQuery ts t }
{}
