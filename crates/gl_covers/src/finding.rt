// The rows that may be what a query asks for.
ghost use Rattle.std.specs.Prelude.{◌≡◌, ◌≤◌, true, List, length, IfOk};
ghost use Rattle.gl_indexset.specs.declared.row.Row.{Row};
ghost use Rattle.gl_query.specs.Tree.{Tree, polish};
ghost use Rattle.gl_words.specs.Words.{StandsFor};
ghost use Rattle.gl_covers.specs.Covers.{all_joined, narrowest};
ghost use Rattle.gl_covers.specs.Suspects.{Suspects, SuspectsOfAll, suspects_of};

use crate::merging::{joined, narrower};
use crate::texts::of_wanted;
use gl_base::Items;
use gl_query::{Node, Query};
use gl_words::Postings;
use std::alloc::{AllocError, Global};

// What is found for the tree at the front of these nodes, if it is wanted, and the nodes behind it. Nothing that stands
// under NOT is wanted. It calls itself as deep as the tree.
#[cycle(suspect)]
fn suspect<'a>(
    alloc: Global,
    words: &Postings,
    wanted: bool,
    nodes: &'a [Node],
) -> Result<(Option<Items<u64>>, &'a [Node]), AllocError>
    ensures found { IfOk result (λ r. Suspects wanted words.now r.0 r.1.now nodes.now) }
    ensures shorter { IfOk result (λ r. length r.1.now ≤ length nodes.now) }
{
    match nodes.split_first() {
        None => Ok((None, nodes)),
        Some((node, rest)) => match node {
            Node::Leaf(term) => {
                let found = of_wanted(alloc, words, wanted, term)?;
                Ok((found, rest))
            }
            Node::Negation => {
                let (_, left) = suspect(alloc, words, false, rest)?;
                Ok((None, left))
            }
            Node::Both(count) => fewest(alloc, words, wanted, *count, rest),
            Node::Either(count) => all(alloc, words, wanted, *count, rest),
        },
    }
}

#[cycle(suspect)]
fn fewest<'a>(
    alloc: Global,
    words: &Postings,
    wanted: bool,
    count: usize,
    nodes: &'a [Node],
) -> Result<(Option<Items<u64>>, &'a [Node]), AllocError>
    ensures found { IfOk result (λ r. SuspectsOfAll narrowest wanted words.now r.0 count r.1.now nodes.now) }
    ensures shorter { IfOk result (λ r. length r.1.now ≤ length nodes.now) }
{
    let mut found = None;
    let mut left = nodes;
    for _done in 0..count {
        let (next, rest) = suspect(alloc, words, wanted, left)?;
        found = narrower(found, next);
        left = rest;
    }
    Ok((found, left))
}

#[cycle(suspect)]
fn all<'a>(
    alloc: Global,
    words: &Postings,
    wanted: bool,
    count: usize,
    nodes: &'a [Node],
) -> Result<(Option<Items<u64>>, &'a [Node]), AllocError>
    ensures found { IfOk result (λ r. SuspectsOfAll (λ _ covers. all_joined covers) wanted words.now r.0 count r.1.now nodes.now) }
    ensures shorter { IfOk result (λ r. length r.1.now ≤ length nodes.now) }
{
    let mut found = Some(Items::new(alloc));
    let mut left = nodes;
    for _done in 0..count {
        let (next, rest) = suspect(alloc, words, wanted, left)?;
        found = joined(alloc, found, next)?;
        left = rest;
    }
    Ok((found, left))
}

/// The positions of the rows that have a term of the query's cover, in rising order and none twice; `None` where words tell
/// nothing of it. The postings are those of the rows.
pub fn suspects(
    alloc: Global,
    words: &Postings,
    query: &Query,
) -> Result<Option<Items<u64>>, AllocError>
    ensures { (rows : List Row) (t : Tree) → StandsFor words.now rows → query.now ≡ polish t → IfOk result (λ found. found ≡ suspects_of t rows) }
{
    let (found, _) = suspect(alloc, words, true, query.as_slice())?;
    Ok(found)
}
