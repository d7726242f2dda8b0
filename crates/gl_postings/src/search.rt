// The search.
ghost use Rattle.std.specs.Prelude.{◌≡◌, ◌+◌, ◌≤◌, IfOk};
ghost use Rattle.gl_query.specs.Tree.{Tree, polish};
ghost use Rattle.gl_postings.specs.Bound.{most_steps};
ghost use Rattle.gl_postings.specs.Found.{page_of};
ghost use Rattle.gl_postings.specs.Postings.{StandsFor};

use crate::finding::find_hits;
use crate::postings::Postings;
use gl_indexset::{Counted, IndexSets, Steps};
use gl_pages::{Ask, Page};
use std::alloc::{AllocError, Global};
use std::sync::ledger::Ledger;

/// Searches the live rows of index sets. The postings are those of just these rows.
///
/// Where the query requires a term, it looks up the rows that have the rarest one; else those that have a term of its cover,
/// which a word without a field has, and OR of such; and else each row. Where fewer rows stand in the minutes that are asked
/// for, it looks up those. By so many the steps rise at most, also where memory is wanting. An error changes nothing else.
/// A word of digits alone, NOT, a pattern, a range and `_exists_` are served by time alone.
pub fn search_rows<L: Ledger>(
    alloc: Global,
    sets: &IndexSets,
    postings: &Postings,
    ask: &Ask,
    steps: &mut Steps<L>,
) -> Result<Page, AllocError>
    requires { StandsFor postings.now sets.now.rows }
    ensures page { (t : Tree) → ask.now.query ≡ polish t → IfOk result (λ page. page ≡ page_of ask.now t sets.now.rows) }
    ensures bound { (t : Tree) → ask.now.query ≡ polish t → steps.new ≤ steps.old + most_steps ask.now t sets.now.rows }
{
    let mut rows = Counted::new(sets, steps);
    let hits = find_hits(alloc, &mut rows, postings, ask)?;
    hits.into_page(ask)
}
