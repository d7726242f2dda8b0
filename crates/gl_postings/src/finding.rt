// What a search finds of rows that it can only look at by their counter.
ghost use Rattle.std.specs.Prelude.{◌≡◌, ◌+◌, ◌≤◌, ◌∷◌, [], ◌++◌, List, length, IfOk, OnOk};
ghost use Rattle.std.specs.List.{All, Contains};
ghost use Rattle.gl_indexset.specs.declared.row.Row.{Row};
ghost use Rattle.gl_indexset.specs.Counting.{IsSameCounter, live_in, steps_in};
ghost use Rattle.gl_indexset.specs.Rising.{AreRising};
ghost use Rattle.gl_query.specs.Tree.{Tree, polish};
ghost use Rattle.gl_words.specs.Candidates.{positions};
ghost use Rattle.gl_moments.specs.Minutes.{near};
ghost use Rattle.gl_moments.specs.Moments.{StandsFor as MomentsStandFor};
ghost use Rattle.gl_covers.specs.Covers.{cover};
ghost use Rattle.gl_postings.specs.Bound.{in_time, most_steps, steps_by_cover};
ghost use Rattle.gl_postings.specs.Found.{hits_of};
ghost use Rattle.gl_postings.specs.Postings.{StandsFor};

use crate::postings::Postings;
use gl_covers::{law_cover, suspects};
use gl_indexset::{Counted, Row};
use gl_moments::{Moments, law_near};
use gl_pages::{Ask, Hits};
use gl_query::law_required_terms;
use std::alloc::{AllocError, Global};
use std::sync::ledger::Ledger;

/// What the search finds of the live rows.
pub(crate) fn find_hits<L: Ledger>(
    alloc: Global,
    rows: &mut Counted<'_, L>,
    postings: &Postings,
    ask: &Ask,
) -> Result<Hits, AllocError>
    requires { StandsFor postings.now (live_in rows.old) }
    ensures hits { (t : Tree) → ask.now.query ≡ polish t → IfOk result (λ hits. hits ≡ hits_of ask.now t (live_in rows.old)) }
    ensures bound { (t : Tree) → ask.now.query ≡ polish t → steps_in rows.new ≤ steps_in rows.old + most_steps ask.now t (live_in rows.old) }
    ensures counter { IsSameCounter rows.new rows.old }
{
    law_required_terms();
    match postings.candidates(&ask.query) {
        Some(positions) => find_among(alloc, rows, &postings.moments, positions, ask),
        None => find_suspects(alloc, rows, postings, ask),
    }
}

// What it finds where the query requires no term.
fn find_suspects<L: Ledger>(
    alloc: Global,
    rows: &mut Counted<'_, L>,
    postings: &Postings,
    ask: &Ask,
) -> Result<Hits, AllocError>
    requires { StandsFor postings.now (live_in rows.old) }
    ensures hits { (t : Tree) → ask.now.query ≡ polish t → IfOk result (λ hits. hits ≡ hits_of ask.now t (live_in rows.old)) }
    ensures bound { (t : Tree) → ask.now.query ≡ polish t
        → steps_in rows.new ≤ steps_in rows.old + in_time ask.now (live_in rows.old) (steps_by_cover (live_in rows.old) (cover (live_in rows.old) t)) }
    ensures counter { IsSameCounter rows.new rows.old }
{
    law_cover();
    match suspects(alloc, &postings.words, &ask.query)? {
        Some(positions) => find_among(alloc, rows, &postings.moments, positions.as_slice(), ask),
        None => find_in_time(alloc, rows, &postings.moments, ask),
    }
}

// What it finds, where it finds nothing but rows at these positions.
fn find_among<L: Ledger>(
    alloc: Global,
    rows: &mut Counted<'_, L>,
    moments: &Moments,
    given: &[u64],
    ask: &Ask,
) -> Result<Hits, AllocError>
    requires rising { AreRising (live_in rows.old) }
    requires moments { MomentsStandFor moments.now (live_in rows.old) }
    ensures hits { (t : Tree) (some : List Row) → ask.now.query ≡ polish t → All (Contains (live_in rows.old)) some → hits_of ask.now t some ≡ hits_of ask.now t (live_in rows.old)
        → given.now ≡ positions some → IfOk result (λ hits. hits ≡ hits_of ask.now t (live_in rows.old)) }
    ensures steps { steps_in rows.new ≤ steps_in rows.old + in_time ask.now (live_in rows.old) (length given.now) }
    ensures counter { IsSameCounter rows.new rows.old }
{
    if moments.fewer_between(ask.from, ask.to, given.len()) {
        return find_near(alloc, rows, moments, ask);
    }
    find_at(alloc, rows, given, ask)
}

// What it finds where words tell nothing of it.
fn find_in_time<L: Ledger>(
    alloc: Global,
    rows: &mut Counted<'_, L>,
    moments: &Moments,
    ask: &Ask,
) -> Result<Hits, AllocError>
    requires rising { AreRising (live_in rows.old) }
    requires moments { MomentsStandFor moments.now (live_in rows.old) }
    ensures hits { (t : Tree) → ask.now.query ≡ polish t → IfOk result (λ hits. hits ≡ hits_of ask.now t (live_in rows.old)) }
    ensures steps { steps_in rows.new ≤ steps_in rows.old + in_time ask.now (live_in rows.old) (length (live_in rows.old)) }
    ensures counter { IsSameCounter rows.new rows.old }
{
    if moments.fewer_between(ask.from, ask.to, rows.live_len() as usize) {
        return find_near(alloc, rows, moments, ask);
    }
    find_all(alloc, rows, ask)
}

// What it finds, of the rows in the minutes that are asked for.
fn find_near<L: Ledger>(
    alloc: Global,
    rows: &mut Counted<'_, L>,
    moments: &Moments,
    ask: &Ask,
) -> Result<Hits, AllocError>
    requires rising { AreRising (live_in rows.old) }
    requires moments { MomentsStandFor moments.now (live_in rows.old) }
    ensures hits { (t : Tree) → ask.now.query ≡ polish t → IfOk result (λ hits. hits ≡ hits_of ask.now t (live_in rows.old)) }
    ensures steps { steps_in rows.new ≤ steps_in rows.old + length (near ask.now.from ask.now.to (live_in rows.old)) }
    ensures counter { IsSameCounter rows.new rows.old }
{
    law_near();
    let given = moments.positions_between(alloc, ask.from, ask.to)?;
    find_at(alloc, rows, given.as_slice(), ask)
}

// What it finds of the rows at these positions.
fn find_at<L: Ledger>(
    alloc: Global,
    rows: &mut Counted<'_, L>,
    given: &[u64],
    ask: &Ask,
) -> Result<Hits, AllocError>
    requires { AreRising (live_in rows.old) }
    ensures hits { (t : Tree) (some : List Row) → ask.now.query ≡ polish t → All (Contains (live_in rows.old)) some → given.now ≡ positions some
        → IfOk result (λ hits. hits ≡ hits_of ask.now t some) }
    ensures steps { steps_in rows.new ≤ steps_in rows.old + length given.now }
    ensures counter { IsSameCounter rows.new rows.old }
{
    let mut hits = Hits::new(alloc);
    for position in given {
        meet_at(&mut hits, rows, *position, ask)?;
    }
    Ok(hits)
}

// Takes the row at a position in, if the search finds it.
fn meet_at<L: Ledger>(
    hits: &mut Hits,
    rows: &mut Counted<'_, L>,
    position: u64,
    ask: &Ask,
) -> Result<(), AllocError>
    requires { AreRising (live_in rows.old) }
    ensures hits { (t : Tree) (row : Row) → ask.now.query ≡ polish t → Contains (live_in rows.old) row → position ≡ row.position
        → OnOk result (hits.new ≡ hits.old ++ hits_of ask.now t (row ∷ [])) }
    ensures rows { live_in rows.new ≡ live_in rows.old }
    ensures steps { steps_in rows.new ≡ steps_in rows.old + 1 }
    ensures counter { IsSameCounter rows.new rows.old }
{
    match rows.row_at(position) {
        Some(row) => meet(hits, row, ask),
        None => Ok(()),
    }
}

// What it finds of all live rows.
fn find_all<L: Ledger>(
    alloc: Global,
    rows: &mut Counted<'_, L>,
    ask: &Ask,
) -> Result<Hits, AllocError>
    ensures hits { (t : Tree) → ask.now.query ≡ polish t → IfOk result (λ hits. hits ≡ hits_of ask.now t (live_in rows.old)) }
    ensures steps { steps_in rows.new ≤ steps_in rows.old + length (live_in rows.old) }
    ensures counter { IsSameCounter rows.new rows.old }
{
    let mut hits = Hits::new(alloc);
    for n in 0..rows.live_len() {
        let row = rows.row(n);
        meet(&mut hits, row, ask)?;
    }
    Ok(hits)
}

// Takes a row in, if the search finds it.
fn meet(hits: &mut Hits, row: &Row, ask: &Ask) -> Result<(), AllocError>
    ensures { (t : Tree) → ask.now.query ≡ polish t → OnOk result (hits.new ≡ hits.old ++ hits_of ask.now t (row.now ∷ [])) }
{
    hits.meet(
        ask,
        row.position,
        row.streams.get().as_slice(),
        row.fields.get(),
    )
}
