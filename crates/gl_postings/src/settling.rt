// How rows come into index sets, and their words with them.
ghost use Rattle.std.specs.Prelude.{◌≡◌, ℕ, ◌+◌, ◌<◌, ◌≤◌, ◌==◌, ◌++◌, ◌∷◌, [], not, List, length, OnOk, OnErr};
ghost use Rattle.std.specs.List.{All};
ghost use Rattle.gl_fields.specs.declared.set_rule.SetRule.{SetRule};
ghost use Rattle.gl_indexset.specs.declared.row.Row.{Row};
ghost use Rattle.gl_indexset.specs.Kept.{StandsFor as SetsStandFor, rules_of};
ghost use Rattle.gl_indexset.specs.Leaving.{staying};
ghost use Rattle.gl_indexset.specs.Retention.{live_rows};
ghost use Rattle.gl_indexset.specs.Rising.{AreRising};
ghost use Rattle.gl_postings.specs.Indexed.{IsReady, filed, stored};
ghost use Rattle.gl_postings.specs.Postings.{StandsFor};

use crate::postings::Postings;
use gl_base::Items;
use gl_indexset::{IndexSets, Row, Steps};
use std::alloc::AllocError;
use std::marker::Brand;
use std::sync::ledger::{Blank, Ledger};

// Whether a row goes into some set.
fn is_filed(row: &Row) -> bool
    ensures { result ≡ not (length row.now.sets == 0) }
{
    !row.sets.get().is_empty()
}

/// Puts the words in of those rows that go into some set. They come behind all rows that are held. An error leaves those
/// held that were.
pub(crate) fn add_words(words: &mut Postings, more: &[Row]) -> Result<(), AllocError>
    ensures ok { (rows : List Row) → StandsFor words.old rows → AreRising (rows ++ filed more.now) → OnOk result (StandsFor words.new (rows ++ filed more.now)) }
    ensures err { (rows : List Row) → StandsFor words.old rows → AreRising (rows ++ filed more.now) → OnErr result (StandsFor words.new rows) }
{
    for (n, row) in more.iter().enumerate() {
        match add_row(words, row) {
            Ok(()) => {}
            Err(error) => {
                forget_words(words, &more[..n]);
                return Err(error);
            }
        }
    }
    Ok(())
}

fn add_row(words: &mut Postings, row: &Row) -> Result<(), AllocError>
    ensures ok { (rows : List Row) → StandsFor words.old rows → AreRising (rows ++ filed (row.now ∷ [])) → OnOk result (StandsFor words.new (rows ++ filed (row.now ∷ []))) }
    ensures err { (rows : List Row) → StandsFor words.old rows → AreRising (rows ++ filed (row.now ∷ [])) → OnErr result (StandsFor words.new rows) }
{
    if is_filed(row) {
        words.add(row)
    } else {
        Ok(())
    }
}

/// Takes the words out of those rows that go into some set. They are held, behind all others.
pub(crate) fn forget_words(words: &mut Postings, more: &[Row])
    ensures { (rows : List Row) → StandsFor words.old (rows ++ filed more.now) → StandsFor words.new rows }
{
    for row in more {
        forget_row(words, row);
    }
}

fn forget_row(words: &mut Postings, row: &Row)
    ensures { (rows : List Row) (more : List Row) → StandsFor words.old (rows ++ filed (row.now ∷ more)) → StandsFor words.new (rows ++ filed more) }
{
    if !is_filed(row) {
        return;
    }
    words.forget(row);
}

/// Stores rows that were made ready.
pub(crate) fn settle_all(sets: &mut IndexSets, words: &mut Postings, more: Items<Row>)
    requires { (rules : List SetRule) × (all : List Row) × IsReady sets.old words.old rules all more }
    ensures settled { (rules : List SetRule) (all : List Row) → IsReady sets.old words.old rules all more → IsReady sets.new words.new rules (stored more all) [] }
    ensures next { (limit : ℕ) → sets.old.next ≤ limit → All (λ (row : Row). row.position < limit) more → sets.new.next ≤ limit }
{
    let mut rows = more.into_vec().into_iter();
    while let Some(row) = rows.next() {
        settle_row(sets, words, row);
    }
}

// Stores the first of the rows that were made ready.
fn settle_row(sets: &mut IndexSets, words: &mut Postings, row: Row)
    requires { (rules : List SetRule) × (all : List Row) × (more : List Row) × IsReady sets.old words.old rules all (row ∷ more) }
    ensures settled { (rules : List SetRule) (all : List Row) (more : List Row) → IsReady sets.old words.old rules all (row ∷ more) → IsReady sets.new words.new rules (row ∷ all) more }
    ensures next { sets.new.next ≡ row.position + 1 }
{
    forget_leaving::<Brand>(sets, words, &row, Blank::new(1));
    sets.store(row);
}

// Takes the words out of the rows that leave when this row is stored.
fn forget_leaving<L: Ledger>(sets: &IndexSets, words: &mut Postings, row: &Row, blank: Blank)
    requires name { blank.name ≡ L.name }
    requires parts { blank.parts ≡ L.parts }
    requires some { 0 < L.parts }
    requires stands { (all : List Row) × SetsStandFor sets.now all }
    requires above { sets.now.next ≤ row.now.position }
    ensures { (all : List Row) (rest : List Row) → SetsStandFor sets.now all → StandsFor words.old (sets.now.rows ++ rest)
        → StandsFor words.new (staying (live_rows (rules_of sets.now) (row.now ∷ all)) sets.now.rows ++ rest) }
{
    let mut steps = Steps::<L>::new(blank);
    let len = sets.live_len();
    let mut from = 0;
    while let Some(n) = sets.next_leaving(row, from) {
        words.forget(sets.row(n, &mut steps));
        from = n + 1;
    }
}
