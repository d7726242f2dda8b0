// Which rows are live in some set, and how the rows leave that aren't any more.
ghost use Rattle.std.specs.Prelude.{◌≡◌, ◌+◌, ◌-◌, ◌^◌, ◌<◌, ◌≤◌, ℕ, true, length, filter, map, slice_set, slice_index_or, slice_get, Some, vec_len};
ghost use Rattle.std.specs.List.{All, AllPairs};
ghost use Rattle.gl_indexset.specs.declared.row.Row.{Row};
ghost use Rattle.gl_indexset.specs.SetKept.{SetKept, IsReadyFor, goes, is_held};
ghost use Rattle.gl_indexset.specs.Rising.{AreRising, AreBelow};

use crate::row::Row;
use crate::set::IndexSet;
use crate::shelf::Shelf;

/// Whether a row is live in some set.
pub(crate) fn is_held(sets: &[IndexSet], row: &Row) -> bool
    ensures { result ≡ is_held sets.now row.now }
{
    sets.iter().any(|set| set.holds(row))
}

/// The place of the first row at or above a position.
pub(crate) fn first_from(rows: &Shelf, position: u64) -> usize
    requires { AreRising rows.now.rows }
    ensures within { result ≤ length rows.now.rows }
    ensures before { (k : ℕ) (d : Row) → k < result → (slice_index_or rows.now.rows k d).position < position }
    ensures behind { (k : ℕ) (d : Row) → result ≤ k → k < length rows.now.rows → position ≤ (slice_index_or rows.now.rows k d).position }
{
    let mut low = 0;
    let mut high = rows.len();
    while low < high {
        let middle = low + (high - low) / 2;
        if rows.get(middle).position < position {
            low = middle + 1;
        } else {
            high = middle;
        }
    }
    low
}

// Takes out the rows from one position on and before another that aren't live in any set.
fn sweep(rows: &mut Shelf, sets: &[IndexSet], from: u64, to: u64)
    requires order { from ≤ to }
    requires rising { AreRising rows.old.rows }
    requires before { All (λ row. row.position < from → is_held sets.now row ≡ true) rows.old.rows }
    requires behind { All (λ row. to ≤ row.position → is_held sets.now row ≡ true) rows.old.rows }
    ensures rows { rows.new.rows ≡ filter (is_held sets.now) rows.old.rows }
    ensures rising { AreRising rows.new.rows }
    ensures spare { rows.old.spare ≤ rows.new.spare }
{
    let first = first_from(rows, from);
    let last = first_from(rows, to);
    let mut kept = first;
    for n in first..last {
        if is_held(sets, rows.get(kept)) {
            kept += 1;
        } else {
            rows.remove(kept);
        }
    }
}

// Stores a row in the set at an index, where it names it, and takes out the rows that are live in no set any more.
fn enter(sets: &mut Vec<IndexSet>, at: usize, rows: &mut Shelf, row: &Row)
    requires at { at < vec_len sets.old }
    requires ready { (s : SetKept) → slice_get sets.old.items at ≡ Some s → IsReadyFor row.now.position s }
    requires counted { row.now.position < 2 ^ 64 - 1 }
    requires rising { AreRising rows.old.rows }
    requires below { AreBelow row.now.position rows.old.rows }
    requires held { All (λ other. is_held sets.old.items other ≡ true) rows.old.rows }
    ensures sets { (s : SetKept) → slice_get sets.old.items at ≡ Some s → sets.new.items ≡ slice_set sets.old.items at (goes row.now s) }
    ensures rows { rows.new.rows ≡ filter (is_held sets.new.items) rows.old.rows }
    ensures rising { AreRising rows.new.rows }
    ensures spare { rows.old.spare ≤ rows.new.spare }
{
    let set = &mut sets[at];
    if !set.takes(row) {
        return;
    }
    let before = set.oldest();
    set.store(row.position, row.moment);
    let after = set.oldest();
    let Some(from) = before else {
        return;
    };
    let to = after.unwrap_or(u64::MAX);
    if to > from {
        sweep(rows, sets.as_slice(), from, to);
    }
}

/// Stores a row in each set that it names, and takes out the rows that are live in no set any more.
pub(crate) fn enter_all(sets: &mut Vec<IndexSet>, rows: &mut Shelf, row: &Row)
    requires ready { All (IsReadyFor row.now.position) sets.old.items }
    requires counted { row.now.position < 2 ^ 64 - 1 }
    requires rising { AreRising rows.old.rows }
    requires below { AreBelow row.now.position rows.old.rows }
    requires held { All (λ other. is_held sets.old.items other ≡ true) rows.old.rows }
    ensures sets { sets.new.items ≡ map (goes row.now) sets.old.items }
    ensures rows { rows.new.rows ≡ filter (is_held sets.new.items) rows.old.rows }
    ensures rising { AreRising rows.new.rows }
    ensures spare { rows.old.spare ≤ rows.new.spare }
{
    for at in 0..sets.len() {
        enter(sets, at, rows, row);
    }
}
