// Which live row leaves next, told before a row is stored.
ghost use Rattle.std.specs.Prelude.{◌≡◌, ◌-◌, ◌^◌, ℕ, true, fold, map, min};
ghost use Rattle.std.specs.List.{All, list_any};
ghost use Rattle.gl_indexset.specs.SetKept.{is_held, is_held_by, goes, oldest_of, first_lost};
ghost use Rattle.gl_indexset.specs.Leaving.{IsNextFailing};
ghost use Rattle.gl_indexset.specs.Rising.{AreRising, AreBelow};

use crate::row::Row;
use crate::set::IndexSet;
use crate::shelf::Shelf;
use crate::sweep::first_from;

// Whether a row that was stored is live in some set once another is stored.
fn is_held_after(sets: &[IndexSet], row: &Row, other: &Row) -> bool
    ensures { result ≡ list_any (λ set. is_held_by other.now (goes row.now set)) sets.now }
{
    sets.iter().any(|set| set.holds_after(row, other))
}

// The first position at or above this one of a row that leaves some set when another row is stored;
// `u64::MAX` where none does.
fn first_lost(sets: &[IndexSet], row: &Row, position: u64) -> u64
    ensures { result ≡ fold (λ least set. min least (first_lost (oldest_of set) (oldest_of (goes row.now set)) position (2 ^ 64 - 1))) (2 ^ 64 - 1) sets.now }
{
    sets.iter().fold(u64::MAX, |least, set| {
        least.min(set.first_lost(row, position))
    })
}

/// The least place at or above one of a row that no set holds once another row is stored.
///
/// It looks only at rows of the indexes that are dropped.
pub(crate) fn next_unheld(rows: &Shelf, sets: &[IndexSet], row: &Row, from: u64) -> Option<u64>
    requires rising { AreRising rows.now.rows }
    requires below { AreBelow row.now.position rows.now.rows }
    requires held { All (λ other. is_held sets.now other ≡ true) rows.now.rows }
    ensures { IsNextFailing (is_held (map (goes row.now) sets.now)) rows.now.rows from result }
{
    let mut n = from as usize;
    while n < rows.len() {
        let other = rows.get(n);
        if !is_held_after(sets, row, other) {
            return Some(n as u64);
        }
        let next = first_lost(sets, row, other.position);
        n = first_from(rows, next).max(n + 1);
    }
    None
}
