// The rows of the minutes that have a part of a span.
ghost use Rattle.std.specs.Prelude.{◌≡◌, ℕ, Bool, nat_lt, List, length, IfOk};
ghost use Rattle.std.specs.List.{count_by};
ghost use Rattle.gl_indexset.specs.declared.row.Row.{Row};
ghost use Rattle.gl_moments.specs.Inside.{AreKept, kept_at};
ghost use Rattle.gl_moments.specs.Minutes.{near};
ghost use Rattle.gl_words.specs.Candidates.{positions};

use crate::minute::MINUTE;
use crate::table::next_minute;
use gl_base::Items;
use gl_words::Positions;
use std::alloc::{AllocError, Global};
use std::collections::BTreeMap;

/// Whether the rows of these minutes are fewer than so many. It looks at no more minutes than that.
pub(crate) fn are_fewer(
    minutes: &BTreeMap<u64, Positions>,
    from: u64,
    to: u64,
    limit: usize,
) -> bool
    ensures { (rows : List Row) → AreKept (kept_at minutes.now) rows → result ≡ nat_lt (length (near from to rows)) limit }
{
    let mut left = limit;
    let mut low = from / MINUTE;
    while let Some((minute, positions)) = next_minute(minutes, low, to) {
        if left <= positions.len() {
            return false;
        }
        left -= positions.len();
        low = minute + 1;
    }
    0 < left
}

// The positions of the rows of these minutes, minute after minute.
fn gather(
    alloc: Global,
    minutes: &BTreeMap<u64, Positions>,
    from: u64,
    to: u64,
) -> Result<Vec<u64>, AllocError>
    ensures { (rows : List Row) (test : ℕ → Bool) → AreKept (kept_at minutes.now) rows → IfOk result (λ found. count_by test found.items ≡ count_by test (positions (near from to rows))) }
{
    let mut found = Vec::new(alloc);
    let mut low = from / MINUTE;
    while let Some((minute, positions)) = next_minute(minutes, low, to) {
        found.extend_from_slice(positions)?;
        low = minute + 1;
    }
    Ok(found)
}

/// The positions of the rows of these minutes, in rising order.
pub(crate) fn positions(
    alloc: Global,
    minutes: &BTreeMap<u64, Positions>,
    from: u64,
    to: u64,
) -> Result<Items<u64>, AllocError>
    ensures { (rows : List Row) → AreKept (kept_at minutes.now) rows → IfOk result (λ found. found ≡ positions (near from to rows)) }
{
    let mut found = gather(alloc, minutes, from, to)?;
    found.sort()?;
    Ok(Items::from_vec(found))
}
