// The positions of rows that have a term of one of two covers.
ghost use Rattle.std.specs.Prelude.{◌≡◌, [], ◌∷◌, ◌++◌, List, Option, IfOk};
ghost use Rattle.gl_indexset.specs.declared.row.Row.{Row};
ghost use Rattle.gl_indexset.specs.Rising.{AreRising};
ghost use Rattle.gl_words.specs.Candidates.{positions};
ghost use Rattle.gl_words.specs.Texts.{shorter};
ghost use Rattle.gl_covers.specs.Covers.{Terms, covered, joined, narrower_known};
ghost use Rattle.gl_covers.specs.Suspects.{behind, found_by, least_of};

use gl_base::Items;
use std::alloc::{AllocError, Global};

// The least position at the front of two lists.
fn least_of(one: &[u64], other: &[u64]) -> Option<u64>
    ensures { result ≡ least_of one.now other.now }
{
    match one.split_first() {
        None => match other.split_first() {
            None => None,
            Some((second, _)) => Some(*second),
        },
        Some((first, _)) => match other.split_first() {
            None => Some(*first),
            Some((second, _)) => Some(if *second < *first { *second } else { *first }),
        },
    }
}

// What stands behind a position, if it is the first.
fn behind(positions: &[u64], position: u64) -> &[u64]
    ensures { result.now ≡ behind position positions.now }
{
    match positions.split_first() {
        None => positions,
        Some((first, rest)) => { if *first == position { rest } else { positions } }
    }
}

/// The positions of both, in rising order and none twice.
pub(crate) fn merged(alloc: Global, one: &[u64], other: &[u64]) -> Result<Items<u64>, AllocError>
    ensures { (rows : List Row) (a b : Terms) → AreRising rows → one.now ≡ positions (covered rows a) → other.now ≡ positions (covered rows b)
        → IfOk result (λ found. found ≡ positions (covered rows (a ++ b))) }
{
    let mut found = Items::new(alloc);
    let mut one = one;
    let mut other = other;
    while let Some(position) = least_of(one, other) {
        found.push(position)?;
        one = behind(one, position);
        other = behind(other, position);
    }
    Ok(found)
}

fn shorter(one: Items<u64>, other: Items<u64>) -> Items<u64>
    ensures { result ≡ shorter one other }
{
    if other.len() < one.len() { other } else { one }
}

/// The fewer of these, where there are both.
pub(crate) fn narrower(one: Option<Items<u64>>, other: Option<Items<u64>>) -> Option<Items<u64>>
    ensures { (rows : List Row) (a b : Option Terms) → one ≡ found_by rows a → other ≡ found_by rows b → result ≡ found_by rows (narrower_known rows a b) }
{
    match one {
        None => other,
        Some(one) => match other {
            None => Some(one),
            Some(other) => Some(shorter(one, other)),
        },
    }
}

/// Those of both, where there are both.
pub(crate) fn joined(
    alloc: Global,
    one: Option<Items<u64>>,
    other: Option<Items<u64>>,
) -> Result<Option<Items<u64>>, AllocError>
    ensures { (rows : List Row) (a b : Option Terms) → AreRising rows → one ≡ found_by rows a → other ≡ found_by rows b
        → IfOk result (λ found. found ≡ found_by rows (joined a b)) }
{
    match one {
        None => Ok(None),
        Some(one) => match other {
            None => Ok(None),
            Some(other) => {
                let found = merged(alloc, one.as_slice(), other.as_slice())?;
                Ok(Some(found))
            }
        },
    }
}
