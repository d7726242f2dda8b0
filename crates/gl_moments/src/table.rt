// The positions of each minute's rows.
ghost use Rattle.std.specs.Prelude.{◌≡◌, ℕ, ◌*◌, ◌<◌, ◌≤◌, [], IsTrue, MatchOption, OnOk, OnErr};
ghost use Rattle.gl_moments.specs.Inside.{Changes, IsFirst, IsNext, kept_at};
ghost use Rattle.gl_words.specs.Positions.{with_position, without_position};

use crate::minute::begins_before;
use gl_words::Positions;
use std::alloc::{AllocError, Global};
use std::collections::BTreeMap;

/// Puts a position behind those of a minute. An error changes nothing.
pub(crate) fn put(
    minutes: &mut BTreeMap<u64, Positions>,
    alloc: Global,
    minute: u64,
    position: u64,
) -> Result<(), AllocError>
    ensures ok { OnOk result (Changes (with_position position) minute (kept_at minutes.old) (kept_at minutes.new)) }
    ensures err { OnErr result ((m : ℕ) → kept_at minutes.new m ≡ kept_at minutes.old m) }
{
    if let Some(positions) = minutes.get_mut(&minute) {
        return positions.put(position);
    }
    minutes.insert(minute, Positions::of(alloc, position)?)?;
    Ok(())
}

// Takes a position out of those of a minute, and answers whether none is left.
fn take_at(minutes: &mut BTreeMap<u64, Positions>, minute: u64, position: u64) -> bool
    ensures changes { Changes (without_position position) minute (kept_at minutes.old) (kept_at minutes.new) }
    ensures spent { IsTrue result → kept_at minutes.new minute ≡ [] }
{
    match minutes.get_mut(&minute) {
        Some(positions) => {
            positions.take_out(position);
            positions.as_slice().is_empty()
        }
        None => false,
    }
}

/// Takes a position out of those of a minute. It takes no memory.
pub(crate) fn take(minutes: &mut BTreeMap<u64, Positions>, minute: u64, position: u64)
    ensures { Changes (without_position position) minute (kept_at minutes.old) (kept_at minutes.new) }
{
    if take_at(minutes, minute, position) {
        minutes.remove(&minute);
    }
}

// The first minute from this one on that has positions, and they.
fn first_from(minutes: &BTreeMap<u64, Positions>, low: u64) -> Option<(u64, &[u64])>
    ensures { MatchOption result ((m : ℕ) → low ≤ m → kept_at minutes.now m ≡ []) (λ first. IsFirst (kept_at minutes.now) low first.0 first.1.now) }
{
    match minutes.range(low..).next() {
        Some((minute, positions)) => Some((*minute, positions.as_slice())),
        None => None,
    }
}

/// The first minute from this one on that begins before a moment and has positions, and they.
pub(crate) fn next_minute(
    minutes: &BTreeMap<u64, Positions>,
    low: u64,
    to: u64,
) -> Option<(u64, &[u64])>
    ensures { MatchOption result ((m : ℕ) → low ≤ m → m * 60000 < to → kept_at minutes.now m ≡ []) (λ next. IsNext (kept_at minutes.now) low to next.0 next.1.now) }
{
    match first_from(minutes, low) {
        Some((minute, positions)) => {
            if begins_before(minute, to) {
                Some((minute, positions))
            } else {
                None
            }
        }
        None => None,
    }
}
