// The live rows, looked at only by a counter.
ghost use Rattle.std.specs.Prelude.{◌≡◌, ◌+◌, ◌<◌, false, length, Some, slice_get, MatchOption};
ghost use Rattle.std.specs.List.{Contains};
ghost use Rattle.gl_indexset.specs.Counting.{IsSameCounter, live_in, steps_in};
ghost use Rattle.gl_indexset.specs.Leaving.{has_position};

use crate::row::Row;
use crate::sets::IndexSets;
use crate::steps::Steps;
use std::sync::ledger::Ledger;

/// The live rows of index sets with the counter of those that are looked at. Who has only this can look
/// at no row that isn't counted.
#[derive(Drop)]
pub struct Counted<'s, L: Ledger> {
    sets: &'s IndexSets,
    steps: &'s mut Steps<L>,
}

impl<'s, L: Ledger> Counted<'s, L> {
    /// The live rows of these sets, counted on by this counter.
    pub fn new(sets: &'s IndexSets, steps: &'s mut Steps<L>) -> Counted<'s, L>
        ensures rows { live_in result ≡ sets.now.rows }
        ensures steps { steps_in result ≡ steps.old }
        ensures counter { result.steps.ghost_name ≡ steps.entry.ghost_name }
    {
        Counted { sets, steps }
    }

    /// How many rows are live.
    pub fn live_len(&self) -> u64
        ensures { result ≡ length (live_in self.now) }
    {
        self.sets.live_len()
    }

    /// The `n`-th of the live rows, in order of position; the first is 0. It counts one step.
    pub fn row(&mut self, n: u64) -> &'s Row
        requires { n < length (live_in self.old) }
        ensures row { slice_get (live_in self.old) n ≡ Some result.now }
        ensures steps { steps_in self.new ≡ steps_in self.old + 1 }
        ensures rows { live_in self.new ≡ live_in self.old }
        ensures counter { IsSameCounter self.new self.old }
    {
        self.sets.row(n, self.steps)
    }

    /// The live row at a position of the journal, and `None` where there is none. It counts one step.
    pub fn row_at(&mut self, position: u64) -> Option<&'s Row>
        ensures row { MatchOption result (has_position (live_in self.old) position ≡ false) (λ row. (row.now.position ≡ position) × Contains (live_in self.old) row.now) }
        ensures steps { steps_in self.new ≡ steps_in self.old + 1 }
        ensures rows { live_in self.new ≡ live_in self.old }
        ensures counter { IsSameCounter self.new self.old }
    {
        self.sets.row_at(position, self.steps)
    }
}
