// The index of time.
ghost use Rattle.std.specs.Prelude.{◌≡◌, nat_lt, [], ◌∷◌, ◌++◌, List, length, Contains, IfOk, OnOk, OnErr};
ghost use Rattle.gl_indexset.specs.declared.row.Row.{Row};
ghost use Rattle.gl_indexset.specs.Leaving.{without};
ghost use Rattle.gl_indexset.specs.Rising.{AreBelow};
ghost use Rattle.gl_moments.specs.Minutes.{near};
ghost use Rattle.gl_moments.specs.Moments.{StandsFor};
ghost use Rattle.gl_words.specs.Candidates.{positions};

use crate::minute::minute_of;
use crate::span::{are_fewer, positions};
use crate::table::{put, take};
use gl_base::Items;
use gl_indexset::Row;
use gl_words::Positions;
use std::alloc::{AllocError, Global};
use std::collections::BTreeMap;

/// For each minute the positions of the rows whose time is in it.
///
/// The time of a row is what its field `timestamp` holds, in milliseconds since 1970; times before 1970, and rows without a
/// time, count as 0.
#[derive(Drop)]
pub struct Moments {
    alloc: Global,
    minutes: BTreeMap<u64, Positions>,
}

impl Moments {
    /// The times of no rows. It takes no memory.
    pub fn new(alloc: Global) -> Moments
        ensures { StandsFor result [] }
    {
        Moments {
            alloc,
            minutes: BTreeMap::new(alloc),
        }
    }

    /// Puts the time of a row in, whose position is above those of all rows held.
    ///
    /// An error changes nothing that can be asked for.
    pub fn add(&mut self, row: &Row) -> Result<(), AllocError>
        ensures ok { (rows : List Row) → StandsFor self.old rows → AreBelow row.now.position rows → OnOk result (StandsFor self.new (rows ++ row.now ∷ [])) }
        ensures err { (rows : List Row) → StandsFor self.old rows → OnErr result (StandsFor self.new rows) }
    {
        put(&mut self.minutes, self.alloc, minute_of(row), row.position)
    }

    /// Takes the time of a row out, which is held. It takes no memory.
    pub fn forget(&mut self, row: &Row)
        ensures { (rows : List Row) → StandsFor self.old rows → Contains rows row.now → StandsFor self.new (without row.now.position rows) }
    {
        take(&mut self.minutes, minute_of(row), row.position);
    }

    /// Whether fewer than `limit` rows are of the minutes that have a part of the span from one moment on and before another,
    /// in milliseconds since 1970. It looks at `limit` minutes at most, and takes no memory.
    pub fn fewer_between(&self, from: u64, to: u64, limit: usize) -> bool
        ensures { (rows : List Row) → StandsFor self.now rows → result ≡ nat_lt (length (near from to rows)) limit }
    {
        are_fewer(&self.minutes, from, to, limit)
    }

    /// The positions of the rows of the minutes that have a part of the span from one moment on and before another, in
    /// milliseconds since 1970. They rise.
    pub fn positions_between(
        &self,
        alloc: Global,
        from: u64,
        to: u64,
    ) -> Result<Items<u64>, AllocError>
        ensures { (rows : List Row) → StandsFor self.now rows → IfOk result (λ found. found ≡ positions (near from to rows)) }
    {
        positions(alloc, &self.minutes, from, to)
    }
}
