// The pool itself.
ghost use Rattle.std.specs.Prelude.{◌≡◌, ◌+◌, ◌^◌, ◌<◌, ◌≤◌, ℕ, List, [], ◌∷◌, length, false, IfSome, MatchOption, OnOk, OnErr};
ghost use Rattle.gl_pool.specs.Claims.{Call, Claimed, Finished, Abandoned, claims_of, held_by, is_free, IsFreeRun, IsNextCommit, IsFinishAnswer, MayClaim};
ghost use Rattle.gl_pool.specs.Kept.{StandsFor};

use crate::mark::{Claim, Mark, PoolAnswer};
use crate::span::{Span, cut, first_claimed, first_open, mark_of, run_end, take};
use std::alloc::{AllocError, Global};
use std::marker::Model;

/// Who holds which positions, and which are finished. Workers are numbers below 64.
#[derive(Drop)]
pub struct Pool {
    held: Vec<Claim>,
    /// What was given up, below the frontier.
    spans: Vec<Span>,
    /// All positions from here on were never claimed.
    frontier: u64,
}

impl Model for Pool {
    ghost use Rattle.gl_pool.specs.Kept.{Kept};

    ghost Value = { Kept };

    ghost use Rattle.gl_pool.specs.Inside.{kept_of, IsSound};

    ghost view = { kept_of };

    ghost invariant = { IsSound };
}

impl Pool {
    /// A pool in which all positions below `start` are finished, and nothing is claimed. It takes no memory.
    pub fn new(alloc: Global, start: u64) -> Pool
        ensures { StandsFor result start [] }
    {
        Pool {
            held: Vec::new(alloc),
            spans: Vec::new(alloc),
            frontier: start,
        }
    }

    /// The whole first run of positions below `journal` that are neither claimed nor finished, and
    /// `None` exactly where there is none.
    pub fn free(&self, journal: u64) -> Option<Mark>
        ensures run { (start : ℕ) (calls : List Call) → StandsFor self.now start calls → MatchOption result
            ((p : ℕ) → p < journal → is_free start calls p ≡ false)
            (λ run. IsFreeRun start calls journal run) }
        ensures within { IfSome result (λ run. run.first + run.count ≤ journal) }
    {
        let first = first_open(self.spans.as_slice(), self.frontier);
        if first >= journal {
            return None;
        }
        let end = run_end(self.spans.as_slice(), self.frontier, first, journal);
        Some(Mark {
            first,
            count: end - first,
        })
    }

    /// The range that a worker holds.
    pub fn held(&self, worker: u32) -> Option<Mark>
        ensures { (start : ℕ) (calls : List Call) → StandsFor self.now start calls → result ≡ held_by calls worker }
    {
        mark_of(self.held.as_slice(), worker)
    }

    /// How many ranges are held.
    pub fn held_count(&self) -> usize
        ensures { (start : ℕ) (calls : List Call) → StandsFor self.now start calls → result ≡ length (claims_of calls) }
    {
        self.held.len()
    }

    /// Gives a worker that holds nothing a range: one that begins the first free run, and lies in it.
    ///
    /// It takes the memory that the range's `finish` or `abandon` needs. An error changes nothing.
    pub fn claim(&mut self, worker: u32, mark: Mark) -> Result<(), AllocError>
        requires worker { worker < 64 }
        requires within { mark.first + mark.count < 2 ^ 64 }
        requires may { (start : ℕ) (calls : List Call) → StandsFor self.old start calls → MayClaim start calls worker mark }
        ensures ok { OnOk result ((start : ℕ) (calls : List Call) → StandsFor self.old start calls
            → StandsFor self.new start (Claimed (record { worker = worker; mark = mark }) ∷ calls)) }
        ensures err { OnErr result (self.new ≡ self.old) }
    {
        self.held.reserve(1)?;
        let ranges = self.held.len() + 1;
        self.spans.reserve(ranges)?;
        let end = mark.first + mark.count;
        cut(&mut self.spans, end);
        self.frontier = self.frontier.max(end);
        self.held.push_reserved(Claim { worker, mark });
        Ok(())
    }

    /// Takes the range that a worker holds as finished. It takes no memory.
    pub fn finish(&mut self, worker: u32) -> PoolAnswer
        ensures answer { (start : ℕ) (calls : List Call) → StandsFor self.old start calls → IsFinishAnswer start calls worker result }
        ensures finished { (start : ℕ) (calls : List Call) → StandsFor self.old start calls → StandsFor self.new start (Finished worker ∷ calls) }
    {
        let Some(mark) = take(&mut self.held, worker) else {
            return PoolAnswer::NoClaim;
        };
        let next = self.next_commit();
        if next < mark.first {
            PoolAnswer::Kept(next)
        } else {
            PoolAnswer::Committed(next)
        }
    }

    /// Takes the range that a worker holds back: its positions are free again. It answers the range,
    /// and takes no memory.
    pub fn abandon(&mut self, worker: u32) -> Option<Mark>
        ensures answer { (start : ℕ) (calls : List Call) → StandsFor self.old start calls → result ≡ held_by calls worker }
        ensures abandoned { (start : ℕ) (calls : List Call) → StandsFor self.old start calls → StandsFor self.new start (Abandoned worker ∷ calls) }
    {
        let Some(mark) = take(&mut self.held, worker) else {
            return None;
        };
        self.spans.push_reserved(Span {
            first: mark.first,
            end: mark.first + mark.count,
        });
        Some(mark)
    }

    /// The least position at or above the start that isn't finished.
    pub fn next_commit(&self) -> u64
        ensures { (start : ℕ) (calls : List Call) → StandsFor self.now start calls → IsNextCommit start calls result }
    {
        let free = first_open(self.spans.as_slice(), self.frontier);
        first_claimed(self.held.as_slice(), free)
    }
}
