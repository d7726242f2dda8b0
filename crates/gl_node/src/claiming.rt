// Ranges of positions: who holds one, what a worker is given of one, and whether work is of one.
ghost use Rattle.std.specs.Prelude.{◌≡◌, ◌↔◌, ◌==◌, ◌+◌, ◌<◌, ◌≤◌, vec_len, None, IsTrue, IfOk, OnErr, slice_range, nat_lt, find};
ghost use Rattle.std.specs.List.{list_any, position};
ghost use Rattle.gl_node.specs.Claims.{mark_of, range_of};
ghost use Rattle.gl_node.specs.Node.{Keeps, stopped_of, store_of};
ghost use Rattle.gl_node.specs.State.{State, Claimed, happened};

use crate::mark::{Claim, Mark};
use crate::node::Node;
use crate::work::Range;
use gl_base::Items;
use gl_fields::Entry;
use std::alloc::{AllocError, Global};

impl Node {
    // The index of what a worker holds.
    pub(crate) fn place_of(&self, worker: u32) -> Option<usize>
        ensures { result ≡ position (λ claim. claim.worker == worker) self.now.held.items }
    {
        self.held.iter().position(|claim| claim.worker == worker)
    }

    // Whether a range is held that begins below this position.
    pub(crate) fn holds_below(&self, first: u64) -> bool
        ensures { result ≡ list_any (λ claim. nat_lt claim.mark.first first) self.now.held.items }
    {
        self.held.iter().any(|claim| claim.mark.first < first)
    }

    // What a worker is given of a range.
    pub(crate) fn copy_range(&self, mark: Mark) -> Result<Range, AllocError>
        requires { mark.first + mark.count ≤ vec_len self.now.entries }
        ensures { IfOk result (λ range. range ≡ record {
          first = mark.first;
          config = self.now.config;
          entries = slice_range self.now.entries.items mark.first (mark.first + mark.count);
        }) }
    {
        let first = mark.first as usize;
        let end = (mark.first + mark.count) as usize;
        let config = self.config.copy(self.alloc)?;
        let entries = copy_entries(self.alloc, &self.entries.as_slice()[first..end])?;
        Ok(Range {
            first: mark.first,
            config,
            entries,
        })
    }

    // Whether this is what a worker was given of the range.
    pub(crate) fn gave(&self, mark: Mark, range: &Range) -> bool
        requires { mark.first + mark.count ≤ vec_len self.now.entries }
        ensures { IsTrue result ↔ (range.now ≡ record {
          first = mark.first;
          config = self.now.config;
          entries = slice_range self.now.entries.items mark.first (mark.first + mark.count);
        }) }
    {
        let first = mark.first as usize;
        let end = (mark.first + mark.count) as usize;
        let entries = &self.entries.as_slice()[first..end];
        range.first == mark.first
            && range.config.same(&self.config)
            && same_entries(range.entries.as_slice(), entries)
    }

    // Gives a worker the next positions that were never claimed.
    pub(crate) fn grant(&mut self, claim: Claim) -> Result<Range, AllocError>
        requires next { claim.mark.first ≡ self.old.next }
        requires some { 0 < claim.mark.count }
        requires few { claim.mark.count ≤ 256 }
        requires within { claim.mark.first + claim.mark.count ≤ vec_len self.old.entries }
        requires alone { find (λ other. other.worker == claim.worker) self.old.held.items ≡ None }
        ensures granted { IfOk result (λ range. (s : State) → Keeps self.old s → (range ≡ range_of s claim.mark) × Keeps self.new (happened s (Claimed claim))) }
        ensures refused { OnErr result ((s : State) → Keeps self.old s → Keeps self.new s) }
        ensures same { (store_of self.new ≡ store_of self.old) × (stopped_of self.new ≡ stopped_of self.old) }
    {
        let range = self.copy_range(claim.mark)?;
        self.held.reserve(1)?;
        let held = self.held.len() + 1;
        self.waiting.reserve(held)?;
        self.next += claim.mark.count;
        self.held.push_reserved(claim);
        Ok(range)
    }
}

// The positions of what a worker was given.
pub fn mark_of(range: &Range) -> Mark
    ensures { result ≡ mark_of range.now }
{
    Mark {
        first: range.first,
        count: range.entries.len() as u64,
    }
}

// Equal entries of their own.
fn copy_entries(alloc: Global, entries: &[Entry]) -> Result<Items<Entry>, AllocError>
    ensures { IfOk result (λ copies. copies ≡ entries.now) }
{
    let mut copies = Items::with_capacity(alloc, entries.len())?;
    for entry in entries {
        copies.push(entry.copy()?)?;
    }
    Ok(copies)
}

// Whether both are the same entries, in the same order.
fn same_entries(entries: &[Entry], others: &[Entry]) -> bool
    ensures { IsTrue result ↔ (entries.now ≡ others.now) }
{
    if entries.len() != others.len() {
        return false;
    }
    for (index, entry) in entries.iter().enumerate() {
        if !entry.same(&others[index]) {
            return false;
        }
    }
    true
}
