// The live rows, in order of position.
ghost use Rattle.std.specs.Prelude.{◌≡◌, ◌+◌, ◌-◌, ◌*◌, ◌<◌, ◌≤◌, [], ◌∷◌, ◌++◌, filter, is_some, length, replicate, vec_capacity, Some, slice_get, IfOk, OnOk};
ghost use Rattle.std.specs.List.{remove};
ghost use Rattle.gl_indexset.specs.Shelved.{Shelved};

use crate::ranks::Ranks;
use crate::row::Row;
use std::alloc::{AllocError, Global};
use std::marker::Model;

/// A list of rows. Reading one by its place, taking one out and putting one behind the others takes a
/// logarithm of how many there is room for.
#[derive(Drop)]
pub(crate) struct Shelf {
    alloc: Global,
    /// The rows in their order, and where one was taken out nothing.
    slots: Vec<Option<Row>>,
    /// How many rows are in each slot, 1 or 0. There are as many counts as there is room for slots.
    ranks: Ranks,
    /// How many rows there are.
    len: usize,
}

impl Model for Shelf {
    ghost use Rattle.std.specs.Prelude.{◌-◌, length, vec_capacity};
    ghost use Rattle.gl_indexset.specs.Shelved.{Shelved, AreShelved, present};

    ghost Value = { Shelved };

    ghost view = { λ s. record { rows = present s.slots.items; spare = length s.ranks - length s.slots.items } };

    ghost invariant = { λ s. AreShelved s.slots.items s.ranks s.len (vec_capacity s.slots) };
}

impl Shelf {
    pub(crate) fn new(alloc: Global) -> Shelf
        ensures { result.rows ≡ [] }
    {
        Shelf {
            alloc,
            slots: Vec::new(alloc),
            ranks: Ranks::new(alloc),
            len: 0,
        }
    }

    pub(crate) fn len(&self) -> usize
        ensures { result ≡ length self.now.rows }
    {
        self.len
    }

    pub(crate) fn get(&self, n: usize) -> &Row
        requires { n < length self.now.rows }
        ensures { slice_get self.now.rows n ≡ Some result.now }
    {
        match &self.slots[self.ranks.find(n)] {
            Some(row) => row,
            None => unreachable!(),
        }
    }

    /// Makes room for so many rows more.
    ///
    /// Where there isn't enough, the slots without a row go first; and there is room for twice as many
    /// rows as are wanted, so that it is long until the next time.
    pub(crate) fn reserve(&mut self, additional: usize) -> Result<(), AllocError>
        ensures rows { self.new.rows ≡ self.old.rows }
        ensures ok { OnOk result (additional ≤ self.new.spare) }
        ensures spare { self.old.spare ≤ self.new.spare }
    {
        let room = self.ranks.len();
        if additional <= room - self.slots.len() {
            return Ok(());
        }
        let wanted = twice(self.len, additional)?.max(room);
        let ranks = Ranks::of(self.alloc, ones(self.alloc, self.len, wanted)?)?;
        self.slots.reserve(wanted - self.slots.len())?;
        compact(&mut self.slots);
        self.ranks = ranks;
        Ok(())
    }

    pub(crate) fn push(&mut self, row: Row)
        requires { 0 < self.old.spare }
        ensures { self.new ≡ record { rows = self.old.rows ++ row ∷ []; spare = self.old.spare - 1 } }
    {
        let slot = self.slots.len();
        self.slots.push_reserved(Some(row));
        self.ranks.raise(slot);
        self.len += 1;
    }

    /// Takes a row out.
    pub(crate) fn remove(&mut self, n: usize)
        requires { n < length self.old.rows }
        ensures { self.new ≡ record { rows = remove self.old.rows n; spare = self.old.spare } }
    {
        let slot = self.ranks.find(n);
        self.slots[slot] = None;
        self.ranks.lower(slot);
        self.len -= 1;
    }
}

// Takes the slots without a row out.
fn compact(slots: &mut Vec<Option<Row>>)
    ensures items { slots.new.items ≡ filter (λ slot. is_some slot) slots.old.items }
    ensures capacity { vec_capacity slots.new ≡ vec_capacity slots.old }
{
    slots.retain(|slot| slot.is_some());
}

// Twice as many as these and those together.
fn twice(len: usize, additional: usize) -> Result<usize, AllocError>
    ensures { IfOk result (λ n. n ≡ (len + additional) * 2) }
{
    match len.checked_add(additional) {
        None => Err(AllocError),
        Some(sum) => sum.checked_mul(2).ok_or(AllocError),
    }
}

// So many numbers, of which the first are 1 and the others 0.
fn ones(alloc: Global, ones: usize, len: usize) -> Result<Vec<usize>, AllocError>
    requires { ones ≤ len }
    ensures { IfOk result (λ numbers. numbers.items ≡ replicate ones 1 ++ replicate (len - ones) 0) }
{
    let mut numbers = Vec::with_capacity(alloc, len)?;
    numbers.resize(ones, 1)?;
    numbers.resize(len, 0)?;
    Ok(numbers)
}
