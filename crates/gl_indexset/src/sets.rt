// The sets together, and the live rows.
ghost use Rattle.std.specs.Prelude.{◌≡◌, ◌+◌, ◌<◌, ◌≤◌, ◌^◌, ◌-◌, ℕ, List, [], ◌∷◌, ◌==◌, ◌&&◌, not, false, filter, length, Some, slice_get, IfOk, IfSome, MatchOption, OnOk, OnErr};
ghost use Rattle.gl_indexset.specs.declared.row.Row.{Row};
ghost use Rattle.std.specs.List.{All, Contains, flat_map, list_any, position};
ghost use Rattle.std.specs.Str.{bytes_eq};
ghost use Rattle.gl_fields.specs.Fields.{comes_before};
ghost use Rattle.gl_indexset.specs.Kept.{AreKnown, StandsFor, is_known, rules_of, spare_of, without_unused};
ghost use Rattle.gl_indexset.specs.Retention.{is_in, with_rule, live_rows};
ghost use Rattle.gl_indexset.specs.SetKept.{AreRoomier, indexes_kept};
ghost use Rattle.gl_indexset.specs.Leaving.{IsGoneOn, IsNextLeaving, IsStepOfLeaving, has_position};
ghost use Rattle.gl_indexset.specs.Rising.{AreRising};
ghost use Rattle.gl_indexset.specs.Summary.{summary_of};
ghost use Rattle.gl_fields.specs.declared.set_rule.SetRule.{SetRule};

use crate::leaving::next_unheld;
use crate::row::Row;
use crate::set::IndexSet;
use crate::shelf::Shelf;
use crate::steps::Steps;
use crate::sweep::{enter_all, first_from, is_held};
use gl_base::{Items, Text};
use gl_fields::SetRule;
use std::alloc::{AllocError, Global};
use std::marker::Model;
use std::sync::ledger::Ledger;

/// Index sets, and the rows that are live in one of them.
#[derive(Drop)]
pub struct IndexSets {
    alloc: Global,
    sets: Vec<IndexSet>,
    rows: Shelf,
    /// All stored rows are below this position.
    next: u64,
}

impl Model for IndexSets {
    ghost use Rattle.gl_indexset.specs.Kept.{Kept, IsSound};

    ghost Value = { Kept };

    ghost use Rattle.gl_indexset.specs.Inside.{kept_of};

    ghost view = { kept_of };

    ghost invariant = { λ s. IsSound (kept_of s) };
}

impl IndexSets {
    /// No sets, and no rows. It takes no memory.
    pub fn new(alloc: Global) -> IndexSets
        ensures stands { StandsFor result [] }
        ensures rules { rules_of result ≡ [] }
        ensures next { result.next ≡ 0 }
    {
        IndexSets {
            alloc,
            sets: Vec::new(alloc),
            rows: Shelf::new(alloc),
            next: 0,
        }
    }

    /// Adds a set, which has no rows; there is none of its name yet (`has_set`).
    ///
    /// An error changes nothing. There may be no room for rows afterwards.
    pub fn add_set(&mut self, rule: SetRule) -> Result<(), AllocError>
        requires { is_known (rules_of self.old) rule.name ≡ false }
        ensures stands { (all : List Row) → StandsFor self.old all → StandsFor self.new all }
        ensures ok { OnOk result (rules_of self.new ≡ with_rule rule (rules_of self.old)) }
        ensures err { OnErr result (self.new ≡ self.old) }
        ensures rows { self.new.rows ≡ self.old.rows }
        ensures next { self.new.next ≡ self.old.next }
    {
        let after = first_after(self.sets.as_slice(), rule.name.as_str());
        let at = after.unwrap_or(self.sets.len());
        self.sets.insert(at, IndexSet::new(self.alloc, rule))?;
        Ok(())
    }

    /// Takes the set of this name back, in which no row was stored; one that has rows stays.
    ///
    /// It takes no memory.
    pub fn drop_set(&mut self, name: &str)
        ensures stands { (all : List Row) → StandsFor self.old all → StandsFor self.new all }
        ensures rules { (all : List Row) → StandsFor self.old all → rules_of self.new ≡ without_unused name.now all (rules_of self.old) }
        ensures undone { (rule : SetRule) (rules : List SetRule) (all : List Row) → StandsFor self.old all → rules_of self.old ≡ with_rule rule rules
            → rule.name ≡ name.now → is_known rules name.now ≡ false → list_any (is_in rule) all ≡ false → rules_of self.new ≡ rules }
        ensures rows { self.new.rows ≡ self.old.rows }
        ensures next { self.new.next ≡ self.old.next }
        ensures spare { spare_of self.old ≤ spare_of self.new }
    {
        drop_unused(&mut self.sets, name);
    }

    /// Whether there is a set of this name.
    pub fn has_set(&self, name: &str) -> bool
        ensures { result ≡ is_known (rules_of self.now) name.now }
    {
        has_name(self.sets.as_slice(), name)
    }

    /// How many rows are live.
    pub fn live_len(&self) -> u64
        ensures { result ≡ length self.now.rows }
    {
        self.rows.len() as u64
    }

    /// The `n`-th of the live rows, in order of position; the first is 0. It counts one step.
    pub fn row<L: Ledger>(&self, n: u64, steps: &mut Steps<L>) -> &Row
        requires { n < length self.now.rows }
        ensures row { slice_get self.now.rows n ≡ Some result.now }
        ensures steps { steps.new ≡ steps.old + 1 }
    {
        steps.tick();
        self.rows.get(n as usize)
    }

    /// The live row at a position of the journal, and `None` where there is none. It counts one step.
    pub fn row_at<L: Ledger>(&self, position: u64, steps: &mut Steps<L>) -> Option<&Row>
        ensures row { MatchOption result (has_position self.now.rows position ≡ false) (λ row. (row.now.position ≡ position) × Contains self.now.rows row.now) }
        ensures steps { steps.new ≡ steps.old + 1 }
    {
        steps.tick();
        row_at(&self.rows, position)
    }

    /// Each live index with how many rows it has, by the sets' names and then by number. The name of an
    /// index is its set's, `_` and its number: `graylog_0`.
    pub fn summary(&self) -> Result<Items<(Text, u64)>, AllocError>
        ensures { (all : List Row) → StandsFor self.now all → IfOk result (λ found. found ≡ summary_of (rules_of self.now) all) }
    {
        list_all(self.sets.as_slice(), self.alloc)
    }

    /// The least `n` at or above `from` whose live row leaves when this row is stored, and `None` where
    /// there is none. It changes nothing, and takes no memory.
    pub fn next_leaving(&self, row: &Row, from: u64) -> Option<u64>
        requires { self.now.next ≤ row.now.position }
        ensures within { IfSome result (λ n. n < length self.now.rows) }
        ensures leaving { (all : List Row) → StandsFor self.now all
            → IsNextLeaving (live_rows (rules_of self.now) all) (live_rows (rules_of self.now) (row.now ∷ all)) from result }
        ensures steps { (all : List Row) → StandsFor self.now all
            → IsStepOfLeaving (live_rows (rules_of self.now) (row.now ∷ all)) self.now.rows from result }
    {
        next_unheld(&self.rows, self.sets.as_slice(), row, from)
    }

    /// Law: what is live once a row is stored is what stays of the live rows, in their order, and behind
    /// them the new row, where it goes into a set that keeps indexes.
    pub fn law_rows_come_and_leave(&self, row: &Row)
        requires { self.now.next ≤ row.now.position }
        ensures { (all : List Row) → StandsFor self.now all
            → IsGoneOn (rules_of self.now) row.now (live_rows (rules_of self.now) all) (live_rows (rules_of self.now) (row.now ∷ all)) }
    {
        let _next = self.next;
    }

    /// Makes room to store so many rows. An error changes nothing but the room.
    pub fn reserve(&mut self, rows: &[Row]) -> Result<(), AllocError>
        ensures ok { OnOk result (length rows.now ≤ spare_of self.new) }
        ensures stands { (all : List Row) → StandsFor self.old all → StandsFor self.new all }
        ensures rules { rules_of self.new ≡ rules_of self.old }
        ensures rows { self.new.rows ≡ self.old.rows }
        ensures next { self.new.next ≡ self.old.next }
        ensures spare { spare_of self.old ≤ spare_of self.new }
    {
        make_room(&mut self.sets, rows.len())?;
        self.rows.reserve(rows.len())?;
        Ok(())
    }

    /// Stores a row: once in each set that it names. What is live in no set any more leaves.
    ///
    /// It takes no memory.
    pub fn store(&mut self, row: Row)
        requires spare { 1 ≤ spare_of self.old }
        requires known { AreKnown (rules_of self.old) row.sets }
        requires above { self.old.next ≤ row.position }
        requires counted { row.position < 2 ^ 64 - 1 }
        ensures stands { (all : List Row) → StandsFor self.old all → StandsFor self.new (row ∷ all) }
        ensures rules { rules_of self.new ≡ rules_of self.old }
        ensures next { self.new.next ≡ row.position + 1 }
        ensures spare { spare_of self.old ≤ spare_of self.new + 1 }
        ensures rows { (all : List Row) → StandsFor self.old all → IsGoneOn (rules_of self.old) row self.old.rows self.new.rows }
    {
        self.next = row.position + 1;
        enter_all(&mut self.sets, &mut self.rows, &row);
        if is_held(self.sets.as_slice(), &row) {
            self.rows.push(row);
        }
    }
}

// The live indexes of all these sets.
fn list_all(sets: &[IndexSet], alloc: Global) -> Result<Items<(Text, u64)>, AllocError>
    requires { All (λ set. length set.closed ≤ set.number) sets.now }
    ensures { IfOk result (λ found. found ≡ flat_map indexes_kept sets.now) }
{
    let mut found = Items::new(alloc);
    for set in sets {
        set.list(alloc, &mut found)?;
    }
    Ok(found)
}

// Takes the sets of this name out that have no rows.
fn drop_unused(sets: &mut Vec<IndexSet>, name: &str)
    ensures { sets.new.items ≡ filter (λ set. not (bytes_eq name.now set.rule.name && set.newest.rows == 0)) sets.old.items }
{
    sets.retain(|set| !set.is_unused(name));
}

// The row at a position.
fn row_at(rows: &Shelf, position: u64) -> Option<&Row>
    requires { AreRising rows.now.rows }
    ensures { MatchOption result (has_position rows.now.rows position ≡ false) (λ row. (row.now.position ≡ position) × Contains rows.now.rows row.now) }
{
    let n = first_from(rows, position);
    if n == rows.len() {
        return None;
    }
    let row = rows.get(n);
    if row.position == position {
        Some(row)
    } else {
        None
    }
}

// Whether one of these sets has this name.
fn has_name(sets: &[IndexSet], name: &str) -> bool
    ensures { result ≡ list_any (λ set. bytes_eq name.now set.rule.name) sets.now }
{
    sets.iter().any(|set| set.has_name(name))
}

// The index of the first set whose name comes after this one.
fn first_after(sets: &[IndexSet], name: &str) -> Option<usize>
    ensures { result ≡ position (λ set. comes_before name.now set.rule.name) sets.now }
{
    sets.iter().position(|set| set.comes_after(name))
}

// Makes room for so many indexes more in each set.
fn make_room(sets: &mut Vec<IndexSet>, additional: usize) -> Result<(), AllocError>
    ensures roomier { AreRoomier sets.old.items sets.new.items }
    ensures ok { OnOk result (All (λ set. additional ≤ set.spare) sets.new.items) }
{
    for at in 0..sets.len() {
        sets[at].reserve(additional)?;
    }
    Ok(())
}
