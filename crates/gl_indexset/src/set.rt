// One index set: which positions its live indexes begin at.
ghost use Rattle.std.specs.Prelude.{◌≡◌, ◌==◌, ◌&&◌, ◌||◌, not, ◌+◌, ◌-◌, ◌^◌, ◌<◌, ◌≤◌, ℕ, [], ◌∷◌, ◌++◌, if◌then◌else◌, length, nat_le, IfOk, IsOk, OnOk, OnErr, Some, None};
ghost use Rattle.std.specs.List.{list_any};
ghost use Rattle.std.specs.Str.{bytes_eq};
ghost use Rattle.gl_fields.specs.Fields.{comes_before};
ghost use Rattle.gl_indexset.specs.Retention.{is_in};
ghost use Rattle.gl_indexset.specs.SetKept.{SetKept, begun, is_index_full, is_old, stored, rotated, goes, oldest_of, is_held_by, first_lost, indexes_kept};
ghost use Rattle.gl_indexset.specs.Summary.{index_name};

use crate::row::Row;
use gl_base::{Items, Text};
use gl_fields::SetRule;
use std::alloc::{AllocError, Global};
use std::cmp::Ordering;
use std::collections::VecDeque;
use std::marker::Model;

/// An index: its first row, and how many it has.
#[derive(Clone, Copy)]
pub(crate) struct Index {
    pub(crate) first: u64,
    pub(crate) moment: u64,
    pub(crate) rows: u64,
}

#[derive(Drop)]
pub(crate) struct IndexSet {
    rule: SetRule,
    /// The number of the newest index.
    number: u64,
    /// It has no rows until the first one is stored.
    newest: Index,
    /// The other live indexes, the oldest first.
    closed: VecDeque<Index>,
}

impl Model for IndexSet {
    ghost use Rattle.gl_indexset.specs.SetKept.{SetKept};

    ghost Value = { SetKept };

    ghost use Rattle.gl_indexset.specs.Inside.{set_kept};

    ghost view = { set_kept };
}

impl IndexSet {
    pub(crate) fn new(alloc: Global, rule: SetRule) -> IndexSet
        ensures rule { result.rule ≡ rule }
        ensures number { result.number ≡ 0 }
        ensures newest { result.newest ≡ record { first = 0; moment = 0; rows = 0 } }
        ensures closed { result.closed ≡ [] }
    {
        IndexSet {
            rule,
            number: 0,
            newest: Index {
                first: 0,
                moment: 0,
                rows: 0,
            },
            closed: VecDeque::new(alloc),
        }
    }

    /// Whether a name comes before that of this set.
    pub(crate) fn comes_after(&self, name: &str) -> bool
        ensures { result ≡ comes_before name.now self.now.rule.name }
    {
        is_before(name, self.rule.name.as_str())
    }

    /// Whether the set has this name.
    pub(crate) fn has_name(&self, name: &str) -> bool
        ensures { result ≡ bytes_eq name.now self.now.rule.name }
    {
        name == self.rule.name.as_str()
    }

    /// Whether the set has this name and no row was stored in it.
    pub(crate) fn is_unused(&self, name: &str) -> bool
        ensures { result ≡ (bytes_eq name.now self.now.rule.name && self.now.newest.rows == 0) }
    {
        self.has_name(name) && self.newest.rows == 0
    }

    /// Whether a row goes into this set.
    pub(crate) fn takes(&self, row: &Row) -> bool
        ensures { result ≡ is_in self.now.rule row.now }
    {
        is_named(row.sets.get().as_slice(), self.rule.name.as_str())
    }

    /// The position of the first live row.
    pub(crate) fn oldest(&self) -> Option<u64>
        ensures { result ≡ oldest_of self.now }
    {
        if let Some(index) = self.closed.front() {
            return Some(index.first);
        }
        if self.newest.rows == 0 || self.rule.keep == 0 {
            return None;
        }
        Some(self.newest.first)
    }

    /// Whether a row that was stored is live in this set.
    pub(crate) fn holds(&self, row: &Row) -> bool
        ensures { result ≡ is_held_by row.now self.now }
    {
        if !self.takes(row) {
            return false;
        }
        match self.oldest() {
            None => false,
            Some(first) => first <= row.position,
        }
    }

    /// The position of the first live row once this row is stored.
    pub(crate) fn oldest_after(&self, row: &Row) -> Option<u64>
        ensures { result ≡ oldest_of (goes row.now self.now) }
    {
        if self.takes(row) {
            self.oldest_with(row.position, row.moment)
        } else {
            self.oldest()
        }
    }

    // The position of the first live row once one of this position and moment is in the set.
    fn oldest_with(&self, position: u64, moment: u64) -> Option<u64>
        ensures { result ≡ oldest_of (stored position moment self.now) }
    {
        if self.newest.rows == 0 {
            return match self.closed.front() {
                Some(index) => Some(index.first),
                None => self.kept_first(position),
            };
        }
        if !self.is_full(moment) || self.closed.len() as u64 + 1 < self.rule.keep {
            return self.oldest();
        }
        if let Some(index) = self.closed.get(1) {
            return Some(index.first);
        }
        if self.closed.is_empty() {
            self.kept_first(position)
        } else {
            Some(self.newest.first)
        }
    }

    // A row that is the first of its set is live where any is kept.
    fn kept_first(&self, position: u64) -> Option<u64>
        ensures { result ≡ (if self.now.rule.keep == 0 then None else Some position) }
    {
        if self.rule.keep == 0 {
            None
        } else {
            Some(position)
        }
    }

    /// Whether a row that was stored is live in this set once another is stored.
    pub(crate) fn holds_after(&self, row: &Row, other: &Row) -> bool
        ensures { result ≡ is_held_by other.now (goes row.now self.now) }
    {
        if !self.takes(other) {
            return false;
        }
        match self.oldest_after(row) {
            None => false,
            Some(first) => first <= other.position,
        }
    }

    /// The first position at or above this one of a row that leaves the set when another row is
    /// stored; `u64::MAX` where none does.
    pub(crate) fn first_lost(&self, row: &Row, position: u64) -> u64
        ensures { result ≡ first_lost (oldest_of self.now) (oldest_of (goes row.now self.now)) position (2 ^ 64 - 1) }
    {
        let Some(before) = self.oldest() else {
            return u64::MAX;
        };
        let first = before.max(position);
        match self.oldest_after(row) {
            Some(after) if first >= after => u64::MAX,
            _ => first,
        }
    }

    /// Appends the live indexes with their names and rows, by number.
    pub(crate) fn list(
        &self,
        alloc: Global,
        found: &mut Items<(Text, u64)>,
    ) -> Result<(), AllocError>
        requires { length self.now.closed ≤ self.now.number }
        ensures { OnOk result (found.new ≡ found.old ++ indexes_kept self.now) }
    {
        if self.rule.keep == 0 {
            return Ok(());
        }
        let name = self.rule.name.as_str();
        let first = self.number - self.closed.len() as u64;
        for at in 0..self.closed.len() {
            let closed = index_name(alloc, name, first + at as u64)?;
            found.push((closed, self.closed[at].rows))?;
        }
        let newest = index_name(alloc, name, self.number)?;
        found.push((newest, self.newest.rows))?;
        Ok(())
    }

    /// Makes room for so many indexes more.
    pub(crate) fn reserve(&mut self, additional: usize) -> Result<(), AllocError>
        ensures ok { OnOk result (additional ≤ self.new.spare) }
        ensures same { self.new ≡ record self.old { spare = self.new.spare } }
        ensures spare { self.old.spare ≤ self.new.spare }
    {
        self.closed.reserve(additional)
    }

    // Whether a row of this moment begins a new index.
    fn is_full(&self, moment: u64) -> bool
        ensures { result ≡ is_index_full self.now.rule self.now.newest moment }
    {
        has_rows(self.newest.rows, self.rule.max_docs)
            || is_old(self.newest.moment, self.rule.max_ms, moment)
    }

    // Begins a new index, and drops the oldest where more would be kept than the rule says.
    fn rotate(&mut self, index: Index)
        requires spare { 0 < self.old.spare }
        requires number { self.old.number < 2 ^ 64 - 1 }
        ensures { self.new ≡ rotated index self.old }
    {
        self.closed.push_back_reserved(self.newest);
        if self.closed.len() as u64 >= self.rule.keep {
            let _ = self.closed.pop_front();
        }
        self.number += 1;
        self.newest = index;
    }

    /// Puts a row into the newest index, or into a new one.
    pub(crate) fn store(&mut self, position: u64, moment: u64)
        requires spare { 0 < self.old.spare }
        requires above { self.old.newest.first + self.old.newest.rows ≤ position }
        requires number { self.old.number ≤ self.old.newest.first }
        requires counted { position < 2 ^ 64 - 1 }
        ensures { self.new ≡ stored position moment self.old }
    {
        let index = Index {
            first: position,
            moment,
            rows: 1,
        };
        if self.newest.rows == 0 {
            self.newest = index;
        } else if self.is_full(moment) {
            self.rotate(index);
        } else {
            self.newest.rows += 1;
        }
    }
}

// The name of an index: its set's, `_` and its number.
fn index_name(alloc: Global, name: &str, number: u64) -> Result<Text, AllocError>
    ensures { IfOk result (λ text. text ≡ index_name name.now number) }
{
    Ok(Text::from_string(format!(in alloc; "{name}_{number}")?))
}

fn is_named(names: &[Text], name: &str) -> bool
    ensures { result ≡ list_any (λ other. bytes_eq other name.now) names.now }
{
    names.iter().any(|other| other.as_str() == name)
}

fn is_before(name: &str, other: &str) -> bool
    ensures { result ≡ comes_before name.now other.now }
{
    match name.cmp(other) {
        Ordering::Less => true,
        Ordering::Equal => false,
        Ordering::Greater => false,
    }
}

fn has_rows(rows: u64, max_docs: u64) -> bool
    ensures { result ≡ (not (max_docs == 0) && nat_le max_docs rows) }
{
    max_docs != 0 && rows >= max_docs
}

fn is_old(first: u64, max_ms: u64, moment: u64) -> bool
    ensures { result ≡ is_old first max_ms moment }
{
    max_ms != 0 && moment >= first && moment - first >= max_ms
}
