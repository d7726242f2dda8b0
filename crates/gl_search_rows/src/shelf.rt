// Index sets with the words of their rows, as rows of tests fill them.
ghost use Rattle.std.specs.Prelude.{◌≡◌, ◌+◌, ◌-◌, ◌<◌, ◌≤◌, ◌^◌, List, true, IfOk, OnOk};
ghost use Rattle.gl_fields.specs.declared.set_rule.SetRule.{SetRule};
ghost use Rattle.gl_indexset.specs.declared.row.Row.{Row};
ghost use Rattle.gl_indexset.specs.Kept.{AreKnown, is_known};
ghost use Rattle.gl_postings.specs.Indexed.{IndexStands, next_in, rules_in};

use gl_base::{Items, Joint, Text};
use gl_fields::{FieldMap, SetRule};
use gl_indexset::{Row, Steps};
use gl_postings::{Ask, Indexed, Page};
use std::alloc::{AllocError, Global};
use std::marker::{Brand, Model};
use std::sync::ledger::{Blank, Ledger};

/// Index sets and the words of their rows, with the position of the next row.
#[derive(Drop)]
pub struct Shelf {
    alloc: Global,
    index: Indexed,
    next: u64,
}

impl Model for Shelf {
    ghost use Rattle.std.specs.Prelude.{◌≤◌, ℕ, List};
    ghost use Rattle.gl_fields.specs.declared.set_rule.SetRule.{SetRule};
    ghost use Rattle.gl_indexset.specs.declared.row.Row.{Row};
    ghost use Rattle.gl_postings.specs.Indexed.{IndexStands, next_in};

    ghost Value = { ℕ };

    ghost view = { λ s. s.next };

    ghost invariant = { λ s. (rules : List SetRule) × (all : List Row) × IndexStands s.index rules all × (next_in s.index ≤ s.next) };
}

impl Shelf {
    pub fn new(alloc: Global) -> Shelf {
        Shelf {
            alloc,
            index: Indexed::new(alloc),
            next: 0,
        }
    }

    /// Adds a set; answers whether there was none of its name and it keeps an index.
    pub fn add_set(&mut self, rule: SetRule) -> Result<bool, AllocError> {
        if rule.keep == 0 || self.index.has_set(rule.name.as_str()) {
            return Ok(false);
        }
        self.index.add_set(rule)?;
        Ok(true)
    }

    /// Stores a row at the next position, in those of these sets that are there; their names stand between commas.
    pub fn store(
        &mut self,
        moment: u64,
        sets: &str,
        streams: Items<u64>,
        fields: FieldMap,
    ) -> Result<(), AllocError> {
        let position = self.next;
        if position >= 1_000_000_000_000 {
            return Ok(());
        }
        let row = Row {
            position,
            moment,
            streams: Joint::new(self.alloc, streams)?,
            sets: Joint::new(self.alloc, names(self.alloc, &self.index, sets)?)?,
            fields: Joint::new(self.alloc, fields)?,
        };
        self.next = position + 1;
        put(&mut self.index, self.alloc, row)
    }

    /// Searches the live rows.
    pub fn search(&self, ask: &Ask) -> Result<Page, AllocError> {
        searched::<Brand>(&self.index, ask, Blank::new(1))
    }

    /// Each live index with how many rows it has.
    pub fn summary(&self) -> Result<Items<(Text, u64)>, AllocError> {
        self.index.summary()
    }
}

fn searched<L: Ledger>(index: &Indexed, ask: &Ask, blank: Blank) -> Result<Page, AllocError>
    requires name { blank.name ≡ L.name }
    requires parts { blank.parts ≡ L.parts }
    requires some { 0 < L.parts }
    requires stands { (rules : List SetRule) × (all : List Row) × IndexStands index.now rules all }
{
    let mut steps = Steps::<L>::new(blank);
    index.search(ask, &mut steps)
}

// Puts the name of a set that is there to others.
fn push_known(found: &mut Items<Text>, name: Text, index: &Indexed) -> Result<(), AllocError>
    requires known { is_known (rules_in index.now) name ≡ true }
    requires others { AreKnown (rules_in index.now) found.old }
    ensures { OnOk result (AreKnown (rules_in index.now) found.new) }
{
    found.push(name)
}

// The names of those of these sets that are there.
fn names(alloc: Global, index: &Indexed, names: &str) -> Result<Items<Text>, AllocError>
    ensures { IfOk result (λ found. AreKnown (rules_in index.now) found) }
{
    let mut found = Items::new(alloc);
    for name in names.split(',') {
        if index.has_set(name) {
            push_known(&mut found, Text::from_str(alloc, name)?, index)?;
        }
    }
    Ok(found)
}

fn put(index: &mut Indexed, alloc: Global, row: Row) -> Result<(), AllocError>
    requires stands { (rules : List SetRule) × (all : List Row) × IndexStands index.old rules all }
    requires above { next_in index.old ≤ row.position }
    requires counted { row.position < 2 ^ 64 - 1 }
    requires known { AreKnown (rules_in index.old) row.sets }
    ensures stands { (rules : List SetRule) × (all : List Row) × IndexStands index.new rules all }
    ensures next { next_in index.new ≤ row.position + 1 }
{
    let mut rows = Items::with_capacity(alloc, 1)?;
    rows.push(row)?;
    index.prepare(rows.as_slice())?;
    index.settle(rows);
    Ok(())
}
