// Index sets and the words of their live rows.
ghost use Rattle.std.specs.Prelude.{◌≡◌, ℕ, ◌+◌, ◌<◌, ◌≤◌, [], false, List, IfOk, OnOk, OnErr};
ghost use Rattle.std.specs.List.{All, list_any};
ghost use Rattle.gl_fields.specs.declared.set_rule.SetRule.{SetRule};
ghost use Rattle.gl_indexset.specs.declared.row.Row.{Row};
ghost use Rattle.gl_indexset.specs.Kept.{is_known};
ghost use Rattle.gl_indexset.specs.Retention.{is_in, live_rows, with_rule};
ghost use Rattle.gl_indexset.specs.Summary.{summary_of};
ghost use Rattle.gl_query.specs.Tree.{Tree, polish};
ghost use Rattle.gl_postings.specs.Bound.{most_steps};
ghost use Rattle.gl_postings.specs.Found.{page_of};
ghost use Rattle.gl_postings.specs.Indexed.{IndexStands, IsPrepared, MayFollow, next_in, rules_in, stored};

use crate::postings::Postings;
use crate::search::search_rows;
use crate::settling::{add_words, forget_words, settle_all};
use gl_base::{Items, Text};
use gl_fields::SetRule;
use gl_indexset::{IndexSets, Row, Steps};
use gl_pages::{Ask, Page};
use std::alloc::{AllocError, Global};
use std::sync::ledger::Ledger;

/// Index sets, and the words of the rows that are live in them.
#[derive(Drop)]
pub struct Indexed {
    alloc: Global,
    sets: IndexSets,
    words: Postings,
}

impl Indexed {
    /// No sets and no rows. It takes no memory.
    pub fn new(alloc: Global) -> Indexed
        ensures stands { IndexStands result [] [] }
        ensures next { next_in result ≡ 0 }
    {
        Indexed {
            alloc,
            sets: IndexSets::new(alloc),
            words: Postings::new(alloc),
        }
    }

    /// Adds a set that keeps an index at least, and of whose name there is none yet (`has_set`). An error changes nothing.
    pub fn add_set(&mut self, rule: SetRule) -> Result<(), AllocError>
        requires name { is_known (rules_in self.old) rule.name ≡ false }
        requires keep { 0 < rule.keep }
        ensures ok { (rules : List SetRule) (all : List Row) → IndexStands self.old rules all → OnOk result (IndexStands self.new (with_rule rule rules) all) }
        ensures err { OnErr result (self.new ≡ self.old) }
        ensures next { next_in self.new ≡ next_in self.old }
    {
        self.sets.add_set(rule)?;
        Ok(())
    }

    /// Takes the set of this name back, in which no row was stored; one that has rows stays. It takes no memory.
    pub fn drop_set(&mut self, name: &str)
        ensures undone { (rules : List SetRule) (all : List Row) (rule : SetRule) → rule.name ≡ name.now → is_known rules name.now ≡ false
            → list_any (is_in rule) all ≡ false → IndexStands self.old (with_rule rule rules) all → IndexStands self.new rules all }
        ensures next { next_in self.new ≡ next_in self.old }
    {
        self.sets.drop_set(name);
    }

    /// Whether there is a set of this name.
    pub fn has_set(&self, name: &str) -> bool
        ensures { result ≡ is_known (rules_in self.now) name.now }
    {
        self.sets.has_set(name)
    }

    /// Makes everything ready to store these rows in this order, so that nothing can fail behind it. An error leaves the
    /// rows and words as they were.
    pub fn prepare(&mut self, more: &[Row]) -> Result<(), AllocError>
        requires { MayFollow self.old more.now }
        ensures ok { (rules : List SetRule) (all : List Row) → IndexStands self.old rules all → OnOk result (IsPrepared self.new rules all more.now) }
        ensures err { (rules : List SetRule) (all : List Row) → IndexStands self.old rules all → OnErr result (IndexStands self.new rules all) }
        ensures next { next_in self.new ≡ next_in self.old }
    {
        self.sets.reserve(more)?;
        add_words(&mut self.words, more)
    }

    /// Gives up what was made ready. It takes no memory.
    pub fn give_up(&mut self, more: &[Row])
        ensures stands { (rules : List SetRule) (all : List Row) → IsPrepared self.old rules all more.now → IndexStands self.new rules all }
        ensures next { next_in self.new ≡ next_in self.old }
    {
        forget_words(&mut self.words, more);
    }

    /// Stores the rows that were made ready, one after another, and lets the rows go that are live in no set any more. It
    /// takes no memory.
    pub fn settle(&mut self, more: Items<Row>)
        requires { (rules : List SetRule) × (all : List Row) × IsPrepared self.old rules all more }
        ensures stands { (rules : List SetRule) (all : List Row) → IsPrepared self.old rules all more → IndexStands self.new rules (stored more all) }
        ensures next { (limit : ℕ) → next_in self.old ≤ limit → All (λ (row : Row). row.position < limit) more → next_in self.new ≤ limit }
    {
        settle_all(&mut self.sets, &mut self.words, more);
    }

    /// Searches the live rows. How many it looks up is bounded as in `search_rows`.
    pub fn search<L: Ledger>(&self, ask: &Ask, steps: &mut Steps<L>) -> Result<Page, AllocError>
        requires { (rules : List SetRule) × (all : List Row) × IndexStands self.now rules all }
        ensures page { (rules : List SetRule) (all : List Row) (t : Tree) → IndexStands self.now rules all → ask.now.query ≡ polish t
            → IfOk result (λ page. page ≡ page_of ask.now t (live_rows rules all)) }
        ensures bound { (rules : List SetRule) (all : List Row) (t : Tree) → IndexStands self.now rules all → ask.now.query ≡ polish t
            → steps.new ≤ steps.old + most_steps ask.now t (live_rows rules all) }
    {
        search_rows(self.alloc, &self.sets, &self.words, ask, steps)
    }

    /// Each live index with how many rows it has, by the sets' names and then by number. The name of an
    /// index is its set's, `_` and its number: `graylog_0`.
    pub fn summary(&self) -> Result<Items<(Text, u64)>, AllocError>
        ensures { (rules : List SetRule) (all : List Row) → IndexStands self.now rules all → IfOk result (λ found. found ≡ summary_of rules all) }
    {
        self.sets.summary()
    }
}
