// The sets of chunks by id, and their openings in order, by which the oldest set is found: whether the table is full,
// and what is discarded, is told by that one alone. The openings are exact (`IsIndexed`), and contracts see the map of
// the sets.
ghost use Rattle.std.specs.Prelude.{◌≡◌, ◌≤◌, ◌<◌, ◌+◌, ℕ, length, nat_le, cond, true, false, Option, Some, None, is_some, IsSome, IfOk, OnOk, OnErr, IfSome, IsSomeAnd, if◌then◌else◌};
ghost use Rattle.std.specs.Option.{option_copied};
ghost use Rattle.std.specs.Ordering.{nat_cmp, eq_by_cmp};
ghost use Rattle.std.specs.FinMap as map;
ghost use Rattle.std.specs.BTreeMap.{get, IsEmpty, IsUnchanged};
ghost use Rattle.std.specs.BTreeSet.{contains};
ghost use Rattle.gl_chunks.specs.declared.chunk_set.ChunkSet.{ChunkSet};
ghost use Rattle.gl_chunks.specs.declared.sets.Opening.{Opening};
ghost use Rattle.gl_chunks.specs.Chunks.{while_live, opened, live_sets, with_part, Tells};
ghost use Rattle.gl_chunks.specs.Openings.{opening_cmp, is_opened_at, IsIndexed, HasStale, HasRoom};

use crate::chunk_set::ChunkSet;
use gl_base::Items;
use std::alloc::{AllocError, Global};
use std::collections::{BTreeMap, BTreeSet};
use std::marker::Model;

/// How many milliseconds a set is live from its first chunk on, and a message is remembered that has ended.
const LIFE: u64 = 5_000;

/// The most sets that are live at once, and the most that are kept.
pub const MAX_SETS: usize = 1_024;

/// When a set was opened, and its id: the earlier one comes first.
#[derive(Clone, Copy, Debug, Drop, PartialEq, Eq, PartialOrd, Ord)]
struct Opening {
    opened: u64,
    id: u64,
}

/// The sets by id, 1,024 at most, and their openings.
#[derive(Debug, Drop)]
pub struct Sets {
    by_id: BTreeMap<u64, ChunkSet>,
    openings: BTreeSet<Opening>,
}

impl Model for Sets {
    ghost use Rattle.std.specs.Prelude.{◌≤◌, ℕ, length};
    ghost use Rattle.std.specs.BTreeMap as tree;
    ghost use Rattle.gl_chunks.specs.declared.chunk_set.ChunkSet.{ChunkSet};
    ghost use Rattle.gl_chunks.specs.Rows.{sets_row};

    ghost Value = { tree.BTreeMap ℕ ChunkSet };

    ghost coded = { (sets_row).coded };

    ghost use Rattle.gl_chunks.specs.Openings.{IsIndexed};

    ghost view = { λ s. s.by_id };

    ghost invariant = { λ s. IsIndexed s.openings s.by_id × (length s.by_id.entries ≤ 1024) };
}

impl Sets {
    pub fn new(alloc: Global) -> Sets
        ensures { IsEmpty result }
    {
        Sets {
            by_id: BTreeMap::new(alloc),
            openings: BTreeSet::new(alloc),
        }
    }

    pub fn get(&self, id: u64) -> Option<&ChunkSet>
        ensures { option_copied result ≡ get nat_cmp self.now id }
    {
        self.by_id.get(&id)
    }

    /// Whether as many sets are live as can be. Where not, there is room for one more.
    pub fn is_full(&self, now: u64) -> bool
        ensures full { (all : map.FinMap nat_cmp ChunkSet) → Tells opened now (get nat_cmp self.now) (map.get all) → result ≡ nat_le 1024 (map.len (live_sets now all)) }
        ensures room { result ≡ false → HasRoom now self.now }
    {
        if self.by_id.len() < MAX_SETS {
            return false;
        }
        match oldest(&self.openings) {
            Some(opening) => is_live(now, opening.opened),
            None => false,
        }
    }

    /// IsTable a set that is opened now, in the place of one of its id that isn't live. Where 1,024 are kept, the oldest
    /// one isn't live, and goes. For want of memory nothing changes.
    pub fn open(&mut self, now: u64, id: u64, set: ChunkSet) -> Result<(), AllocError>
        requires opened { set.opened ≡ now }
        requires new { while_live opened now (get nat_cmp self.old id) ≡ None }
        requires room { HasRoom now self.old }
        ensures ok { OnOk result (Tells opened now (get nat_cmp self.new) (λ q. cond (eq_by_cmp nat_cmp id q) (Some set) (get nat_cmp self.old q))) }
        ensures err { OnErr result (IsUnchanged self.old self.new) }
    {
        put_in(&mut self.by_id, &mut self.openings, id, set)?;
        discard_oldest(&mut self.by_id, &mut self.openings, now);
        Ok(())
    }

    pub fn put_part(&mut self, id: u64, number: u8, part: Items<u8>)
        requires { IfSome (get nat_cmp self.old id) (λ set. (number < length set.parts) × (set.len + length part ≤ 1048576)) }
        ensures { (set : ChunkSet) → get nat_cmp self.old id ≡ Some set
            → (q : ℕ) → get nat_cmp self.new q ≡ cond (eq_by_cmp nat_cmp id q) (Some (with_part set number part)) (get nat_cmp self.old q) }
    {
        put_part(&mut self.by_id, id, number, part);
    }

    pub fn remove(&mut self, id: u64)
        ensures { (q : ℕ) → get nat_cmp self.new q ≡ cond (eq_by_cmp nat_cmp id q) None (get nat_cmp self.old q) }
    {
        take_out(&mut self.by_id, &mut self.openings, id);
    }

    /// Discards the oldest set, where it isn't live.
    pub fn discard(&mut self, now: u64)
        ensures tells { Tells opened now (get nat_cmp self.new) (get nat_cmp self.old) }
        ensures fewer { HasStale now self.old → length self.new.entries < length self.old.entries }
    {
        discard_oldest(&mut self.by_id, &mut self.openings, now);
    }
}

/// Whether what began at a moment is 5,000 ms old at most.
pub fn is_live(now: u64, since: u64) -> bool
    ensures { result ≡ nat_le now (since + 5000) }
{
    now.saturating_sub(LIFE) <= since
}

fn oldest(openings: &BTreeSet<Opening>) -> Option<Opening>
    ensures kept { IfSome result (λ opening. contains opening_cmp openings.now opening ≡ true) }
    ensures least { (q : Opening) → contains opening_cmp openings.now q ≡ true → IsSomeAnd result (λ opening. opening.opened ≤ q.opened) }
{
    match openings.first() {
        Some(opening) => Some(*opening),
        None => None,
    }
}

fn put_in(
    sets: &mut BTreeMap<u64, ChunkSet>,
    openings: &mut BTreeSet<Opening>,
    id: u64,
    set: ChunkSet,
) -> Result<(), AllocError>
    requires indexed { IsIndexed openings.old sets.old }
    requires new { is_opened_at set.opened (get nat_cmp sets.old id) ≡ false }
    ensures indexed { IsIndexed openings.new sets.new }
    ensures puts { OnOk result ((q : ℕ) → get nat_cmp sets.new q ≡ cond (eq_by_cmp nat_cmp id q) (Some set) (get nat_cmp sets.old q)) }
    ensures len { OnOk result (length sets.new.entries ≡ length sets.old.entries + (if is_some (get nat_cmp sets.old id) then 0 else 1)) }
    ensures err { OnErr result (IsUnchanged sets.old sets.new) }
{
    let opening = Opening {
        opened: set.opened,
        id,
    };
    openings.insert(opening)?;
    match sets.insert(id, set) {
        Ok(None) => Ok(()),
        Ok(Some(replaced)) => {
            let former = Opening {
                opened: replaced.opened,
                id,
            };
            openings.remove(&former);
            Ok(())
        }
        Err(_) => {
            openings.remove(&opening);
            Err(AllocError)
        }
    }
}

fn put_part(sets: &mut BTreeMap<u64, ChunkSet>, id: u64, number: u8, part: Items<u8>)
    requires { IfSome (get nat_cmp sets.old id) (λ set. (number < length set.parts) × (set.len + length part ≤ 1048576)) }
    ensures put { (set : ChunkSet) → get nat_cmp sets.old id ≡ Some set
        → (q : ℕ) → get nat_cmp sets.new q ≡ cond (eq_by_cmp nat_cmp id q) (Some (with_part set number part)) (get nat_cmp sets.old q) }
    ensures none { get nat_cmp sets.old id ≡ None → IsUnchanged sets.old sets.new }
    ensures len { length sets.new.entries ≡ length sets.old.entries }
{
    if let Some(set) = sets.get_mut(&id) {
        set.put(number, part);
    }
}

fn take_out(sets: &mut BTreeMap<u64, ChunkSet>, openings: &mut BTreeSet<Opening>, id: u64)
    requires { IsIndexed openings.old sets.old }
    ensures indexed { IsIndexed openings.new sets.new }
    ensures gone { (q : ℕ) → get nat_cmp sets.new q ≡ cond (eq_by_cmp nat_cmp id q) None (get nat_cmp sets.old q) }
    ensures len { length sets.new.entries + (if is_some (get nat_cmp sets.old id) then 1 else 0) ≡ length sets.old.entries }
{
    if let Some(set) = sets.remove(&id) {
        let opening = Opening {
            opened: set.opened,
            id,
        };
        openings.remove(&opening);
    }
}

fn discard_oldest(sets: &mut BTreeMap<u64, ChunkSet>, openings: &mut BTreeSet<Opening>, now: u64)
    requires { IsIndexed openings.old sets.old }
    ensures indexed { IsIndexed openings.new sets.new }
    ensures tells { Tells opened now (get nat_cmp sets.new) (get nat_cmp sets.old) }
    ensures fewer { HasStale now sets.old → length sets.new.entries < length sets.old.entries }
    ensures bound { length sets.new.entries ≤ length sets.old.entries }
{
    let Some(opening) = oldest(openings) else {
        return;
    };
    if is_live(now, opening.opened) {
        return;
    }
    take_out(sets, openings, opening.id);
}
