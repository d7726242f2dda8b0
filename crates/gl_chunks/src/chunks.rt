// The chunks of messages (GELF by UDP), which are put together. What is kept tells what stands behind all datagrams so far
// (`IsTable`); what isn't live may be gone from it, so that discarding changes no answer.
ghost use Rattle.std.specs.Prelude.{◌≡◌, ◌≤◌, ◌<◌, ◌+◌, ◌++◌, [], ◌∷◌, ℕ, List, length, drop, nat_le, nat_lt, cond, Option, Some, None, is_some, IfOk, OnOk, OnErr, IfSome, IfNone, if◌then◌else◌};
ghost use Rattle.std.specs.Option.{option_copied};
ghost use Rattle.std.specs.Ordering.{nat_cmp, eq_by_cmp};
ghost use Rattle.std.specs.BTreeMap.{get, IsUnchanged};
ghost use Rattle.gl_chunks.specs.declared.chunk_set.ChunkSet.{ChunkSet};
ghost use Rattle.gl_chunks.specs.Chunks.{chunk_head, begins_as_chunk, while_live, opened, at_itself, with_part, beside, with_end, joined, chunk_turn, turn_by, Standing, Tells, IsTable, StandsFor, chunk_answer};
ghost use Rattle.gl_chunks.specs.declared.chunks.Chunked.TheVariants as answers;
ghost use Rattle.gl_chunks.specs.Growing.{grown_turn, Fits};
ghost use Rattle.gl_chunks.specs.Openings.{HasRoom};

use crate::chunk::chunk_head;
use crate::chunk_set::{ChunkSet, message_with};
use crate::sets::{MAX_SETS, Sets, is_live};
use gl_base::Items;
use std::alloc::{AllocError, Global};
use std::collections::BTreeMap;

/// The most bytes of data in a set.
const MAX_DATA: usize = 1_048_576;

/// The last millisecond of the year 9999; a later moment counts as this one.
const MAX_MOMENT: u64 = 253_402_300_799_999;

/// What became of a datagram.
#[derive(Debug, Drop)]
pub enum Chunked {
    /// The datagram is no chunk, and a payload by itself.
    Plain,
    /// The chunk is the last one that its message lacked. These are the data, in the order of the chunks' numbers.
    Whole(Items<u8>),
    /// The chunk is kept, and its message lacks others.
    Held,
    /// The chunk is there already, and the first data stay; or its message ended 5,000 ms ago at most.
    Repeat,
    /// The bytes begin as a chunk does, and are no lawful one: `chunk_head` gives none.
    BadChunk,
    /// The live set of the id has another count.
    CountMismatch { kept: u8, given: u8 },
    /// The chunk would open a set, and 1,024 are live.
    ChunkTableFull,
    /// The data would pass 1,048,576 bytes: the message has ended, and its set is given up.
    TooLong,
}

/// What a chunk makes of a set that it joins.
#[derive(Debug, Drop)]
enum Grown {
    TooLong,
    Whole(Items<u8>),
    Lacks(Items<u8>),
}

/// The chunks of one input's messages. From its first chunk on a set is live for 5,000 ms, and a message that
/// ended, whole or too long, is remembered for as long.
#[derive(Debug, Drop)]
pub struct Chunks {
    alloc: Global,
    /// The greatest moment that was given.
    now: u64,
    sets: Sets,
    /// When each message ended.
    ended: BTreeMap<u64, u64>,
    /// At how many ended messages the old ones are discarded.
    room: usize,
}

impl Chunks {
    /// A table that was given nothing.
    pub fn new(alloc: Global) -> Chunks
        ensures { StandsFor result [] }
    {
        Chunks {
            alloc,
            now: 0,
            sets: Sets::new(alloc),
            ended: BTreeMap::new(alloc),
            room: MAX_SETS,
        }
    }

    /// Takes a datagram that came at this moment, in milliseconds. A moment below an earlier one counts as that one, and
    /// one above 253,402,300,799,999, the end of the year 9999, as that number. The answer is the one that all datagrams
    /// so far give, whatever was discarded meanwhile. For want of memory nothing changes.
    pub fn datagram(&mut self, moment: u64, bytes: &[u8]) -> Result<Chunked, AllocError>
        ensures answer { IfOk result (λ answer. (list : List (ℕ × List ℕ)) → StandsFor self.old list
            → (answer ≡ chunk_answer list moment bytes.now) × StandsFor self.new (list ++ (moment, bytes.now) ∷ [])) }
        ensures refused { OnErr result ((list : List (ℕ × List ℕ)) → StandsFor self.old list → StandsFor self.new list) }
    {
        let now = self.now.max(moment.min(MAX_MOMENT));
        let answer = self.answer(now, bytes)?;
        self.now = now;
        self.discard(now);
        Ok(answer)
    }

    /// The answer at a moment. For want of memory nothing changes.
    fn answer(&mut self, now: u64, bytes: &[u8]) -> Result<Chunked, AllocError>
        ensures ok { IfOk result (λ answer. (s : Standing) → IsTable now self.old.sets self.old.ended s
            → (answer ≡ (turn_by s bytes.now (chunk_head bytes.now)).0) × IsTable now self.new.sets self.new.ended (turn_by s bytes.now (chunk_head bytes.now)).1) }
        ensures err { OnErr result (IsUnchanged self.old.sets self.new.sets × IsUnchanged self.old.ended self.new.ended) }
        ensures now { self.new.now ≡ self.old.now }
    {
        match chunk_head(bytes) {
            Some((id, number, count)) => {
                let (_, part) = bytes.split_at(12);
                self.chunk(now, id, number, count, part)
            }
            None => Ok(no_chunk(bytes)),
        }
    }

    fn chunk(
        &mut self,
        now: u64,
        id: u64,
        number: u8,
        count: u8,
        part: &[u8],
    ) -> Result<Chunked, AllocError>
        requires { number < count }
        ensures ok { IfOk result (λ answer. (s : Standing) → IsTable now self.old.sets self.old.ended s
            → (answer ≡ (chunk_turn s id number count part.now).0) × IsTable now self.new.sets self.new.ended (chunk_turn s id number count part.now).1) }
        ensures err { OnErr result (IsUnchanged self.old.sets self.new.sets × IsUnchanged self.old.ended self.new.ended) }
        ensures now { self.new.now ≡ self.old.now }
    {
        if has_ended(&self.ended, now, id) {
            return Ok(Chunked::Repeat);
        }
        match live_set(&self.sets, now, id) {
            Some(set) => {
                if let Some(answer) = beside(set, number, count) {
                    return Ok(answer);
                }
                let grown = grow(self.alloc, set, number, part)?;
                self.add(now, id, number, grown)
            }
            None => {
                if self.sets.is_full(now) {
                    return Ok(Chunked::ChunkTableFull);
                }
                let set = ChunkSet::new(self.alloc, now, count)?;
                let grown = grow(self.alloc, &set, number, part)?;
                self.open(now, id, number, set, grown)
            }
        }
    }

    /// Takes what a chunk made of the set of its id.
    fn add(&mut self, now: u64, id: u64, number: u8, grown: Grown) -> Result<Chunked, AllocError>
        requires { IfSome (get nat_cmp self.old.sets id) (λ set. (number < length set.parts) × Fits set grown) }
        ensures ok { IfOk result (λ answer. (s : Standing) (set : ChunkSet) → IsTable now self.old.sets self.old.ended s → get nat_cmp self.old.sets id ≡ Some set
            → (answer ≡ (grown_turn s id set number grown).0) × IsTable now self.new.sets self.new.ended (grown_turn s id set number grown).1) }
        ensures err { OnErr result (IsUnchanged self.old.sets self.new.sets × IsUnchanged self.old.ended self.new.ended) }
        ensures now { self.new.now ≡ self.old.now }
    {
        match grown {
            Grown::TooLong => {
                self.end(now, id)?;
                Ok(Chunked::TooLong)
            }
            Grown::Whole(bytes) => {
                self.end(now, id)?;
                Ok(Chunked::Whole(bytes))
            }
            Grown::Lacks(part) => {
                self.sets.put_part(id, number, part);
                Ok(Chunked::Held)
            }
        }
    }

    /// Takes what a chunk made of a new set.
    fn open(
        &mut self,
        now: u64,
        id: u64,
        number: u8,
        set: ChunkSet,
        grown: Grown,
    ) -> Result<Chunked, AllocError>
        requires number { number < length set.parts }
        requires fits { Fits set grown }
        requires opened { set.opened ≡ now }
        requires new { while_live opened now (get nat_cmp self.old.sets id) ≡ None }
        requires room { HasRoom now self.old.sets }
        ensures ok { IfOk result (λ answer. (s : Standing) → IsTable now self.old.sets self.old.ended s
            → (answer ≡ (grown_turn s id set number grown).0) × IsTable now self.new.sets self.new.ended (grown_turn s id set number grown).1) }
        ensures err { OnErr result (IsUnchanged self.old.sets self.new.sets × IsUnchanged self.old.ended self.new.ended) }
        ensures now { self.new.now ≡ self.old.now }
    {
        match grown {
            Grown::TooLong => {
                self.end(now, id)?;
                Ok(Chunked::TooLong)
            }
            Grown::Whole(bytes) => {
                self.end(now, id)?;
                Ok(Chunked::Whole(bytes))
            }
            Grown::Lacks(part) => {
                let mut set = set;
                set.put(number, part);
                self.sets.open(now, id, set)?;
                Ok(Chunked::Held)
            }
        }
    }

    /// A message has ended.
    fn end(&mut self, now: u64, id: u64) -> Result<(), AllocError>
        ensures ok { OnOk result ((s : Standing) → IsTable now self.old.sets self.old.ended s → IsTable now self.new.sets self.new.ended (with_end s id)) }
        ensures err { OnErr result (IsUnchanged self.old.sets self.new.sets × IsUnchanged self.old.ended self.new.ended) }
        ensures now { self.new.now ≡ self.old.now }
    {
        self.ended.insert(id, now)?;
        self.sets.remove(id);
        Ok(())
    }

    /// Discards the oldest set, where it isn't live (a datagram opens one at most), and the ended messages that are old,
    /// once they are as many as others.
    fn discard(&mut self, now: u64)
        ensures kept { (s : Standing) → IsTable now self.old.sets self.old.ended s → IsTable now self.new.sets self.new.ended s }
        ensures now { self.new.now ≡ self.old.now }
    {
        self.sets.discard(now);
        if self.ended.len() > self.room {
            discard_ended(&mut self.ended, now);
            self.room = self.ended.len().saturating_mul(2).max(MAX_SETS);
        }
    }
}

#[tactic(auto, unfolding(crate::specs::Chunks::begins_as_chunk))]
fn no_chunk(bytes: &[u8]) -> Chunked
    ensures { result ≡ (if begins_as_chunk bytes.now then answers.BadChunk else answers.Plain) }
{
    if bytes.len() < 2 || bytes[0] != 0x1e || bytes[1] != 0x0f {
        return Chunked::Plain;
    }
    Chunked::BadChunk
}

fn has_ended(ended: &BTreeMap<u64, u64>, now: u64, id: u64) -> bool
    ensures { result ≡ is_some (while_live at_itself now (get nat_cmp ended.now id)) }
{
    match ended.get(&id) {
        Some(end) => is_live(now, *end),
        None => false,
    }
}

fn live_set(sets: &Sets, now: u64, id: u64) -> Option<&ChunkSet>
    ensures { option_copied result ≡ while_live opened now (get nat_cmp sets.now id) }
{
    match sets.get(id) {
        Some(set) => {
            if !is_live(now, set.opened) {
                return None;
            }
            Some(set)
        }
        None => None,
    }
}

/// The answer to a chunk that changes nothing, beside the live set of its id.
fn beside(set: &ChunkSet, number: u8, count: u8) -> Option<Chunked>
    requires { number < count }
    ensures answer { result ≡ beside set.now number count }
    ensures fits { IfNone result (number < length set.now.parts) }
{
    let kept = set.parts.count();
    if kept != count {
        return Some(Chunked::CountMismatch { kept, given: count });
    }
    let parts = set.parts.as_slice();
    if parts[number as usize].is_some() {
        return Some(Chunked::Repeat);
    }
    None
}

fn grow(alloc: Global, set: &ChunkSet, number: u8, part: &[u8]) -> Result<Grown, AllocError>
    requires { number < length set.now.parts }
    ensures turn { IfOk result (λ grown. (s : Standing) (id : ℕ) → joined s id (with_part set.now number part.now) ≡ grown_turn s id set.now number grown) }
    ensures fits { IfOk result (λ grown. Fits set.now grown) }
{
    if set.len > MAX_DATA || part.len() > MAX_DATA - set.len {
        return Ok(Grown::TooLong);
    }
    match message_with(alloc, set.parts.as_slice(), number, part)? {
        Some(bytes) => Ok(Grown::Whole(bytes)),
        None => Ok(Grown::Lacks(Items::from_slice(alloc, part)?)),
    }
}

fn discard_ended(ended: &mut BTreeMap<u64, u64>, now: u64)
    ensures { (id : ℕ) → get nat_cmp ended.new id ≡ while_live at_itself now (get nat_cmp ended.old id) }
{
    ended.retain(|_, end| is_live(now, *end));
}
