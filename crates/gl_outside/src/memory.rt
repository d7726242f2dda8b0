// A disk in memory. It keeps a record of its calls, by which each image that a crash may leave can be told.
ghost use Rattle.std.specs.Prelude.{◌≡◌, ◌↔◌, ◌⊎◌, ℕ, ◌+◌, ◌-◌, ◌^◌, ◌<◌, ◌≤◌, length, min, take, drop, IfOk, OnOk, OnErr, IsErrOf, [], ◌∷◌, true, false};
ghost use Rattle.gl_base.specs.Counts.{HasCause};
ghost use Rattle.gl_outside.specs.declared.fault.Outside.TheVariants.{Failed, OutOfMemory};
ghost use Rattle.gl_outside.specs.Faults.{NeedsNoMemory};
ghost use Rattle.gl_outside.specs.declared.crash.Unsynced.TheVariants.{Absent, Zeros, Ones};
ghost use Rattle.gl_outside.specs.AfterCrash.{first_calls, left_by, IsFilled};
ghost use Rattle.gl_outside.specs.Areas.{bytes_in, held};
ghost use Rattle.gl_outside.specs.Crash.{AreLawful, synced};
ghost use Rattle.gl_outside.specs.Disk.{IsUnchanged, Elapses, Torn, CutTo, InArea, Follows, IsDurable, overwritten};
ghost use Rattle.gl_outside.specs.Events.{Looked, Wrote, WasCut, Synced, content, told_by, IsImage, LeftSince};
ghost use Rattle.gl_outside.specs.Listed.{IsListed, one_more};
ghost use Rattle.gl_outside.specs.Views.{DiskView, IsUsedUp, HasRoom, CountsCall, IsTried};

use crate::areas::{Area, bytes_of, cut_area, write_area};
use crate::crash::Unsynced;
use crate::listed::{count_one, is_listed};
use crate::record::Record;
use crate::{Disk, Outside};
use std::alloc::{AllocError, Global};
use std::marker::Model;

// For how many later calls there is to be room, and for how many bytes more than the areas hold.
const MORE_CALLS: usize = 4096;

const MORE_BYTES: usize = 4096;

/// A disk in memory, which fails exactly at listed calls.
///
/// Making one, `length`, `read` and a `write_at` past an area's end take memory: they leave room for
/// the record of 4,096 later calls, and of 4,096 bytes more than the areas then hold. Every other
/// call takes none, and fails where it is listed or where it needs more than is left of that room.
#[derive(Drop)]
pub struct MemoryDisk {
    alloc: Global,
    areas: Vec<Area>,
    calls: Record,
    failing: Vec<u64>,
    made: u64,
    faults: u64,
}

impl Model for MemoryDisk {
    ghost use Rattle.std.specs.Prelude.{◌≡◌, ℕ};
    ghost use Rattle.gl_outside.specs.Areas.{bytes_in};
    ghost use Rattle.gl_outside.specs.Crash.{AreLawful};
    ghost use Rattle.gl_outside.specs.Events.{content};
    ghost use Rattle.gl_outside.specs.Views.{DiskView};

    ghost Value = { DiskView };

    ghost view = { λ d. record { events = d.calls.events; failing = d.failing.items; made = d.made; faults = d.faults; calls_left = d.calls.calls_left; bytes_left = d.calls.bytes_left } };

    ghost invariant = { λ d. record { holds : (b : ℕ) → bytes_in d.areas.items b ≡ content d.calls.events b; lawful : AreLawful d.calls.events } };
}

// How much room there is to be for bytes.
fn room_of(areas: &[Area]) -> usize
    ensures { result ≡ min (4096 + held areas.now) (2 ^ 64 - 1) }
{
    let mut room = MORE_BYTES;
    for a in areas {
        room = room.saturating_add(a.bytes.len());
    }
    room
}

// A record by which these areas were written and synced, with room for later calls.
fn record_of(alloc: Global, areas: &[Area]) -> Result<Record, AllocError>
    ensures holds { IfOk result (λ r. (b : ℕ) → bytes_in areas.now b ≡ content r.events b) }
    ensures durable { IfOk result (λ r. (b : ℕ) → IsDurable b (content r.events b) (told_by r.events)) }
    ensures lawful { IfOk result (λ r. AreLawful r.events) }
    ensures calls_left { IfOk result (λ r. r.calls_left ≡ 4096) }
    ensures bytes_left { IfOk result (λ r. r.bytes_left ≡ 4096 + held areas.now) }
{
    let mut calls = Record::new(alloc);
    for a in areas {
        let bytes = bytes_of(areas, a.number);
        calls.reserve(2, bytes.len())?;
        calls.write(a.number, 0, bytes, true);
        calls.sync(a.number);
    }
    calls.reserve(MORE_CALLS, room_of(areas))?;
    Ok(calls)
}

impl MemoryDisk {
    /// An empty disk. The calls whose numbers are in `failing` fail; the first call is 1, and from 2^64 - 1 on each is that.
    pub fn new(alloc: Global, failing: Vec<u64>) -> Result<Self, AllocError>
        ensures { IfOk result (λ d. d ≡ record { events = []; failing = failing.items; made = 0; faults = 0; calls_left = 4096; bytes_left = 4096 }) }
    {
        let mut calls = Record::new(alloc);
        calls.reserve(MORE_CALLS, MORE_BYTES)?;
        Ok(MemoryDisk {
            alloc,
            areas: Vec::new(alloc),
            calls,
            failing,
            made: 0,
            faults: 0,
        })
    }

    /// The bytes of an area. Each write began within what its area read as then.
    pub fn bytes(&self, area: u32) -> &[u8]
        ensures bytes { result.now ≡ content self.now.events area }
        ensures lawful { AreLawful self.now.events }
    {
        bytes_of(&self.areas, area)
    }

    /// How many calls its record has: each but those that failed and did nothing.
    pub fn calls(&self) -> u64
        ensures { result ≡ length self.now.events }
    {
        self.calls.len() as u64
    }

    /// The disk as it is found after a crash right behind the first `calls` of its recorded calls,
    /// or behind all of them where there are fewer: one of the images that such a crash may leave,
    /// by what became of the writes and cuts that were not synced.
    ///
    /// Nothing that is found can be lost any more. The found disk counts its calls from 1 again,
    /// those whose numbers are in `failing` fail, and it has the room that a call leaves which takes
    /// memory.
    pub fn after_crash(
        &self,
        alloc: Global,
        calls: u64,
        unsynced: Unsynced,
        failing: Vec<u64>,
    ) -> Result<MemoryDisk, AllocError>
        ensures left { IfOk result (λ d. (area : ℕ) → content d.events area ≡ left_by unsynced (first_calls calls self.now.events) area) }
        ensures image { IfOk result (λ d. IsImage (first_calls calls self.now.events) (content d.events)) }
        ensures since { IfOk result (λ d. (t : ℕ) → t ≤ calls → t ≤ length self.now.events → LeftSince self.now.events t (content d.events)) }
        ensures absent { IfOk result (λ d. unsynced ≡ Absent → (area : ℕ) → content d.events area ≡ synced area (first_calls calls self.now.events)) }
        ensures zeros { IfOk result (λ d. unsynced ≡ Zeros → (area : ℕ) → IsFilled 0 area (first_calls calls self.now.events) (content d.events area)) }
        ensures ones { IfOk result (λ d. unsynced ≡ Ones → (area : ℕ) → IsFilled 255 area (first_calls calls self.now.events) (content d.events area)) }
        ensures durable { IfOk result (λ d. (area : ℕ) → IsDurable area (content d.events area) (told_by d.events)) }
        ensures lawful { IfOk result (λ d. AreLawful d.events) }
        ensures counts { IfOk result (λ d. (d.failing ≡ failing.items) × (d.made ≡ 0) × (d.faults ≡ 0)) }
        ensures room { IfOk result (λ d. HasRoom d) }
    {
        let areas = self.calls.left_by(alloc, calls, unsynced)?;
        let calls = record_of(alloc, &areas)?;
        Ok(MemoryDisk {
            alloc,
            areas,
            calls,
            failing,
            made: 0,
            faults: 0,
        })
    }
}

impl Disk for MemoryDisk {
    ghost state = { λ d. told_by d.events };

    ghost faults = { λ d. d.faults };

    #[tactic(auto, using(crate::proofs::Told::elapses_same, crate::proofs::Told::elapses_more))]
    fn length(&mut self, area: u32) -> Result<u64, Outside>
        ensures answer { IfOk result (λ n. n ≡ length (content self.old.events area)) }
        ensures unchanged { IsUnchanged (told_by self.old.events) (told_by self.new.events) }
        ensures time { Elapses (told_by self.old.events) (told_by self.new.events) }
        ensures counted { OnOk result (length self.new.events ≡ length self.old.events + 1) }
        ensures cause { HasCause Failed self.old.faults self.new.faults result }
        ensures exact { IsErrOf result Failed ↔ IsListed self.old.failing self.old.made }
        ensures fault { IsErrOf result Failed → self.new.faults ≡ one_more self.old.faults }
        ensures call { CountsCall self.old self.new }
        ensures recorded { OnOk result (self.new.events ≡ Looked ∷ self.old.events) }
        ensures unrecorded { OnErr result (self.new.events ≡ self.old.events) }
        ensures room { OnOk result (HasRoom self.new) }
        ensures same_room { OnErr result ((self.new.calls_left ≡ self.old.calls_left) × (self.new.bytes_left ≡ self.old.bytes_left)) }
    {
        if is_listed(&self.failing, &mut self.made) {
            count_one(&mut self.faults);
            return Err(Outside::Failed);
        }
        let room = room_of(&self.areas);
        self.calls.reserve(MORE_CALLS + 1, room)?;
        self.calls.look();
        Ok(bytes_of(&self.areas, area).len() as u64)
    }

    #[tactic(auto, using(crate::proofs::Told::elapses_same, crate::proofs::Told::elapses_more))]
    fn read(&mut self, area: u32, at: u64, into: &mut [u8]) -> Result<(), Outside>
        requires { at + length into.old ≤ length (content self.old.events area) }
        ensures bytes { OnOk result (into.new ≡ take (length into.old) (drop at (content self.old.events area))) }
        ensures unchanged { IsUnchanged (told_by self.old.events) (told_by self.new.events) }
        ensures time { Elapses (told_by self.old.events) (told_by self.new.events) }
        ensures counted { OnOk result (length self.new.events ≡ length self.old.events + 1) }
        ensures cause { HasCause Failed self.old.faults self.new.faults result }
        ensures exact { IsErrOf result Failed ↔ IsListed self.old.failing self.old.made }
        ensures fault { IsErrOf result Failed → self.new.faults ≡ one_more self.old.faults }
        ensures call { CountsCall self.old self.new }
        ensures recorded { OnOk result (self.new.events ≡ Looked ∷ self.old.events) }
        ensures unrecorded { OnErr result (self.new.events ≡ self.old.events) }
        ensures room { OnOk result (HasRoom self.new) }
        ensures same_room { OnErr result ((self.new.calls_left ≡ self.old.calls_left) × (self.new.bytes_left ≡ self.old.bytes_left)) }
    {
        if is_listed(&self.failing, &mut self.made) {
            count_one(&mut self.faults);
            return Err(Outside::Failed);
        }
        let room = room_of(&self.areas);
        self.calls.reserve(MORE_CALLS + 1, room)?;
        self.calls.look();
        let bytes = bytes_of(&self.areas, area);
        let from = at as usize;
        into.copy_from_slice(&bytes[from..from + into.len()]);
        Ok(())
    }

    #[tactic(auto, using(crate::proofs::Told::elapses_same, crate::proofs::Told::elapses_more, crate::proofs::Told::follows_write, crate::proofs::Told::follows_same_write))]
    fn write_at(&mut self, area: u32, at: u64, bytes: &[u8]) -> Result<(), Outside>
        requires { at ≤ length (content self.old.events area) }
        ensures written { OnOk result (content self.new.events area ≡ overwritten at bytes.now (content self.old.events area)) }
        ensures in_part { InArea area (Torn at (length bytes.now)) (content self.old.events) (content self.new.events) }
        ensures crash { Follows (InArea area (Torn at (length bytes.now))) (told_by self.old.events) (told_by self.new.events) }
        ensures memory { IsErrOf result OutOfMemory → length (content self.old.events area) < at + length bytes.now }
        ensures memory_unchanged { IsErrOf result OutOfMemory → IsUnchanged (told_by self.old.events) (told_by self.new.events) }
        ensures time { Elapses (told_by self.old.events) (told_by self.new.events) }
        ensures counted { OnOk result (length self.new.events ≡ length self.old.events + 1) }
        ensures cause { HasCause Failed self.old.faults self.new.faults result }
        ensures exact { IsErrOf result Failed ↔ (IsListed self.old.failing self.old.made ⊎ (at + length bytes.now ≤ length (content self.old.events area)) × IsUsedUp self.old (length bytes.now)) }
        ensures fault { IsErrOf result Failed → self.new.faults ≡ one_more self.old.faults }
        ensures call { CountsCall self.old self.new }
        ensures recorded { OnOk result (self.new.events ≡ Wrote area at bytes.now true ∷ self.old.events) }
        // A write that failed may be done in part.
        ensures tried { IsErrOf result Failed → IsTried (IsUsedUp self.old (length bytes.now)) (Wrote area at bytes.now false) self.old.events self.new.events }
        ensures unrecorded { IsErrOf result OutOfMemory → self.new.events ≡ self.old.events }
        ensures room { OnOk result (length (content self.old.events area) < at + length bytes.now → HasRoom self.new) }
        ensures left { OnOk result (at + length bytes.now ≤ length (content self.old.events area) → (self.new.calls_left + 1 ≡ self.old.calls_left) × (self.new.bytes_left + length bytes.now ≡ self.old.bytes_left)) }
        ensures spent { at + length bytes.now ≤ length (content self.old.events area) → (self.old.calls_left ≤ self.new.calls_left + 1) × (self.old.bytes_left ≤ self.new.bytes_left + length bytes.now) }
    {
        let len = bytes_of(&self.areas, area).len();
        let start = at as usize;
        if is_listed(&self.failing, &mut self.made) {
            count_one(&mut self.faults);
            if self.calls.calls_left() == 0 || bytes.len() > self.calls.bytes_left() {
                return Err(Outside::Failed);
            }
            // It may be done in part.
            self.calls.write(area, at, bytes, false);
            return Err(Outside::Failed);
        }
        if bytes.len() > len - start {
            // The area holds at most so many bytes more afterwards, and the record takes them too.
            let room = room_of(&self.areas)
                .saturating_add(bytes.len())
                .saturating_add(bytes.len());
            self.calls.reserve(MORE_CALLS + 1, room)?;
            write_area(self.alloc, &mut self.areas, area, start, bytes)?;
            self.calls.write(area, at, bytes, true);
            return Ok(());
        }
        if self.calls.calls_left() == 0 || bytes.len() > self.calls.bytes_left() {
            count_one(&mut self.faults);
            return Err(Outside::Failed);
        }
        write_area(self.alloc, &mut self.areas, area, start, bytes)?;
        self.calls.write(area, at, bytes, true);
        Ok(())
    }

    #[tactic(auto, using(crate::proofs::Told::elapses_same, crate::proofs::Told::elapses_more, crate::proofs::Told::follows_cut))]
    fn cut(&mut self, area: u32, length: u64) -> Result<(), Outside>
        ensures done { OnOk result (content self.new.events area ≡ take length (content self.old.events area)) }
        ensures in_part { InArea area (CutTo length) (content self.old.events) (content self.new.events) }
        ensures crash { Follows (InArea area (CutTo length)) (told_by self.old.events) (told_by self.new.events) }
        ensures memory { NeedsNoMemory result }
        ensures time { Elapses (told_by self.old.events) (told_by self.new.events) }
        ensures counted { OnOk result (Rattle.std.specs.Prelude.length self.new.events ≡ Rattle.std.specs.Prelude.length self.old.events + 1) }
        ensures cause { HasCause Failed self.old.faults self.new.faults result }
        ensures exact { IsErrOf result Failed ↔ (IsListed self.old.failing self.old.made ⊎ (self.old.calls_left ≡ 0)) }
        ensures fault { IsErrOf result Failed → self.new.faults ≡ one_more self.old.faults }
        ensures call { CountsCall self.old self.new }
        ensures recorded { OnOk result (self.new.events ≡ WasCut area length true ∷ self.old.events) }
        // A cut that failed may be done in part.
        ensures tried { OnErr result (IsTried (self.old.calls_left ≡ 0) (WasCut area length false) self.old.events self.new.events) }
        ensures left { OnOk result (self.new.calls_left + 1 ≡ self.old.calls_left) }
        ensures spent { (self.old.calls_left ≤ self.new.calls_left + 1) × (self.new.bytes_left ≡ self.old.bytes_left) }
    {
        let listed = is_listed(&self.failing, &mut self.made);
        if self.calls.calls_left() == 0 {
            count_one(&mut self.faults);
            return Err(Outside::Failed);
        }
        if listed {
            // It may be done in part.
            self.calls.cut(area, length, false);
            count_one(&mut self.faults);
            return Err(Outside::Failed);
        }
        cut_area(&mut self.areas, area, length as usize);
        self.calls.cut(area, length, true);
        Ok(())
    }

    #[tactic(auto, using(crate::proofs::Told::elapses_same, crate::proofs::Told::elapses_more))]
    fn sync(&mut self, area: u32) -> Result<(), Outside>
        ensures durable { OnOk result (IsDurable area (content self.old.events area) (told_by self.new.events)) }
        ensures unchanged { IsUnchanged (told_by self.old.events) (told_by self.new.events) }
        ensures memory { NeedsNoMemory result }
        ensures time { Elapses (told_by self.old.events) (told_by self.new.events) }
        ensures counted { OnOk result (length self.new.events ≡ length self.old.events + 1) }
        ensures cause { HasCause Failed self.old.faults self.new.faults result }
        ensures exact { IsErrOf result Failed ↔ (IsListed self.old.failing self.old.made ⊎ (self.old.calls_left ≡ 0)) }
        ensures fault { IsErrOf result Failed → self.new.faults ≡ one_more self.old.faults }
        ensures call { CountsCall self.old self.new }
        ensures recorded { OnOk result (self.new.events ≡ Synced area ∷ self.old.events) }
        ensures unrecorded { OnErr result (self.new.events ≡ self.old.events) }
        ensures left { OnOk result (self.new.calls_left + 1 ≡ self.old.calls_left) }
        ensures spent { (self.old.calls_left ≤ self.new.calls_left + 1) × (self.new.bytes_left ≡ self.old.bytes_left) }
    {
        if is_listed(&self.failing, &mut self.made) || self.calls.calls_left() == 0 {
            count_one(&mut self.faults);
            return Err(Outside::Failed);
        }
        self.calls.sync(area);
        Ok(())
    }

    fn faults(&self) -> u64 {
        self.faults
    }
}
