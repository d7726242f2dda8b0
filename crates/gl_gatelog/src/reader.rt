// A log is read from its begin on, batch by batch.
ghost use Rattle.std.specs.Prelude.{◌≡◌, ◌≢◌, ◌⊎◌, ℕ, ◌+◌, ◌*◌, ◌^◌, ◌<◌, ◌≤◌, List, [], ◌∷◌, ◌++◌, false, true, length, take, drop, slice_index, slice_index_or, Option, None, Some, ⊤, IfOk, IfErr, IfSome, OnOk, OnErr, IsErrOf, MatchOption, MatchResult};
ghost use Rattle.std.specs.Int.{to_be_bytes, w64};
ghost use Rattle.gl_base.specs.Counts.{HasCause};
ghost use Rattle.gl_outside.specs.declared.fault.Outside.TheVariants.{Failed};
ghost use Rattle.gl_outside.specs.Disk.{Image, After, DiskState, Tells, IsDurable, IsUnchanged, LeavesOnly};
ghost use Rattle.gl_gatelog.specs.declared.kind.LogFault.TheVariants.{DiskFault, OutOfMemory};
ghost use Rattle.gl_gatelog.specs.Batch.{Batch, BatchAt, IsLawful, body};
ghost use Rattle.gl_gatelog.specs.Gate.{IsClosed, IsShut, AllWait};
ghost use Rattle.gl_gatelog.specs.Log.{area_of, begin, IsSegmentSize};
ghost use Rattle.gl_gatelog.specs.View.{batch_of, begun};
ghost use Rattle.gl_gatelog.specs.Reading.{HasNoBegin, IsBroken, IsOpenFault, ReadsAs, Broken};
ghost use Rattle.gl_gatelog.specs.Stand.{IsSameBut, StandsOn, IsReady, LeftByOpening};
ghost use Rattle.gl_gatelog.specs.Progress.{at_begin, ReadBehind, HasRead, HasEnded, IsUnbegun, IsNoFurther, IsFurther, IsEmptyBeyond, finished, reading_of};

use crate::area::{is_opened, read_area, recorded_size};
use crate::batch::body_len;
use crate::log::{BEGIN_SIZE, area_number, fill, next_place};
use crate::open::write_begin;
use crate::walk::batch_in;
use crate::{GateLog, Log, LogFault};
use gl_outside::{Disk, Outside};
use std::alloc::Global;
use std::marker::Model;

/// A log that is being read from its begin on, batch by batch.
///
/// `begin` and `next` write nothing. Each area is synced before it is read, so that from then on a crash
/// leaves it as it was read. One area at a time is held in memory, and none behind the log's end.
#[derive(Drop)]
pub struct Opening {
    alloc: Global,
    log: Log,
    segment_size: u64,
    limit: u64,
    has_begin: bool,
    area: Vec<u8>,
    segment: u32,
    byte: u64,
    gated: bool,
    places: Vec<(u32, u64)>,
    bytes: u64,
}

impl Model for Opening {
    ghost use Rattle.gl_gatelog.specs.Progress.{OpeningView};

    ghost Value = { OpeningView };

    ghost use Rattle.gl_gatelog.specs.Reader.{opening_of, IsReading};

    ghost view = { opening_of };

    ghost invariant = { IsReading };
}

impl Opening {
    /// Begins to read a log: reads its first area.
    ///
    /// `segment` and `limit` are in bytes. Where the log has a begin batch, the segment size that it records holds,
    /// and `segment` isn't used.
    pub fn begin<D: Disk>(
        alloc: Global,
        disk: &mut D,
        log: Log,
        segment: u64,
        limit: u64,
    ) -> Result<Opening, LogFault>
        requires least { 4096 ≤ segment }
        requires most { segment ≤ 2 ^ 30 }
        ensures value { IfOk result (λ v. v.log ≡ at_begin log segment limit v) }
        ensures cause { IfErr result (λ e. IsOpenFault e ⊎ (e ≡ LogFault.Damaged (area_of log 0) 0)) }
        // No batch behind the begin batch is read yet; a log without one has ended.
        ensures read { Tells (D.state disk.old) → IfOk result (λ v. HasRead v [] (D.state disk.new)) }
        ensures damaged { Tells (D.state disk.old) → IsErrOf result (LogFault.Damaged (area_of log 0) 0) → HasNoBegin log (D.state disk.old).reads }
        ensures unchanged { Tells (D.state disk.old) → IsUnchanged (D.state disk.old) (D.state disk.new) }
        // A crash leaves only what it might leave before.
        ensures only_read { Tells (D.state disk.old) → LeavesOnly (D.state disk.old) (D.state disk.new) ((D.state disk.old).may_leave) }
        ensures faults { HasCause LogFault.DiskFault (D.faults disk.old) (D.faults disk.new) result }
        ensures tells { (D.state disk.new).tells ≡ (D.state disk.old).tells }
    {
        let number = area_number(log, 0);
        let area = read_area(alloc, disk, number)?;
        if !is_opened(&area) {
            let gated = area.len() > 1;
            return Ok(Opening {
                alloc,
                log,
                segment_size: segment,
                limit,
                has_begin: false,
                area,
                segment: 0,
                byte: 0,
                gated,
                places: Vec::new(alloc),
                bytes: 0,
            });
        }
        let recorded = match recorded_size(alloc, log, &area)? {
            Some(recorded) => recorded,
            None => {
                return Err(LogFault::Damaged {
                    area: number,
                    at: 0,
                });
            }
        };
        let (first, byte, gated) = next_place(log, recorded, 0, 0, BEGIN_SIZE);
        Ok(Opening {
            alloc,
            log,
            segment_size: recorded,
            limit,
            has_begin: true,
            area,
            segment: first,
            byte,
            gated,
            places: Vec::new(alloc),
            bytes: BEGIN_SIZE,
        })
    }

    /// Where the batch stands that `next` gives next, if the log doesn't end there: its area, and the byte of its gate.
    pub fn next_place(&self) -> (u32, u64)
        ensures { result ≡ (area_of self.now.log.log self.now.log.place.0, self.now.log.place.1) }
    {
        (area_number(self.log, self.segment), self.byte)
    }

    /// The records of the next batch, or `None` where the log ends.
    ///
    /// `Damaged` comes exactly where the next batch is opened and isn't lawful, with its area and the byte of its gate.
    /// After a fault the reader is where it was before.
    pub fn next<D: Disk>(&mut self, disk: &mut D) -> Result<Option<Vec<Vec<u8>>>, LogFault>
        ensures value { MatchResult result
            (λ found. MatchOption found (IsNoFurther self.old self.new) (λ v. IsFurther (batch_of v.items) self.old self.new))
            (λ _. IsNoFurther self.old self.new) }
        // A log without a begin batch has no batch.
        ensures with_begin { IfOk result (λ found. MatchOption found ⊤ (λ _. self.old.has_begin ≡ true)) }
        ensures bounded { self.new.log.bytes < 2 ^ 64 }
        ensures cause { IfErr result (λ e. IsOpenFault e ⊎ (e ≡ LogFault.Damaged (area_of self.old.log.log self.old.log.place.0) self.old.log.place.1)) }
        ensures read { Tells (D.state disk.old) → (b : List Batch) → HasRead self.old b (D.state disk.old) → MatchResult result
            (λ found. MatchOption found
            (HasRead self.new b (D.state disk.new) × HasEnded self.new (D.state disk.new))
            (λ v. HasRead self.new (b ++ batch_of v.items ∷ []) (D.state disk.new)))
            (λ _. HasRead self.new b (D.state disk.new)) }
        ensures damaged { Tells (D.state disk.old) → (b : List Batch) → HasRead self.old b (D.state disk.old)
            → IsErrOf result (LogFault.Damaged (area_of self.old.log.log self.old.log.place.0) self.old.log.place.1)
            → (self.old.has_begin ≡ true) × IsBroken ((D.state disk.old).reads (area_of self.old.log.log self.old.log.place.0)) self.old.log.place.1 }
        ensures unchanged { Tells (D.state disk.old) → IsUnchanged (D.state disk.old) (D.state disk.new) }
        // A crash leaves only what it might leave before.
        ensures only_read { Tells (D.state disk.old) → LeavesOnly (D.state disk.old) (D.state disk.new) ((D.state disk.old).may_leave) }
        ensures faults { HasCause LogFault.DiskFault (D.faults disk.old) (D.faults disk.new) result }
        ensures tells { (D.state disk.new).tells ≡ (D.state disk.old).tells }
    {
        if !self.has_begin() {
            return Ok(None);
        }
        if !self.load(disk)? {
            return Ok(None);
        }
        let found = self.take()?;
        Ok(found)
    }

    /// Takes the log up where `next` has found its end. A log that has no batch gets its begin batch; nothing else is written.
    pub fn finish<D: Disk>(self, disk: &mut D) -> Result<GateLog, LogFault>
        requires ended { Tells (D.state disk.old) → HasEnded self (D.state disk.old) }
        ensures value { IfOk result (λ v. v ≡ finished self) }
        ensures cause { IfErr result IsOpenFault }
        // A log with a begin batch is taken up without a call of the disk.
        ensures taken_up { self.has_begin ≡ true → (result ≡ Ok self.log) × (disk.new ≡ disk.old) }
        // Where the areas behind are empty it stands on the disk.
        ensures stands { Tells (D.state disk.old) → (b : List Batch) → HasRead self b (D.state disk.old) → IsEmptyBeyond self.log (D.state disk.old) → IfOk result (λ v. StandsOn v b (D.state disk.new)) }
        ensures any_moment { Tells (D.state disk.old) → IsUnbegun self (D.state disk.old) → IsEmptyBeyond self.log (D.state disk.old) → LeavesOnly (D.state disk.old) (D.state disk.new) (LeftByOpening self.log.log self.log.segment_size (D.state disk.old)) }
        ensures ready { Tells (D.state disk.old) → IfOk result (λ v. IsReady v (D.state disk.new)) }
        // No other area is written.
        ensures elsewhere { Tells (D.state disk.old) → (b : ℕ) → b ≢ area_of self.log.log 0 → (D.state disk.new).reads b ≡ (D.state disk.old).reads b }
        // A crash leaves each other area as it might have left it before.
        ensures apart { Tells (D.state disk.old) → (c : Image) → (D.state disk.new).may_leave c → After (D.state disk.old) (IsSameBut (area_of self.log.log 0)) c }
        ensures faults { HasCause LogFault.DiskFault (D.faults disk.old) (D.faults disk.new) result }
        ensures tells { (D.state disk.new).tells ≡ (D.state disk.old).tells }
    {
        if self.has_begin {
            return Ok(GateLog {
                alloc: self.alloc,
                log: self.log,
                segment_size: self.segment_size,
                limit: self.limit,
                segment: self.segment,
                byte: self.byte,
                gated: self.gated,
                places: self.places,
                bytes: self.bytes,
                stopped: false,
            });
        }
        write_begin(
            self.alloc,
            disk,
            self.log,
            self.segment_size,
            self.limit,
            self.gated,
        )
    }

    // Whether the log has its begin batch.
    fn has_begin(&self) -> bool
        ensures value { result ≡ self.now.has_begin }
        ensures bounded { self.now.log.bytes < 2 ^ 64 }
    {
        let _bytes = self.bytes;
        self.has_begin
    }

    // Reads the area of the next batch where it isn't at hand, and answers whether a gate stands there.
    fn load<D: Disk>(&mut self, disk: &mut D) -> Result<bool, Outside>
        ensures hand { IfOk result (λ there. there ≡ true → (self.new.log.gated ≡ true) × (self.new.log.place.1 < length self.new.area)) }
        ensures value { IsNoFurther self.old self.new }
        ensures read { Tells (D.state disk.old) → (b : List Batch) → ReadBehind self.old b (D.state disk.old) → ReadBehind self.new b (D.state disk.new) }
        ensures ended { Tells (D.state disk.old) → (b : List Batch) → ReadBehind self.old b (D.state disk.old) → IfOk result (λ there. there ≡ false → HasEnded self.new (D.state disk.new)) }
        ensures bounded { self.new.log.bytes < 2 ^ 64 }
        ensures unchanged { Tells (D.state disk.old) → IsUnchanged (D.state disk.old) (D.state disk.new) }
        ensures only_read { Tells (D.state disk.old) → LeavesOnly (D.state disk.old) (D.state disk.new) ((D.state disk.old).may_leave) }
        ensures cause { HasCause Failed (D.faults disk.old) (D.faults disk.new) result }
        ensures tells { (D.state disk.new).tells ≡ (D.state disk.old).tells }
    {
        if self.gated && self.byte < self.area.len() as u64 {
            return Ok(true);
        }
        let number = area_number(self.log, self.segment);
        // The area before is let go first, so that never two are held.
        self.area = Vec::new(self.alloc);
        let area = read_area(self.alloc, disk, number)?;
        let there = area.len() > 1 && self.byte < area.len() as u64;
        self.area = area;
        self.gated = self.gated || there;
        Ok(there)
    }

    // The batch at hand, or none where its gate is shut. Then the area is let go.
    fn take(&mut self) -> Result<Option<Vec<Vec<u8>>>, LogFault>
        requires gated { self.old.log.gated ≡ true }
        requires held { self.old.log.place.1 < length self.old.area }
        requires with_begin { self.old.has_begin ≡ true }
        ensures value { MatchResult result
            (λ found. MatchOption found (self.new ≡ record self.old { area = [] }) (λ v. IsFurther (batch_of v.items) self.old self.new × (self.new.area ≡ self.old.area)))
            (λ _. self.new ≡ self.old) }
        ensures cause { IfErr result (λ e. (e ≡ LogFault.OutOfMemory) ⊎ (e ≡ LogFault.Damaged (area_of self.old.log.log self.old.log.place.0) self.old.log.place.1)) }
        ensures found { IfOk result (λ found. MatchOption found
            (IsShut self.old.log.place.1 self.old.area)
            (λ v. BatchAt self.old.area self.old.log.place.1 (batch_of v.items))) }
        ensures damaged { IsErrOf result (LogFault.Damaged (area_of self.old.log.log self.old.log.place.0) self.old.log.place.1)
            → (slice_index self.old.area self.old.log.place.1 ≡ 1) × ((batch : Batch) → BatchAt self.old.area self.old.log.place.1 batch → ⊥) }
        ensures bounded { self.new.log.bytes < 2 ^ 64 }
    {
        let at = self.byte as usize;
        if self.area[at] != 1 {
            self.area = Vec::new(self.alloc);
            return Ok(None);
        }
        let Some(records) = batch_in(self.alloc, &self.area, at)? else {
            return Err(LogFault::Damaged {
                area: area_number(self.log, self.segment),
                at: self.byte,
            });
        };
        self.places.reserve(records.len())?;
        let size = 9 + length_of(&records);
        fill(&mut self.places, (self.segment, self.byte), records.len());
        let (segment, byte, gated) = next_place(
            self.log,
            self.segment_size,
            self.segment,
            self.byte,
            size,
        );
        self.segment = segment;
        self.byte = byte;
        self.gated = gated;
        self.bytes += size;
        Ok(Some(records))
    }
}

/// What was read is what the areas of the log read as: where it has ended, all of it; and where the next batch is broken, so is the log.
pub fn law_reading_ends<D: Disk>(opening: &Opening, disk: &D)
    ensures ended { Tells (D.state disk.now) → (b : List Batch) → HasRead opening.now b (D.state disk.now) → HasEnded opening.now (D.state disk.now)
        → ReadsAs opening.now.log.log (D.state disk.now).reads (reading_of opening.now b) }
    ensures broken { Tells (D.state disk.now) → (b : List Batch) → HasRead opening.now b (D.state disk.now) → opening.now.has_begin ≡ true
        → IsBroken ((D.state disk.now).reads (area_of opening.now.log.log opening.now.log.place.0)) opening.now.log.place.1
        → ReadsAs opening.now.log.log (D.state disk.now).reads (Broken opening.now.log.place.0 opening.now.log.place.1) }
{}

// The length of the body of a lawful batch.
fn length_of(records: &[Vec<u8>]) -> u64
    requires { IsLawful (batch_of records.now) }
    ensures value { result ≡ length (body (batch_of records.now)) }
    ensures bounded { result ≤ 256 * (2 ^ 22 + 4) }
{
    match body_len(records) {
        Some(n) => n,
        None => unreachable!(),
    }
}
