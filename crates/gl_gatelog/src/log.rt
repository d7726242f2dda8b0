// A log of records in batches, over the areas of a disk.
ghost use Rattle.std.specs.Prelude.{◌≡◌, ◌≢◌, ◌⊎◌, ℕ, ◌+◌, ◌*◌, if◌then◌else◌, replicate, Bool, ◌^◌, ◌<◌, ◌≤◌, List, [], ◌∷◌, ◌++◌, false, true, length, Some, None, IfOk, IfErr, OnOk, OnErr, IsErrOf, MatchOption, MatchResult, vec_capacity};
ghost use Rattle.gl_base.specs.Counts.{HasCause};
ghost use Rattle.gl_outside.specs.Disk.{Image, DiskState, Tells, IsUnchanged, LeavesOnly};
ghost use Rattle.gl_gatelog.specs.declared.kind.Log.{Log};
ghost use Rattle.gl_gatelog.specs.declared.kind.LogFault.TheVariants.{DiskFault, OutOfMemory};
ghost use Rattle.gl_gatelog.specs.Batch.{Batch, size, body};
ghost use Rattle.gl_gatelog.specs.Log.{LogIs, area_of, next_by, same_segment, last_segment};
ghost use Rattle.gl_gatelog.specs.Stand.{StandsOn, IsReady, BeforeOrWith, IsEmptyBehind, LeftByOpening};
ghost use Rattle.gl_gatelog.specs.Reading.{Reading, ReadsAs};
ghost use Rattle.gl_gatelog.specs.View.{GateView, batch_of, refusal, has_long, appended, refused, begun};

use crate::batch::{body_len, encode, encode_begin};
use crate::gate::write_batch;
use crate::{Log, LogFault};
use gl_outside::{Disk, Outside};
use std::alloc::Global;
use std::marker::Model;

const LAST_SEGMENT: u32 = 1_999_999_999;

/// How many bytes a begin batch takes.
pub const BEGIN_SIZE: u64 = 25;

#[derive(Drop)]
pub struct GateLog {
    pub(crate) alloc: Global,
    pub(crate) log: Log,
    pub(crate) segment_size: u64,
    pub(crate) limit: u64,
    pub(crate) segment: u32,
    pub(crate) byte: u64,
    pub(crate) gated: bool,
    pub(crate) places: Vec<(u32, u64)>,
    pub(crate) bytes: u64,
    pub(crate) stopped: bool,
}

impl Model for GateLog {
    ghost use Rattle.gl_gatelog.specs.View.{GateView};

    ghost Value = { GateView };

    ghost use Rattle.gl_gatelog.specs.Inside.{view_of, IsSound};

    ghost view = { view_of };

    ghost invariant = { IsSound };
}

impl GateLog {
    /// How many records there are.
    pub fn len(&self) -> u64
        ensures { result ≡ length self.now.places }
    {
        self.places.len() as u64
    }

    /// Whether a disk fault has stopped it.
    pub fn is_stopped(&self) -> bool
        ensures { result ≡ self.now.stopped }
    {
        self.stopped
    }

    /// The sum of the sizes of the batches.
    pub fn bytes(&self) -> u64
        ensures { result ≡ self.now.bytes }
    {
        self.bytes
    }

    /// Adds records as one batch, and answers the position of the first.
    pub fn append<D: Disk>(&mut self, disk: &mut D, records: &[Vec<u8>]) -> Result<u64, LogFault>
        requires some { 0 < length records.now }
        requires few { length records.now ≤ 256 }
        requires ready { Tells (D.state disk.old) → self.old.stopped ≡ false → IsReady self.old (D.state disk.old) }

        ensures value { MatchResult result
            (λ n. (n ≡ length self.old.places) × (self.new ≡ appended self.old (batch_of records.now)))
            (λ e. self.new ≡ refused self.old e) }
        ensures cause { MatchOption (refusal self.old (batch_of records.now))
            (IfErr result (λ e. (e ≡ LogFault.DiskFault) ⊎ (e ≡ LogFault.OutOfMemory)))
            (λ e. (result ≡ Err e) × (disk.new ≡ disk.old)) }
        ensures faults { HasCause LogFault.DiskFault (D.faults disk.old) (D.faults disk.new) result }
        ensures tells { (D.state disk.new).tells ≡ (D.state disk.old).tells }
        // No other area is written.
        ensures elsewhere { Tells (D.state disk.old) → (b : ℕ) → b ≢ area_of self.old.log self.old.place.0 → (D.state disk.new).reads b ≡ (D.state disk.old).reads b }
        // The next batch can be written too.
        ensures ready { Tells (D.state disk.old) → self.new.stopped ≡ false → IsReady self.new (D.state disk.new) }

        // From Ok on every image has the batch.
        ensures added { Tells (D.state disk.old) → OnOk result ((b : List Batch) → StandsOn self.old b (D.state disk.old) → StandsOn self.new (b ++ batch_of records.now ∷ []) (D.state disk.new)) }

        // A crash at any moment leaves the log as it was, or with the whole batch.
        ensures any_moment { Tells (D.state disk.old) → (b : List Batch) → StandsOn self.old b (D.state disk.old)
            → LeavesOnly (D.state disk.old) (D.state disk.new) (BeforeOrWith self.old b (batch_of records.now) (D.state disk.old)) }

        // After want of memory it stands there as before.
        ensures memory { Tells (D.state disk.old) → IsErrOf result LogFault.OutOfMemory → (b : List Batch) → StandsOn self.old b (D.state disk.old) → StandsOn self.new b (D.state disk.new) }
        ensures calls { Tells (D.state disk.old) → OnOk result ((D.state disk.new).calls ≡ (D.state disk.old).calls + (if self.old.gated then 4 else 6)) }
    {
        let body_len = self.checked(records)?;
        let batch = encode(self.alloc, records, body_len)?;
        self.places.reserve(records.len())?;
        let area = area_number(self.log, self.segment);
        match write_batch(disk, area, self.byte, self.gated, &batch) {
            Ok(()) => {}
            Err(Outside::Failed) => {
                self.stopped = true;
                return Err(LogFault::DiskFault);
            }
            Err(Outside::OutOfMemory) => return Err(LogFault::OutOfMemory),
        }
        let first = self.places.len() as u64;
        fill(&mut self.places, (self.segment, self.byte), records.len());
        let size = 9 + body_len;
        let (segment, byte, gated) = next_place(
            self.log,
            self.segment_size,
            self.segment,
            self.byte,
            size,
        );
        self.segment = segment;
        self.byte = byte;
        self.gated = gated;
        self.bytes += size;
        Ok(first)
    }

    // The length of the body of these records, or what `append` refuses before it takes memory.
    fn checked(&self, records: &[Vec<u8>]) -> Result<u64, LogFault>
        requires { length records.now ≤ 256 }
        ensures { MatchResult result
            (λ n. (refusal self.now (batch_of records.now) ≡ None) × (n ≡ length (body (batch_of records.now))) × (n ≤ 256 * (2 ^ 22 + 4)) × (self.now.bytes + 9 + n < 2 ^ 64) × (has_long (batch_of records.now) ≡ false))
            (λ e. refusal self.now (batch_of records.now) ≡ Some e) }
    {
        if self.stopped {
            return Err(LogFault::Stopped);
        }
        let Some(body_len) = body_len(records) else {
            return Err(LogFault::RecordTooLong);
        };
        let size = 9 + body_len;
        if size > self.limit || self.bytes > self.limit - size {
            return Err(LogFault::LogFull {
                bytes: self.bytes,
                limit: self.limit,
            });
        }
        Ok(body_len)
    }
}

/// An image reads as just one thing: no batch, a whole log with one segment size and the same batches whoever reads them,
/// or a log that is broken at one place.
pub fn law_one_reading()
    ensures some { (log : Log) (image : Image) → (r : Reading) × ReadsAs log image r }
    ensures one { (log : Log) (image : Image) (r t : Reading) → ReadsAs log image r → ReadsAs log image t → r ≡ t }
{}

/// An image has one log: with one segment size, and the same batches whoever reads them.
pub fn law_one_log()
    ensures { (log : Log) (s t : ℕ) (a b : List Batch) (image : Image) → LogIs log s a image → LogIs log t b image → (s ≡ t) × (a ≡ b) }
{}

/// The number of the area of a log's segment.
pub fn area_number(log: Log, segment: u32) -> u32
    requires { segment ≤ 1999999999 }
    ensures { result ≡ area_of log segment }
{
    match log {
        Log::Journal => 2 * segment,
        Log::Index => 2 * segment + 1,
    }
}

fn last_of(log: Log) -> u32
    ensures last { result ≡ last_segment log }
    ensures value { result ≡ 1999999999 }
{
    match log {
        Log::Journal => LAST_SEGMENT,
        Log::Index => LAST_SEGMENT,
    }
}

/// Where the batch behind one of this size begins, and whether a gate stands there.
pub fn next_place(
    log: Log,
    segment_size: u64,
    segment: u32,
    byte: u64,
    size: u64,
) -> (u32, u64, bool)
    requires fits { byte + size < 2 ^ 64 }
    requires segment { segment ≤ 1999999999 }
    ensures place { (result.0, result.1) ≡ next_by log segment_size (segment, byte) size }
    ensures gated { result.2 ≡ same_segment log segment_size (segment, byte + size) }
    ensures bound { result.0 ≤ 1999999999 }
    ensures within { result.1 ≤ byte + size }
    ensures no_gate { result.2 ≡ false → result.1 ≡ 0 }
{
    let end = byte + size;
    if end < segment_size || segment == last_of(log) {
        (segment, end, true)
    } else {
        (segment + 1, 0, false)
    }
}

/// Puts a place this often behind the others.
pub fn fill(places: &mut Vec<(u32, u64)>, place: (u32, u64), count: usize)
    requires { length places.old.items + count ≤ vec_capacity places.old }
    ensures { places.new.items ≡ places.old.items ++ replicate count place }
{
    for done in 0..count {
        match places.push(place) {
            Ok(()) => {}
            Err(_) => unreachable!(),
        }
    }
}
