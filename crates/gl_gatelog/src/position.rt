// A record and the place of its batch, by the record's position.
ghost use Rattle.std.specs.Prelude.{◌≡◌, ◌⊎◌, ℕ, ◌+◌, ◌-◌, ◌^◌, ◌<◌, ◌≤◌, List, [], ◌∷◌, true, length, take, drop, slice_index_or, None, IfOk, IfErr, IfSome, OnOk, OnErr, IsErrOf, MatchOption, MatchResult};
ghost use Rattle.std.specs.List.{All};
ghost use Rattle.gl_base.specs.Counts.{HasCause};
ghost use Rattle.gl_outside.specs.declared.fault.Outside.TheVariants.{Failed};
ghost use Rattle.gl_outside.specs.Disk.{Tells, IsUnchanged, LeavesOnly};
ghost use Rattle.gl_gatelog.specs.declared.kind.LogFault.TheVariants.{DiskFault, OutOfMemory};
ghost use Rattle.gl_gatelog.specs.Batch.{Batch, BatchAt, body as body_of};
ghost use Rattle.gl_gatelog.specs.Log.{records_of};
ghost use Rattle.gl_gatelog.specs.Stand.{StandsOn};
ghost use Rattle.gl_gatelog.specs.View.{place_of, refused};
ghost use Rattle.gl_gatelog.specs.Reading.{IsOpenFault};
ghost use Rattle.gl_gatelog.specs.Position.{IsRun};

use crate::log::area_number;
use crate::walk::front_number;
use crate::{GateLog, LogFault};
use gl_outside::{Disk, Outside};
use std::alloc::Global;

impl GateLog {
    /// Where the batch of a position stands: its area, and the byte of its gate there.
    pub fn place(&self, position: u64) -> (u32, u64)
        requires { position < length self.now.places }
        ensures { result ≡ place_of self.now position }
    {
        let (segment, byte) = self.places[position as usize];
        (area_number(self.log, segment), byte)
    }

    /// Puts the record of a position in the place of what `into` held, and leaves `into` empty where it refuses.
    ///
    /// `Stopped` comes exactly where a fault of the disk has stopped the log. `Damaged` comes only where something else
    /// has written to the disk, so that this log doesn't stand there any longer.
    pub fn read<D: Disk>(
        &mut self,
        disk: &mut D,
        position: u64,
        into: &mut Vec<u8>,
    ) -> Result<(), LogFault>
        requires { position < length self.old.places }
        ensures value { MatchResult result (λ _. self.new ≡ self.old) (λ e. self.new ≡ refused self.old e) }
        ensures bytes { Tells (D.state disk.old) → OnOk result ((b : List Batch) → StandsOn self.old b (D.state disk.old) → into.new.items ≡ slice_index_or (records_of b) position []) }
        ensures emptied { OnErr result (into.new.items ≡ []) }
        ensures cause { IfErr result (λ e. IsOpenFault e ⊎ ((e ≡ LogFault.Stopped) × (self.old.stopped ≡ true)) ⊎ (e ≡ LogFault.Damaged (place_of self.old position).0 (place_of self.old position).1)) }
        ensures stopped { self.old.stopped ≡ true → (result ≡ Err LogFault.Stopped) × (disk.new ≡ disk.old) }
        ensures damaged { Tells (D.state disk.old) → IsErrOf result (LogFault.Damaged (place_of self.old position).0 (place_of self.old position).1) → (b : List Batch) → StandsOn self.old b (D.state disk.old) → ⊥ }
        ensures unchanged { Tells (D.state disk.old) → IsUnchanged (D.state disk.old) (D.state disk.new) }
        // A crash leaves only what it might leave before.
        ensures only_read { Tells (D.state disk.old) → LeavesOnly (D.state disk.old) (D.state disk.new) ((D.state disk.old).may_leave) }
        ensures faults { HasCause LogFault.DiskFault (D.faults disk.old) (D.faults disk.new) result }
        ensures tells { (D.state disk.new).tells ≡ (D.state disk.old).tells }
    {
        into.clear();
        if self.stopped {
            return Err(LogFault::Stopped);
        }
        let (segment, at) = self.places[position as usize];
        let index = before_in_batch(&self.places, position as usize);
        let area = area_number(self.log, segment);
        let body = match read_body(self.alloc, disk, area, at) {
            Ok(Some(body)) => body,
            Ok(None) => return Err(LogFault::Damaged { area, at }),
            Err(Outside::Failed) => {
                self.stopped = true;
                return Err(LogFault::DiskFault);
            }
            Err(Outside::OutOfMemory) => return Err(LogFault::OutOfMemory),
        };
        let Some((start, end)) = record_range(&body, index) else {
            return Err(LogFault::Damaged { area, at });
        };
        into.extend_from_slice(&body[start..end])?;
        Ok(())
    }
}

// How many of the positions before one have its place.
fn before_in_batch(places: &[(u32, u64)], position: usize) -> usize
    requires { position < length places.now }
    ensures { IsRun places.now position result }
{
    let (segment, byte) = places[position];
    let mut first = position;
    while first > 0 {
        let (s, b) = places[first - 1];
        if s != segment || b != byte {
            return position - first;
        }
        first -= 1;
    }
    position
}

// The bytes of the body of the batch at a place, or `None` where none can stand there.
fn read_body<D: Disk>(
    alloc: Global,
    disk: &mut D,
    area: u32,
    at: u64,
) -> Result<Option<Vec<u8>>, Outside>
    ensures found { Tells (D.state disk.old) → IfOk result (λ found. (rs : Batch) → BatchAt ((D.state disk.old).reads area) at rs → MatchOption found ⊥ (λ v. v.items ≡ body_of rs)) }
    ensures unchanged { Tells (D.state disk.old) → IsUnchanged (D.state disk.old) (D.state disk.new) }
    ensures only_read { Tells (D.state disk.old) → LeavesOnly (D.state disk.old) (D.state disk.new) ((D.state disk.old).may_leave) }
    ensures tells { (D.state disk.new).tells ≡ (D.state disk.old).tells }
    ensures cause { HasCause Failed (D.faults disk.old) (D.faults disk.new) result }
{
    let length = disk.length(area)?;
    if length < 10 || at > length - 10 {
        return Ok(None);
    }
    let mut head = [0; 4];
    disk.read(area, at + 5, &mut head)?;
    let size = u64::from(front_number(&head));
    if size > length - 10 - at {
        return Ok(None);
    }
    let body = read_bytes(alloc, disk, area, at + 9, size as usize)?;
    Ok(Some(body))
}

// So many bytes of an area from a place on.
fn read_bytes<D: Disk>(
    alloc: Global,
    disk: &mut D,
    area: u32,
    at: u64,
    count: usize,
) -> Result<Vec<u8>, Outside>
    requires { Tells (D.state disk.old) → at + count ≤ length ((D.state disk.old).reads area) }
    ensures bytes { Tells (D.state disk.old) → IfOk result (λ v. v.items ≡ take count (drop at ((D.state disk.old).reads area))) }
    ensures unchanged { Tells (D.state disk.old) → IsUnchanged (D.state disk.old) (D.state disk.new) }
    ensures only_read { Tells (D.state disk.old) → LeavesOnly (D.state disk.old) (D.state disk.new) ((D.state disk.old).may_leave) }
    ensures tells { (D.state disk.new).tells ≡ (D.state disk.old).tells }
    ensures cause { HasCause Failed (D.faults disk.old) (D.faults disk.new) result }
{
    let mut bytes = Vec::new(alloc);
    bytes.resize(count, 0)?;
    disk.read(area, at, &mut bytes)?;
    Ok(bytes)
}

// Where a record of the body of a batch begins and ends, or `None` where there are not so many.
fn record_range(bytes: &[u8], index: usize) -> Option<(usize, usize)>
    ensures none { result ≡ None → (rs : Batch) → body_of rs ≡ bytes.now → All (λ (r : List ℕ). length r ≤ 2 ^ 22) rs → index < length rs → ⊥ }
    ensures within { IfSome result (λ range. (range.0 ≤ range.1) × (range.1 ≤ length bytes.now)) }
    ensures bytes { IfSome result (λ range. (rs : Batch) → body_of rs ≡ bytes.now → All (λ (r : List ℕ). length r ≤ 2 ^ 22) rs → index < length rs → take (range.1 - range.0) (drop range.0 bytes.now) ≡ slice_index_or rs index []) }
{
    let mut start = 0;
    for i in 0..index {
        let n = record_length(&bytes[start..])?;
        start += 4 + n;
    }
    let n = record_length(&bytes[start..])?;
    Some((start + 4, start + 4 + n))
}

// The length of the record whose bytes these are the first of, or `None` where they are too few.
fn record_length(rest: &[u8]) -> Option<usize>
    ensures none { result ≡ None → (r : List ℕ) (rs : Batch) → length r ≤ 2 ^ 22 → body_of (r ∷ rs) ≡ rest.now → ⊥ }
    ensures within { IfSome result (λ n. 4 + n ≤ length rest.now) }
    ensures same { IfSome result (λ n. (r : List ℕ) (rs : Batch) → length r ≤ 2 ^ 22 → body_of (r ∷ rs) ≡ rest.now → (take n (drop 4 rest.now) ≡ r) × (drop (4 + n) rest.now ≡ body_of rs)) }
{
    if rest.len() < 4 {
        return None;
    }
    let n = front_number(rest) as usize;
    if n > rest.len() - 4 {
        return None;
    }
    Some(n)
}
