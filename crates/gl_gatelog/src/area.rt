// What the areas of a log hold.
ghost use Rattle.std.specs.Prelude.{◌≡◌, ℕ, ◌+◌, ◌^◌, ◌<◌, ◌≤◌, false, true, length, take, drop, slice_index, IfOk, MatchOption};
ghost use Rattle.std.specs.Int.{to_be_bytes, w64};
ghost use Rattle.gl_base.specs.Counts.{HasCause};
ghost use Rattle.gl_outside.specs.declared.fault.Outside.TheVariants.{Failed};
ghost use Rattle.gl_outside.specs.Disk.{Tells, IsDurable, IsUnchanged, LeavesOnly};
ghost use Rattle.gl_gatelog.specs.Batch.{BatchAt};
ghost use Rattle.gl_gatelog.specs.Gate.{IsClosed};
ghost use Rattle.gl_gatelog.specs.Log.{begin, IsSegmentSize};

use crate::Log;
use crate::batch::encode_begin;
use gl_outside::{Disk, Outside};
use std::alloc::{AllocError, Global};

/// The length in bytes from which on no area can be held in memory.
const TOO_LONG: u64 = 1 << 62;

const LEAST_SEGMENT: u64 = 1 << 12;

const GREATEST_SEGMENT: u64 = 1 << 30;

/// Syncs an area, so that a crash leaves it as it reads, and reads it whole.
pub fn read_area<D: Disk>(alloc: Global, disk: &mut D, area: u32) -> Result<Vec<u8>, Outside>
    ensures bytes { Tells (D.state disk.old) → IfOk result (λ v. (v.items ≡ (D.state disk.old).reads area) × IsDurable area v.items (D.state disk.new)) }
    ensures held { IfOk result (λ v. length v.items < 2 ^ 63) }
    ensures unchanged { Tells (D.state disk.old) → IsUnchanged (D.state disk.old) (D.state disk.new) }
    ensures only_read { Tells (D.state disk.old) → LeavesOnly (D.state disk.old) (D.state disk.new) ((D.state disk.old).may_leave) }
    ensures tells { (D.state disk.new).tells ≡ (D.state disk.old).tells }
    ensures cause { HasCause Failed (D.faults disk.old) (D.faults disk.new) result }
{
    disk.sync(area)?;
    let length = disk.length(area)?;
    if length >= TOO_LONG {
        return Err(Outside::OutOfMemory);
    }
    let mut bytes = Vec::new(alloc);
    bytes.resize(length as usize, 0)?;
    disk.read(area, 0, &mut bytes)?;
    Ok(bytes)
}

/// Whether the gate at the begin of an area is open.
pub fn is_opened(area: &[u8]) -> bool
    ensures yes { result ≡ true → (1 < length area.now) × (slice_index area.now 0 ≡ 1) }
    ensures no { result ≡ false → IsClosed 0 area.now }
{
    if area.len() <= 1 {
        return false;
    }
    area[0] == 1
}

// The number of eight bytes at a place.
fn long_at(bytes: &[u8], at: usize) -> u64
    requires { at + 8 ≤ length bytes.now }
    ensures { to_be_bytes w64 result ≡ take 8 (drop at bytes.now) }
{
    let b = &bytes[at..at + 8];
    u64::from_be_bytes([b[0], b[1], b[2], b[3], b[4], b[5], b[6], b[7]])
}

/// The segment size that the begin batch at the begin of an area records, or `None` where none stands there.
pub fn recorded_size(alloc: Global, log: Log, area: &[u8]) -> Result<Option<u64>, AllocError>
    requires { slice_index area.now 0 ≡ 1 }
    ensures { IfOk result (λ found. MatchOption found
        ((s : ℕ) → IsSegmentSize s → BatchAt area.now 0 (begin log s) → ⊥)
        (λ s. IsSegmentSize s × BatchAt area.now 0 (begin log s))) }
{
    if area.len() < 26 {
        return Ok(None);
    }
    let size = long_at(area, 17);
    if size < LEAST_SEGMENT || size > GREATEST_SEGMENT {
        return Ok(None);
    }
    let expected = encode_begin(alloc, log, size)?;
    if area[1..25] != expected[..24] {
        return Ok(None);
    }
    Ok(Some(size))
}
