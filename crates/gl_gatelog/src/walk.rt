// The records of a batch that stands in bytes.
ghost use Rattle.std.specs.Prelude.{◌≡◌, ◌+◌, ◌<◌, ◌≤◌, ◌^◌, ℕ, List, length, take, drop, slice_index, IfOk, MatchOption};
ghost use Rattle.std.specs.List.{All};
ghost use Rattle.std.specs.Int.{to_be_bytes, w32};
ghost use Rattle.gl_gatelog.specs.Batch.{Batch, BatchAt, body as body_of};
ghost use Rattle.gl_gatelog.specs.View.{batch_of};

use crate::batch::MAX_RECORD;
use std::alloc::{AllocError, Global};

/// The number at the front.
pub fn front_number(bytes: &[u8]) -> u32
    requires { 4 ≤ length bytes.now }
    ensures { to_be_bytes w32 result ≡ take 4 bytes.now }
{
    u32::from_be_bytes([bytes[0], bytes[1], bytes[2], bytes[3]])
}

// The records that fill the bytes exactly, or `None` where so many, none too long, don't.
fn records_in(alloc: Global, bytes: &[u8], count: usize) -> Result<Option<Vec<Vec<u8>>>, AllocError>
    ensures { IfOk result (λ found. MatchOption found
        ((rs : Batch) → body_of rs ≡ bytes.now → length rs ≡ count → All (λ (r : List ℕ). length r ≤ 2 ^ 22) rs → ⊥)
        (λ v. (body_of (batch_of v.items) ≡ bytes.now) × (length (batch_of v.items) ≡ count) × All (λ (r : List ℕ). length r ≤ 2 ^ 22) (batch_of v.items))) }
{
    let mut records = Vec::new(alloc);
    let mut rest = bytes;
    for i in 0..count {
        if rest.len() < 4 {
            return Ok(None);
        }
        let n = front_number(rest) as usize;
        if n > MAX_RECORD || n > rest.len() - 4 {
            return Ok(None);
        }
        let mut record = Vec::new(alloc);
        record.extend_from_slice(&rest[4..4 + n])?;
        records.push(record)?;
        rest = &rest[4 + n..];
    }
    if !rest.is_empty() {
        return Ok(None);
    }
    Ok(Some(records))
}

// The number at a place.
fn number_at(bytes: &[u8], at: usize) -> u32
    requires { at + 4 ≤ length bytes.now }
    ensures { to_be_bytes w32 result ≡ take 4 (drop at bytes.now) }
{
    front_number(&bytes[at..])
}

/// The records of the lawful batch at a place with an open gate, or `None` where none stands there.
pub fn batch_in(alloc: Global, area: &[u8], at: usize) -> Result<Option<Vec<Vec<u8>>>, AllocError>
    requires within { at < length area.now }
    requires gate { slice_index area.now at ≡ 1 }
    ensures { IfOk result (λ found. MatchOption found ((rs : Batch) → BatchAt area.now at rs → ⊥) (λ v. BatchAt area.now at (batch_of v.items))) }
{
    if area.len() - at < 10 {
        return Ok(None);
    }
    let count = number_at(area, at + 1) as usize;
    let len = number_at(area, at + 5) as usize;
    if count == 0 || count > 256 || len > area.len() - at - 10 {
        return Ok(None);
    }
    let start = at + 9;
    let found = records_in(alloc, &area[start..start + len], count)?;
    Ok(found)
}
